// Words: what stands between spaces.
ghost use Rattle.std.specs.Prelude.{◌≡◌, ◌≤◌, length};
ghost use Rattle.words.specs.Words.{parts as Words·parts, passes as Words·passes, other_of, Spans, WordIs};

// Which bytes a span goes over: a value, not a closure, since the edit line_ends_at_a_space puts one in place of another.
#[derive(Clone, Copy)]
pub enum Class {
    Space,
    Word,
    Key,
    Line,
}

fn parts(b: u8) -> bool
    ensures { result ≡ Words·parts b }
{
    matches!(b, b' ' | b'\t' | b'\r')
}

fn passes(class: Class, b: u8) -> bool
    ensures { result ≡ Words·passes class b }
{
    match class {
        Class::Space => parts(b),
        Class::Word => !parts(b),
        Class::Key => b != b'=',
        Class::Line => b != b'\n',
    }
}

#[tactic(auto, unfolding(crate::specs::Words::other_of))]
fn first_other(s: &[u8], class: Class) -> Option<usize>
    ensures { result ≡ other_of class s.now }
{
    s.iter().position(|b| !passes(class, *b))
}

// Where the bytes of a class that begin at `from` end.
pub fn span(s: &[u8], from: usize, class: Class) -> usize
    requires { from ≤ length s.now }
    ensures { Spans class s.now from result }
{
    let n = s.len();
    match first_other(&s[from..], class) {
        Some(i) => from + i,
        None => n,
    }
}

// What is left of a line: its bytes from one of them on.
#[derive(Clone, Copy)]
pub struct Rest<'a> {
    pub line: &'a [u8],
    pub from: usize,
    pub ghost within: { from ≤ length line.now },
}

#[derive(Clone, Copy)]
pub struct Word {
    pub start: usize,
    pub end: usize,
}

// The first word of what is left; an empty one at the end.
pub fn next_word(rest: Rest) -> Word
    ensures { WordIs rest.entry.line.now rest.entry.from result }
{
    let start = span(rest.line, rest.from, Class::Space);
    let end = span(rest.line, start, Class::Word);
    Word { start, end }
}
