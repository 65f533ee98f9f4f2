// The table: its head in two lent numbers, its entries in lent bytes.
ghost use Rattle.std.specs.Prelude.{◌≡◌};
ghost use Rattle.table.specs.Value.{bool as bool_value, int as int_value, string as string_value};
ghost use Rattle.table.specs.Sound.{fresh_head, sound_of};
ghost use Rattle.table.specs.Ask.{ask_name, ask_value, told, Gives};
ghost use Rattle.lookup.specs.Show.{shown_of, name_of, string_of};
ghost use Rattle.runs.specs.Answers.{told as told_count};
ghost use Rattle.ffi.specs.Heads.{table_head_of, asked_in};
ghost use Rattle.ffi.specs.Answers.{count_in, kind_in, number_in, ShownIn};

use crate::heads::{settled, table_head_of, table_words_of};
use copying::copy;
use lookup::Shown;
use refusal::Refusal;
use table::{Asked, TableHead};

#[unsafe(no_mangle)]
pub extern "C" fn indovalump_table_fresh(head: &mut [u32; 2])
    ensures { table_head_of head.new ≡ fresh_head }
{
    *head = table_words_of(TableHead::fresh());
}

#[unsafe(no_mangle)]
pub extern "C" fn indovalump_table_sound(head: &[u32; 2], table: &[u8]) -> bool
    ensures { result ≡ sound_of (table_head_of head.now) table.now }
{
    let h = table_head_of(head);
    table::sound(h, table)
}

// Stores the head of an answer that has one, and the number that was asked for.
fn given(head: &mut [u32; 2], number: &mut u32, answer: Result<Asked, Refusal>) -> u32
    ensures { asked_in result number.new head.new ≡ told (table_head_of head.old) answer }
{
    if let Ok(asked) = answer {
        *head = table_words_of(asked.head);
    }
    settled(answer.map(|asked| asked.number), number, 0)
}

// The four askings differ in the type of what is asked for alone: the C interface needs one for each.
#[unsafe(no_mangle)]
pub extern "C" fn indovalump_ask_name(
    head: &mut [u32; 2],
    table: &mut [u8],
    name: &[u8],
    number: &mut u32,
) -> u32
    ensures { Gives (ask_name (table_head_of head.old) table.old name.now) (asked_in result number.new head.new) table.new }
{
    let h = table_head_of(head);
    given(head, number, table::ask_name(h, table, name))
}

#[unsafe(no_mangle)]
pub extern "C" fn indovalump_ask_bool(
    head: &mut [u32; 2],
    table: &mut [u8],
    value: bool,
    number: &mut u32,
) -> u32
    ensures { Gives (ask_value (table_head_of head.old) table.old (bool_value value)) (asked_in result number.new head.new) table.new }
{
    let h = table_head_of(head);
    given(head, number, table::ask_bool(h, table, value))
}

#[unsafe(no_mangle)]
pub extern "C" fn indovalump_ask_int(
    head: &mut [u32; 2],
    table: &mut [u8],
    value: i64,
    number: &mut u32,
) -> u32
    ensures { Gives (ask_value (table_head_of head.old) table.old (int_value value)) (asked_in result number.new head.new) table.new }
{
    let h = table_head_of(head);
    given(head, number, table::ask_int(h, table, value))
}

#[unsafe(no_mangle)]
pub extern "C" fn indovalump_ask_string(
    head: &mut [u32; 2],
    table: &mut [u8],
    value: &[u8],
    number: &mut u32,
) -> u32
    ensures { Gives (ask_value (table_head_of head.old) table.old (string_value value.now)) (asked_in result number.new head.new) table.new }
{
    let h = table_head_of(head);
    given(head, number, table::ask_string(h, table, value))
}

// All of the bytes, or refusal 8 where they do not fit.
fn show(bytes: &[u8], out: &mut [u8]) -> Result<usize, Refusal>
    ensures { ShownIn bytes.now out.old out.new (told_count result) }
{
    let count = bytes.len();
    if count > out.len() {
        return Err(Refusal::Out);
    }
    copy(&mut out[..count], bytes);
    Ok(count)
}

// The bytes of a name: none for a number that is not given out.
#[unsafe(no_mangle)]
pub extern "C" fn indovalump_name(
    head: &[u32; 2],
    table: &[u8],
    n: u32,
    out: &mut [u8],
    count: &mut usize,
) -> u32
    ensures { ShownIn (name_of (table_head_of head.now) table.now n) out.old out.new (count_in result count.new) }
{
    let h = table_head_of(head);
    settled(show(lookup::name_bytes(h, table, n), out), count, 0)
}

// The bytes of a string value: none for a number that is not given out, and for a value that is no string.
#[unsafe(no_mangle)]
pub extern "C" fn indovalump_string(
    head: &[u32; 2],
    table: &[u8],
    v: u32,
    out: &mut [u8],
    count: &mut usize,
) -> u32
    ensures { ShownIn (string_of (table_head_of head.now) table.now v) out.old out.new (count_in result count.new) }
{
    let h = table_head_of(head);
    settled(show(lookup::string_bytes(h, table, v), out), count, 0)
}

// The kind of a value, a number since C reads it: 1 for a bool, 2 for an integer, 3 for a string, 0 for a number that is not given
// out. `number` is the integer, or 0 or 1 for a bool.
#[unsafe(no_mangle)]
pub extern "C" fn indovalump_value(head: &[u32; 2], table: &[u8], v: u32, number: &mut i64) -> u32
    ensures { (result ≡ kind_in (shown_of (table_head_of head.now) table.now v)) × (number.new ≡ number_in (shown_of (table_head_of head.now) table.now v)) }
{
    let h = table_head_of(head);
    let (kind, shown) = match lookup::value_at(h, table, v) {
        None => (0, 0),
        Some(Shown::Bool(b)) => (1, i64::from(b)),
        Some(Shown::Int(n)) => (2, n),
        Some(Shown::String) => (3, 0),
    };
    *number = shown;
    kind
}
