// Bytes written behind those that lie in a lent buffer already. Their number goes beside the buffer, since `Wrote` tells of the whole of it.
ghost use Rattle.std.specs.Prelude.{◌≡◌, ◌+◌, ◌<◌, ◌≤◌, length};
ghost use Rattle.words.specs.Show.{Wrote, decimal_text, hex_digit, unit_text, pair_text, attrs_text};

use attrs::Attrs;
use sets::KeyWalk;

fn put(out: &mut [u8], n: usize, text: &[u8]) -> usize
    requires { n + length text.now ≤ length out.old }
    ensures { Wrote out.old out.new n text.now result }
{
    let end = n + text.len();
    out[n..end].copy_from_slice(text);
    end
}

fn put_decimal(out: &mut [u8], n: usize, x: u32) -> usize
    requires { n + 20 ≤ length out.old }
    ensures { Wrote out.old out.new n (decimal_text x) result }
{
    let mut digits = [0u8; 20];
    let k = io::decimal(u64::from(x), &mut digits);
    put(out, n, &digits[..k])
}

fn hex_digit(d: u16) -> u8
    requires { d < 16 }
    ensures { result ≡ hex_digit d }
{
    if d < 10 {
        b'0' + d as u8
    } else {
        b'A' - 10 + d as u8
    }
}

// A space and a unit of text.
pub fn put_unit(out: &mut [u8], n: usize, u: u16) -> usize
    requires { n + 5 ≤ length out.old }
    ensures { Wrote out.old out.new n (unit_text u) result }
{
    let text = [
        b' ',
        hex_digit(u / 4096),
        hex_digit(u / 256 % 16),
        hex_digit(u / 16 % 16),
        hex_digit(u % 16),
    ];
    put(out, n, &text)
}

// A space and an attribute.
fn put_pair(out: &mut [u8], n: usize, key: u32, value: u32) -> usize
    requires { n + 42 ≤ length out.old }
    ensures { Wrote out.old out.new n (pair_text key value) result }
{
    let before = put(out, n, b" ");
    let between = put_decimal(out, before, key);
    let after = put(out, between, b"=");
    put_decimal(out, after, value)
}

// The attributes of a set, each behind a space, their keys ascending.
pub fn put_attrs(out: &mut [u8], n: usize, set: Attrs) -> usize
    requires { n + 672 ≤ length out.old }
    ensures { Wrote out.old out.new n (attrs_text set) result }
{
    let mut at = n;
    for key in KeyWalk::over(set.mask) {
        at = put_pair(out, at, key, set.get(key));
    }
    at
}
