// Writers of text: each writes at a place of the lent output and hands back the place after it. The caller sees to the room.
// Kept: the output and the place are two parameters. A struct of both, lent to its methods, is proved with one clause more in each (that it
// has the same output still), but takes 1.4 times as long (a line of words 3.09 ns a word for 2.18; handed on by value 2.30).
// Kept: no `write!`. Of what it writes to a `&mut [u8]` std says neither the bytes nor what is left of the output, where the proof stops;
// and of no writer it says that `write!` does not fail.
#![tactic(auto)]

ghost use Rattle.std.specs.Prelude.{◌≡◌, [], ◌∷◌, ◌+◌, ◌*◌, ◌<◌, ◌≤◌, length};
ghost use Rattle.text.specs.Text.{Put, digit_of, byte_hex_of, bytes_hex_of, decimal_of};

pub fn put(out: &mut [u8], at: usize, b: u8) -> usize
    requires { at < length out.old }
    ensures { Put out.old at (b ∷ []) out.new result }
{
    let next = at + 1;
    out[at] = b;
    next
}

#[tactic(auto, using(crate::proofs::Writing::copied))]
pub fn put_text(out: &mut [u8], at: usize, text: &[u8]) -> usize
    requires { at + length text.now ≤ length out.old }
    ensures { Put out.old at text.now out.new result }
{
    let end = at + text.len();
    out[at..end].copy_from_slice(text);
    end
}

// Without a branch: 6 more reach 16 from 10 on.
fn digit(d: u16) -> u8
    requires { d < 16 }
    ensures { result ≡ digit_of d }
{
    (48 + d + (d + 6) / 16 * 7) as u8
}

// A byte: two digits.
#[tactic(auto, using(crate::proofs::Writing::put_then), unfolding(crate::specs::Text::byte_hex_of))]
pub fn put_byte_hex(out: &mut [u8], at: usize, b: u8) -> usize
    requires { at + 2 ≤ length out.old }
    ensures { Put out.old at (byte_hex_of b) out.new result }
{
    let n = b as u16;
    let a = put(out, at, digit(n / 16));
    put(out, a, digit(n % 16))
}

// Bytes, two digits each, in one piece.
pub fn put_bytes(out: &mut [u8], at: usize, bytes: &[u8]) -> usize
    requires { at + 2 * length bytes.now ≤ length out.old }
    ensures { Put out.old at (bytes_hex_of bytes.now) out.new result }
{
    let mut to = at;
    for b in bytes {
        to = put_byte_hex(out, to, *b);
    }
    to
}

fn ten(n: usize) -> u8
    requires { n < 10 }
    ensures { result ≡ 48 + n }
{
    48 + n as u8
}

// Any number, without leading zeros. Those below 10 ^ k have at most k digits (proofs/Writing.antt, `decimal_short`).
#[tactic(auto, using(crate::proofs::Writing::decimal_one))]
pub fn put_decimal(out: &mut [u8], at: usize, n: usize) -> usize
    requires { at + length (decimal_of n) ≤ length out.old }
    ensures { Put out.old at (decimal_of n) out.new result }
{
    if n < 10 {
        return put(out, at, ten(n));
    }
    let last = put_decimal(out, at, n / 10);
    put(out, last, ten(n % 10))
}
