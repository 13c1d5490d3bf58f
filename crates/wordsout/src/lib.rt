// Writers of words: four hexadecimal digits each, at a place of the lent output. The caller sees to the room.
#![tactic(auto)]

ghost use Rattle.std.specs.Prelude.{◌≡◌, ◌+◌, ◌*◌, ◌/◌, ◌%◌, ◌≤◌, length};
ghost use Rattle.text.specs.Text.{Put, digit_of, hex_of, words_line};

use text::{put, put_text};

// A word's four digits, made at once and written by one store: the bytes of one number, the first digit's the lowest. Each is made as
// `text::digit` makes it: 6 more carry into the upper half of its byte from 10 on.
fn digits(w: u16) -> u32
    ensures { result ≡ digit_of (w / 4096) + 256 * digit_of (w / 256 % 16) + 65536 * digit_of (w / 16 % 16) + 16777216 * digit_of (w % 16) }
{
    let n = w as u32;
    let bare = n / 4096 + n / 256 % 16 * 256 + n / 16 % 16 * 65536 + n % 16 * 16777216;
    let more = bare + 0x06060606;
    let carries = more / 16 % 2
        + more / 4096 % 2 * 256
        + more / 1048576 % 2 * 65536
        + more / 268435456 * 16777216;
    bare + 0x30303030 + carries * 7
}

// A word: four digits.
pub fn put_hex(out: &mut [u8], at: usize, w: u16) -> usize
    requires { at + 4 ≤ length out.old }
    ensures { Put out.old at (hex_of w) out.new result }
{
    put_text(out, at, &digits(w).to_le_bytes())
}

// Words as the end of a line: a blank after each, and in the last one's place a line feed.
pub fn put_words(out: &mut [u8], at: usize, words: &[u16]) -> usize
    requires { at + 5 * length words.now ≤ length out.old }
    ensures { Put out.old at (words_line words.now) out.new result }
{
    let mut to = at;
    for w in words {
        to = put_hex(out, to, *w);
        to = put(out, to, b' ');
    }
    if words.is_empty() {
        return to;
    }
    out[to - 1] = b'\n';
    to
}
