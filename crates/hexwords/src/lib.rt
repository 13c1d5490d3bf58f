// Words and bytes in hexadecimal digits. They are judged before the first is put, in a pass of their own: where a line is unreadable, what
// was lent for them stays as it was.
#![tactic(auto)]

ghost use Rattle.std.specs.Prelude.{◌≡◌, true, ◌+◌, ◌*◌, ◌%◌, ◌<◌, ◌≤◌, length};
ghost use Rattle.units.specs.Count.{every};
ghost use Rattle.std.proofs.lemmas.List.Edits.{sets};
ghost use Rattle.meaning.specs.Call.{same};
ghost use Rattle.dialog.specs.Fields.{is_hex, hex_digit, word_ok, word_of, dash, bytes_ok, pairs, bytes_of_hex};
ghost use Rattle.fields.specs.FieldsAt.{fields_from};
ghost use Rattle.hexwords.specs.WordsAt.{is_piece, words_at, words_from};

use units::Bytes;

// Without a branch: a letter is above 64 in either case, and its last four bits count from 1.
fn digit_of(c: u8) -> u8
    requires { is_hex c ≡ true }
    ensures value { result ≡ hex_digit c }
    ensures upper_bound { result < 16 }
{
    c % 16 + c / 64 * 9
}

// Each byte is asked for: a test that left at the first that is no digit would be a branch that nobody can foretell.
fn all_hex(field: &[u8]) -> bool
    ensures { result ≡ every is_hex field.now }
{
    field
        .iter()
        .fold(true, |all, c| all & c.is_ascii_hexdigit())
}

fn byte_of(high: u8, low: u8) -> u8
    requires { (is_hex high ≡ true) × (is_hex low ≡ true) }
    ensures { result ≡ hex_digit high * 16 + hex_digit low }
{
    digit_of(high) * 16 + digit_of(low)
}

#[tactic(auto, unfolding(dialog::specs::Fields::word_ok))]
fn is_word(field: &[u8]) -> bool
    ensures { result ≡ word_ok field.now }
{
    field.len() == 4 && all_hex(field)
}

// Whether a piece of a line is a word, alone or with the blank behind it.
#[tactic(auto, using(crate::proofs::Words::ends_blank, crate::proofs::Words::ends_else))]
fn is_piece(piece: &[u8]) -> bool
    ensures { result ≡ is_piece piece.now }
{
    match piece {
        [word @ .., b' '] => is_word(word),
        _ => is_word(piece),
    }
}

#[tactic(auto, using(crate::proofs::Words::digit, crate::proofs::Words::word_value))]
fn word_of(digits: &[u8]) -> u16
    requires { (length digits.now ≡ 4) × (every is_hex digits.now ≡ true) }
    ensures { result ≡ word_of digits.now }
{
    units::word::word(byte_of(digits[0], digits[1]), byte_of(digits[2], digits[3]))
}

// The words from a place to the line's end, counted: each has four digits, and a blank stands between two.
#[tactic(auto, using(crate::proofs::Words::none_left, crate::proofs::Words::uneven))]
pub fn count_words(line: &[u8], at: usize) -> Option<usize>
    ensures { result ≡ words_at line.now at }
{
    if line.len() < at {
        return Some(0);
    }
    let words = &line[at..];
    if words.len() % 5 != 4 {
        return None;
    }
    words.chunks(5).all(is_piece).then_some(words.len() / 5 + 1)
}

// And put to the front of out, as many as it has room for.
pub fn put_words(line: &[u8], at: usize, out: &mut [u16])
    requires { every word_ok (fields_from line.now at) ≡ true }
    ensures { out.new ≡ sets out.old 0 (words_from line.now at) }
{
    let mut from = at;
    for word in out.iter_mut() {
        if line.len() < from {
            return;
        }
        *word = word_of(&line[from..from + 4]);
        from += 5;
    }
}

// No bytes at all are said by a dash.
#[tactic(auto, using(fields::proofs::Bytes::same_at))]
fn is_dash(field: &[u8]) -> bool
    ensures { result ≡ same field.now dash }
{
    matches!(field, b"-")
}

// Whether a field is at most so many bytes.
#[tactic(auto, unfolding(dialog::specs::Fields::bytes_ok))]
pub fn is_bytes(field: &[u8], most: Bytes) -> bool
    ensures { result ≡ bytes_ok most.0 field.now }
{
    let n = field.len();
    is_dash(field) || (2 <= n && n % 2 == 0 && n <= 2 * (most.0 as usize) && all_hex(field))
}

// The bytes of a field of digits, two a byte, put to the front of out, as many as it has room for.
fn put_pairs(field: &[u8], out: &mut [u8])
    requires { (length field.now % 2 ≡ 0) × (every is_hex field.now ≡ true) }
    ensures { out.new ≡ sets out.old 0 (pairs field.now) }
{
    let mut at = 0;
    for byte in out.iter_mut() {
        if field.len() <= at {
            return;
        }
        *byte = byte_of(field[at], field[at + 1]);
        at += 2;
    }
}

// A field's bytes, put to the front of out, as many as it has room for; how many there are.
pub fn put_bytes(field: &[u8], most: Bytes, out: &mut [u8]) -> Bytes
    requires { bytes_ok most.0 field.now ≡ true }
    ensures result_value { result.0 ≡ length (bytes_of_hex field.now) }
    ensures out_after { out.new ≡ sets out.old 0 (bytes_of_hex field.now) }
{
    if is_dash(field) {
        return Bytes(0);
    }
    put_pairs(field, out);
    Bytes((field.len() / 2) as u16)
}
