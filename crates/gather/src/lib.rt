// Lines found in the input: where one ends, and how many there are.
#![tactic(auto)]

ghost use Rattle.std.specs.Prelude.{◌≡◌, ◌==◌, ◌+◌, ◌≤◌, length, drop, count_by};
ghost use Rattle.std.specs.List.{list_any, position_or_len};
ghost use Rattle.dialog.specs.Dialog.{lines_of};
ghost use Rattle.gather.specs.Pieces.{line_in};

// Whether 16 bytes have a line feed.
// Kept: a loop that looks at each. `any` leaves at the first, and does not become vector code: 54 ns for the end of a line of 100 bytes in
// place of 33, and 606 in place of 115 for one of 1,300.
fn any_feed(block: &[u8; 16]) -> bool
    ensures { result ≡ list_any (λ c. c == 10) block.now }
{
    let mut any = false;
    for b in block {
        any |= *b == b'\n';
    }
    any
}

// How many bytes stand before the first block of 16 that has a line feed, or in all blocks.
fn feed_block(bytes: &[u8]) -> usize
    ensures in_bounds { result ≤ length bytes.now }
    ensures skipped { result + position_or_len (λ c. c == 10) (drop result bytes.now) ≡ position_or_len (λ c. c == 10) bytes.now }
{
    let (blocks, _) = bytes.as_chunks::<16>();
    16 * blocks
        .iter()
        .position(|block| any_feed(block))
        .unwrap_or(blocks.len())
}

// The first line feed, or the end, byte by byte.
fn feed_byte(bytes: &[u8]) -> usize
    ensures { result ≡ position_or_len (λ c. c == 10) bytes.now }
{
    bytes
        .iter()
        .position(|b| *b == b'\n')
        .unwrap_or(bytes.len())
}

// The end of the line that begins at a place: that of its line feed, or of the bytes.
pub fn line_end(bytes: &[u8], from: usize) -> usize
    ensures { result ≡ from + length (line_in (drop from bytes.now)) }
{
    if bytes.len() <= from {
        return from;
    }
    let rest = &bytes[from..];
    let skipped = feed_block(rest);
    from + skipped + feed_byte(&rest[skipped..])
}

// The line feeds among 128 bytes, so few that a u8 holds them: then vector code counts 16 at a time.
// Kept: a loop. `filter` and `count` count in a usize: 0.7 ns a byte or more in place of 0.04.
fn feeds(bytes: &[u8; 128]) -> u8
    ensures { result ≡ count_by (λ c. c == 10) bytes.now }
{
    let mut n = 0;
    for b in bytes {
        if *b == b'\n' {
            n += 1;
        }
    }
    n
}

// All line feeds.
fn all_feeds(bytes: &[u8]) -> usize
    ensures { result ≡ count_by (λ c. c == 10) bytes.now }
{
    let (blocks, rest) = bytes.as_chunks::<128>();
    let mut n = 0;
    for block in blocks {
        n += feeds(block) as usize;
    }
    n + rest.iter().filter(|b| **b == b'\n').count()
}

// How many lines there are: one for each line feed, and a last line that lacks its line feed counts too.
pub fn count_lines(bytes: &[u8]) -> usize
    ensures { result ≡ length (lines_of bytes.now) }
{
    let end = bytes.len();
    if end == 0 {
        return 0;
    }
    let n = all_feeds(bytes);
    if bytes[end - 1] == b'\n' {
        return n;
    }
    n + 1
}
