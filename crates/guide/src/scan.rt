// Reading a line of worked packets. A place past the end is no fault: there is nothing there.
ghost use Rattle.std.specs.Prelude.{◌-◌, ◌<◌, ◌≤◌, ◌≡◌, length, take, drop, IfSome};
ghost use Rattle.guide.specs.Scan.{IsPrefixLen, stands_at};

// The place after the first byte b at or after a place; the end where there is none.
pub fn after(s: &[u8], from: usize, b: u8) -> usize
    ensures within { result ≤ length s.now }
    ensures further { from < length s.now → from < result }
{
    match part(s, from, s.len()).iter().position(|c| *c == b) {
        Some(n) => from + n + 1,
        None => s.len(),
    }
}

// What there is from one place up to another.
pub fn part(s: &[u8], from: usize, to: usize) -> &[u8]
    ensures { result.now ≡ take (to - from) (drop from s.now) }
{
    s.get(from..to.min(s.len())).unwrap_or(&[])
}

#[tactic(auto, unfolding(crate::specs::Scan::stands_at))]
pub fn starts(s: &[u8], from: usize, b: u8) -> bool
    ensures { result ≡ stands_at s.now from b }
{
    s.get(from).is_some_and(|c| *c == b)
}

// An upper-case hexadecimal digit.
fn digit(b: u8) -> Option<u16>
    ensures { IfSome result (λ d. d < 16) }
{
    match b {
        b'0'..=b'9' => Some((b - b'0') as u16),
        b'A'..=b'F' => Some((b - b'A') as u16 + 10),
        _ => None,
    }
}

// Four digits make a word.
fn word_at(s: &[u8], at: usize) -> Option<u16> {
    let [a, b, c, d, ..] = part(s, at, s.len()) else {
        return None;
    };
    Some(digit(*a)? * 4096 + digit(*b)? * 256 + digit(*c)? * 16 + digit(*d)?)
}

// Puts the words, one blank between them, at the front of out, and hands back how many there are. What is no word ends them, and so
// does the end of out.
pub fn words_of(s: &[u8], out: &mut [u16]) -> usize
    ensures { IsPrefixLen result out.new }
{
    let mut at = 0;
    for (n, word) in out.iter_mut().enumerate() {
        let Some(w) = word_at(s, at) else {
            return n;
        };
        *word = w;
        at = after(s, at, b' ');
    }
    out.len()
}
