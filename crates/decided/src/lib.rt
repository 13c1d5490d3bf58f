// What was decided of a reader's call: the reader after it, what becomes of its region, the answer that is due. The change is made where
// the call is settled.
#![tactic(auto)]

ghost use Rattle.std.specs.Prelude.{◌≡◌, ◌+◌, ltb, length};
ghost use Rattle.decided.specs.Decided.{altered, Suits};

use answers::Verdict;
use packing::unpack;
use state::reader::{Plaque, Reader};
use units::Words;

// What becomes of the reader's region.
#[derive(Clone, Copy)]
pub enum Change {
    Kept,
    Filled { start: usize, size: usize, byte: u8 },
    Written { start: usize, size: usize },
}

// The reader as it is after the call, what becomes of its region, and the words of the answer that is due.
#[derive(Clone, Copy)]
pub struct Decided {
    pub after: Reader,
    pub change: Change,
    pub words: Words,
    pub verdict: Verdict,
}

pub fn refused(x: Reader, number: u8) -> Decided
    ensures { result ≡ record { after = x; change = Change.Kept; words = record { 0 = 0 }; verdict = Verdict.Refused number } }
{
    Decided {
        after: x,
        change: Change::Kept,
        words: Words(0),
        verdict: Verdict::Refused(number),
    }
}

pub fn due(after: Reader, change: Change, words: Words) -> Decided
    ensures { result ≡ record { after = after; change = change; words = words; verdict = Verdict.Due } }
{
    Decided {
        after,
        change,
        words,
        verdict: Verdict::Due,
    }
}

// Whether start + size pass the plaque's length.
pub fn past(plaque: Plaque, start: u16, size: u16) -> bool
    ensures { result ≡ ltb plaque.length.0 (start + size) }
{
    (plaque.length.0 as usize) < start as usize + size as usize
}

// The change, on the reader's region.
#[tactic(auto, unfolding(crate::specs::Decided::altered, crate::specs::Decided::Suits))]
pub fn alter(change: Change, words: &[u16], region: &mut [u8])
    requires { Suits change words.now (length region.old) }
    ensures { region.new ≡ altered change words.now region.old }
{
    match change {
        Change::Kept => {}
        Change::Filled { start, size, byte } => region[start..start + size].fill(byte),
        Change::Written { start, size } => unpack(words, &mut region[start..start + size]),
    }
}
