// What a call hands back. The promise itself is in specs/Obeyed.antt, and what follows from it for all calls in proofs/.
#![tactic(auto)]

use state::State;
use units::Words;

// Refused with the paper's number; done, where the paper names no result; quiet, of a field check; queued, where an answer was made.
#[derive(Clone, Copy)]
pub enum Reply {
    Refused(u8),
    Done,
    Quiet,
    Queued,
}

// (The state stands first in what carries it: it then moves as one piece.)
#[derive(Clone, Copy)]
pub struct Called {
    pub state: State,
    pub reply: Reply,
}

// What collect hands back: a refusal, or the count of words copied and the handover number.
#[derive(Clone, Copy)]
pub enum Handout {
    Refused(u8),
    Handed(Words, u16),
}
