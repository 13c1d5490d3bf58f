// The night run: a run file played on a fresh gateway, and its whole listing written.
#![tactic(auto)]

pub mod walk;

ghost use Rattle.nightrun.specs.Walk.{Lists};

use crate::walk::play;
use hearing::opening::open;
use listingout::{put_broken, put_commands};
use units::{Bytes, Words};

// What writing a whole listing gives: its length, or that the output could be too short for one.
#[derive(Clone, Copy)]
pub enum Listed {
    Written(usize),
    TooShort,
}

// No listing of a file of at most 65,536 bytes is longer.
pub const LONGEST_LISTING: usize = 2600000;

// The whole listing, at the front of the output; what is past it stays.
pub fn list(file: &[u8], out: &mut [u8]) -> Listed
    ensures { Lists file.now out.old out.new result }
{
    if out.len() < LONGEST_LISTING {
        return Listed::TooShort;
    }
    let mut store = [0u16; Words::STORE.0 as usize];
    let mut plaques = [0u8; Bytes::PLAQUES.0 as usize];
    let fresh = state::fresh(&mut store);
    let o = open(file, fresh, &store, &mut plaques);
    if !o.fine {
        return Listed::Written(put_broken(out, 0));
    }
    let begun = o.walk;
    let first = o.state;
    let to = put_commands(out, 0, begun.left);
    Listed::Written(play(file, begun, first, &mut store, &mut plaques, out, to))
}
