// A run file opened: its plaques arrived, as many as its count says, and the count of its commands read.
ghost use Rattle.std.specs.Prelude.{◌≡◌, false, ◌≤◌, length};
ghost use Rattle.meaning.specs.Bench.{full};
ghost use Rattle.machine.specs.Machine.{machine, meaning};
ghost use Rattle.machine.specs.Consistent.{unfit};
ghost use Rattle.listing.specs.Listing.{longest_file};
ghost use Rattle.hearing.specs.Opened.{Brings, Opens};

use crate::arrive_at;
use runfile::{LONGEST_FILE, read_count, read_plaque};
use state::State;

// Where the walk over the commands is, and how many are to come by the count.
#[derive(Clone, Copy)]
pub struct Walk {
    pub at: usize,
    pub left: u16,
}

// After the plaques: where the commands begin, or that the file is broken before them.
#[derive(Clone, Copy)]
pub struct Opened {
    pub state: State,
    pub walk: Walk,
    pub fine: bool,
}

fn broken(state: State) -> Opened
    ensures { result ≡ record { walk = record { at = 0; left = 0 }; state = state; fine = false } }
{
    let walk = Walk { at: 0, left: 0 };
    Opened {
        walk,
        state,
        fine: false,
    }
}

// The plaques, as many as the count says, arrived; and the command count.
fn bring(file: &[u8], count: u16, s: State, store: &[u16], plaques: &mut [u8]) -> Opened
    requires in_bounds { (2 ≤ length file.now) × (length file.now ≤ longest_file) }
    requires plaques_value { unfit full (machine s store.now plaques.old) ≡ 0 }
    ensures { Brings full count file.now (meaning full (machine s store.now plaques.old)) result
        (machine result.state store.now plaques.new) }
{
    let mut at = 2;
    let mut t = s;
    for _ in 0..count {
        let Some(plaque) = read_plaque(file, at) else {
            return broken(t);
        };
        t = arrive_at(file, at, plaque.node, plaque.length, t, store, plaques);
        at = at + 11 + plaque.length.0 as usize;
    }
    let Some(commands) = read_count(file, at) else {
        return broken(t);
    };
    let walk = Walk {
        at: at + 2,
        left: commands,
    };
    Opened {
        walk,
        state: t,
        fine: true,
    }
}

pub fn open(file: &[u8], s: State, store: &[u16], plaques: &mut [u8]) -> Opened
    requires { unfit full (machine s store.now plaques.old) ≡ 0 }
    ensures { Opens full file.now (meaning full (machine s store.now plaques.old)) result
        (machine result.state store.now plaques.new) }
{
    if LONGEST_FILE < file.len() {
        return broken(s);
    }
    let Some(count) = read_count(file, 0) else {
        return broken(s);
    };
    bring(file, count, s, store, plaques)
}
