// The six calls of document 01. Each judges refusals 1 and 2, and then does its work on a machine that is known to be consistent. None
// asks anything of its caller; those that carry the proof of a consistent machine call the inner functions instead.
#![tactic(auto)]

ghost use Rattle.std.specs.Prelude.{length};
ghost use Rattle.meaning.specs.Bench.{full};
ghost use Rattle.meaning.specs.Call as S;
ghost use Rattle.machine.specs.Machine.{machine};
ghost use Rattle.promise.specs.Obeyed.{Answers, Collects};

use answers::refused;
use fit::unfit;
use obey::obey;
use promise::{Called, Handout};
use state::State;
use units::Form;
use units::stamp::Stamp;

// A command packet.
pub fn command(
    s: State,
    t: Stamp,
    form: Form,
    words: &[u16],
    store: &mut [u16],
    plaques: &mut [u8],
) -> Called
    ensures { Answers full (S.command t form words.now) s store.old plaques.old result
        store.new plaques.new }
{
    let k = unfit(s, store, plaques);
    if k != 0 {
        return refused(s, k);
    }
    obey(s, t, form, words, store, plaques)
}

// A field check.
pub fn check(s: State, node: u8, t: Stamp, clock: u32, store: &mut [u16], plaques: &[u8]) -> Called
    ensures { Answers full (S.check node t clock) s store.old plaques.now result store.new
        plaques.now }
{
    let k = unfit(s, store, plaques);
    if k != 0 {
        return refused(s, k);
    }
    obey::check::check(s, node, t, clock, store, plaques)
}

// A plaque arrives.
pub fn arrive(
    s: State,
    node: u8,
    id: &[u8],
    bytes: &[u8],
    store: &[u16],
    plaques: &mut [u8],
) -> Called
    ensures { Answers full (S.arrive node id.now bytes.now) s store.now plaques.old result
        store.now plaques.new }
{
    let k = unfit(s, store, plaques);
    if k != 0 {
        return refused(s, k);
    }
    plaques::arrive(s, node, id, bytes, store, plaques)
}

// A plaque leaves.
pub fn leave(s: State, node: u8, store: &[u16], plaques: &[u8]) -> Called
    ensures { Answers full (S.leave node) s store.now plaques.now result store.now
        plaques.now }
{
    let k = unfit(s, store, plaques);
    if k != 0 {
        return refused(s, k);
    }
    plaques::leave(s, node, store, plaques)
}

// An answer is acknowledged.
pub fn acknowledge(s: State, node: u8, number: u16, store: &mut [u16], plaques: &[u8]) -> Called
    ensures { Answers full (S.acknowledge node number) s store.old plaques.now result store.new
        plaques.now }
{
    let k = unfit(s, store, plaques);
    if k != 0 {
        return refused(s, k);
    }
    handover::acknowledge(s, node, number, store, plaques)
}

// The oldest answer is copied to the front of the lent output.
pub fn collect(
    s: State,
    form: Form,
    node: u8,
    store: &[u16],
    plaques: &[u8],
    out: &mut [u16],
) -> Handout
    ensures { Collects full (S.collect form node (length out.old))
        (machine s store.now plaques.now) result out.old out.new }
{
    let k = unfit(s, store, plaques);
    if k != 0 {
        return Handout::Refused(k);
    }
    collect::collect(s, form, node, store, plaques, out)
}
