// The oldest answer of a node collected, on a machine that is known to be consistent.
#![tactic(auto)]

ghost use Rattle.std.specs.Prelude.{◌≡◌, ◌+◌, ◌≤◌, length, get_or, take, drop};
ghost use Rattle.std.proofs.lemmas.List.Edits.{sets};
ghost use Rattle.meaning.specs.Bench.{full};
ghost use Rattle.meaning.specs.Call.{collect};
ghost use Rattle.machine.specs.Machine.{machine};
ghost use Rattle.machine.specs.Consistent.{unfit};
ghost use Rattle.promise.specs.Obeyed.{Collects};

use answers::slots::node_slot;
use lists::room::place_of;
use moves::copy_in;
use promise::Handout;
use responseout::bears;
use state::State;
use units::word::word;
use units::{Form, NODES, Words};

// Copies the answer at a place of the store into out from a place on.
fn copy_answer(store: &[u16], place: usize, out: &mut [u16], to: usize)
    requires { (place + get_or store.now place 0 ≤ length store.now) × (1 ≤ get_or store.now place 0) ×
        (to + get_or store.now place 0 ≤ length out.old) }
    ensures { out.new ≡ sets out.old to
        (take (get_or store.now place 0) (drop place store.now)) }
{
    let end = place + store[place] as usize;
    copy_in(&store[place..end], out, to);
}

// State, store and plaque memory stay as they are.
pub fn collect(
    s: State,
    form: Form,
    node: u8,
    store: &[u16],
    plaques: &[u8],
    out: &mut [u16],
) -> Handout
    requires { unfit full (machine s store.now plaques.now) ≡ 0 }
    ensures { Collects full (collect form node (length out.old)) (machine s store.now plaques.now)
        result out.old out.new }
{
    let i = node_slot(node);
    if NODES <= i {
        return Handout::Refused(7);
    }
    let n = s.nodes[i];
    if n.answers == 0 {
        return Handout::Refused(14);
    }
    let held = s.held;
    let place = place_of(held, i);
    let words = store[place];
    if bears(form, node) {
        if out.len() < words as usize + 1 {
            return Handout::Refused(16);
        }
        out[0] = word(0xFF, node);
        copy_answer(store, place, out, 1);
        return Handout::Handed(Words(words + 1), n.handover);
    }
    if out.len() < words as usize {
        return Handout::Refused(16);
    }
    copy_answer(store, place, out, 0);
    Handout::Handed(Words(words), n.handover)
}
