// An answer enlisted: room judged and the answer joined to its list, in one place.
#![tactic(auto)]

ghost use Rattle.std.specs.Prelude.{length};
ghost use Rattle.meaning.specs.Bench.{full};
ghost use Rattle.store.specs.Swept.{Enlistable, Enlists};

use lists::room::has_room;
use state::node::Node;
use store::{Broom, Enlisted, join, sweep_store, swept_words};
use units::{NODES, Words};

// Lists are swept where a command says so, room is judged, and the answer joins the list of the node at index i. `own` is that node after
// the sweep. Where there is no room nothing changes.
pub fn enlist(
    broom: Broom,
    held: [Words; NODES],
    i: usize,
    own: Node,
    answer: &[u16],
    store: &mut [u16],
) -> Enlisted
    requires { Enlistable full held i own (length answer.now) (length store.old) }
    ensures { Enlists full broom held i own answer.now store.old store.new result }
{
    let mut hs = swept_words(broom, held);
    let words = answer.len() as u16;
    if !has_room(hs, i, Words(words)) {
        return Enlisted {
            ok: false,
            node: own,
            held,
        };
    }
    sweep_store(broom, held, store);
    join(hs, i, answer, store);
    let h = hs[i];
    hs[i] = Words(h.0 + words);
    Enlisted {
        ok: true,
        node: own.joined(),
        held: hs,
    }
}
