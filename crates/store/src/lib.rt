// The answer store, changed: an answer joins its node's list, the oldest leaves it, all lists are emptied. Each keeps the layout: the
// nodes' answers one behind the other from the front, and zeros behind them.
#![tactic(auto)]

ghost use Rattle.std.specs.Prelude.{◌≡◌, map, ◌+◌, ◌≤◌, ◌<◌, length};
ghost use Rattle.meaning.specs.Bench.{full, node_count};
ghost use Rattle.machine.specs.Consistent.{counts};
ghost use Rattle.lists.specs.Room.{place_of};
ghost use Rattle.moves.specs.Moved.{inserted};
ghost use Rattle.store.specs.Swept.{swept_node, swept_words, swept_store, Takeable, Takes};

use lists::room::place_of;
use moves::{insert, remove};
use state::node::Node;
use units::{NODES, Words};

// What a command does to every node's list.
#[derive(Clone, Copy)]
pub enum Broom {
    Nothing,
    Clear,
    Reset,
}

// A node, swept.
#[tactic(auto, unfolding(crate::specs::Swept::swept_node))]
fn sweep(broom: Broom, n: Node) -> Node
    ensures { result ≡ swept_node broom n }
{
    match broom {
        Broom::Nothing => n,
        Broom::Clear => n.emptied(),
        Broom::Reset => n.reset(),
    }
}

// Every node, swept.
pub fn swept(broom: Broom, nodes: [Node; NODES]) -> [Node; NODES]
    ensures { result ≡ map (swept_node broom) nodes }
{
    nodes.map(|n| sweep(broom, n))
}

// The words that the nodes hold when they are swept.
#[tactic(auto, unfolding(crate::specs::Swept::swept_words))]
pub fn swept_words(broom: Broom, held: [Words; NODES]) -> [Words; NODES]
    ensures { result ≡ swept_words broom held }
{
    match broom {
        Broom::Nothing => held,
        Broom::Clear | Broom::Reset => [Words(0); NODES],
    }
}

// The words that were held become 0 where the lists are swept, so that the whole store is.
#[tactic(auto, unfolding(crate::specs::Swept::swept_store))]
pub fn sweep_store(broom: Broom, held: [Words; NODES], store: &mut [u16])
    requires { place_of (counts held) (node_count full) ≤ length store.old }
    ensures { store.new ≡ swept_store broom held store.old }
{
    match broom {
        Broom::Nothing => {}
        Broom::Clear | Broom::Reset => store[..place_of(held, NODES)].fill(0),
    }
}

// An answer that has room joins behind the last of the node at index i; what lies behind moves up.
#[tactic(auto, using(crate::proofs::Enlisting::place_ordered, state::proofs::Lists::length_mapped))]
pub fn join(held: [Words; NODES], i: usize, answer: &[u16], store: &mut [u16])
    requires { (i < node_count full) × (place_of (counts held) (node_count full) + length answer.now ≤ length store.old) }
    ensures { store.new ≡ inserted store.old (place_of (counts held) (i + 1))
        (place_of (counts held) (node_count full)) answer.now }
{
    let at = place_of(held, i + 1);
    let end = place_of(held, NODES);
    insert(store, at, end, answer);
}

// The node at which an answer was judged for room, and the words that all nodes hold; where it had none, both as they were.
#[derive(Clone, Copy)]
pub struct Enlisted {
    pub ok: bool,
    pub node: Node,
    pub held: [Words; NODES],
}

// The oldest answer of the node at index i leaves, which has one; what lies behind moves down, and the freed words become 0. The result is
// what the nodes then hold.
pub fn take(held: [Words; NODES], i: usize, store: &mut [u16]) -> [Words; NODES]
    requires { Takeable full held i store.old }
    ensures { Takes full held i store.old store.new result }
{
    let at = place_of(held, i);
    let end = place_of(held, NODES);
    let words = store[at];
    remove(store, at, end, words as usize);
    let mut left = held;
    left[i].0 -= words;
    left
}
