// Converters between the layout with places, which was before request E8, and the one without gaps. They are no calls of a run.
#![tactic(auto)]

ghost use Rattle.std.specs.Prelude.{◌≡◌, ◌++◌, map, ◌≤◌, length, drop, replicate};
ghost use Rattle.meaning.specs.Bench.{full, node_count};
ghost use Rattle.state.specs.State.{fresh_node};
ghost use Rattle.machine.specs.Machine as N;
ghost use Rattle.machine.specs.Consistent.{counts};
ghost use Rattle.lists.specs.Room.{sum};
ghost use Rattle.placed.specs.Machine as P;
ghost use Rattle.placed.specs.State as PS;
ghost use Rattle.convert.specs.Convert.{EachInside, Few, runs_of, new_node, old_nodes};
ghost use Rattle.convert.specs.Promised.{ToNew, ToOld};

use fit::unfit;
use moves::copy_in;
use placed::fine::helds;
use placed::{Node as PlacedNode, Pending, State as PlacedState};
use state::State;
use state::node::Node;
use units::{NODES, Words};

// What a converter hands back: the number of the refusal, or 0, and the state in the other layout. With a number its lists are as a fresh
// state has them.
#[derive(Clone, Copy)]
pub struct Packed {
    pub state: State,
    pub refusal: u8,
}

#[derive(Clone, Copy)]
pub struct Placed {
    pub state: PlacedState,
    pub refusal: u8,
}

// Copies the words of all lists, node by node, to the front of out.
fn lay(nodes: [PlacedNode; NODES], store: &[u16], out: &mut [u16])
    requires { EachInside (length store.now) nodes × (length (runs_of store.now nodes) ≤ length out.old) }
    ensures { out.new ≡ runs_of store.now nodes ++ drop (length (runs_of store.now nodes)) out.old }
{
    let mut to = 0;
    for n in nodes {
        let place = n.list.place;
        let words = n.list.words.0 as usize;
        copy_in(&store[place..place + words], out, to);
        to += words;
    }
}

// Nodes with nothing pending.
fn silent() -> [Node; NODES]
    ensures { result ≡ replicate (node_count full) fresh_node }
{
    let node = Node {
        instance: 0,
        handover: 1,
        answers: 0,
    };
    [node; NODES]
}

fn without_places(nodes: [PlacedNode; NODES]) -> [Node; NODES]
    requires { Few nodes }
    ensures { result ≡ map new_node nodes }
{
    let mut ns = silent();
    let mut k: usize = 0;
    while k < NODES {
        let n = nodes[k];
        let list = n.list;
        let m = Node {
            instance: n.instance,
            handover: n.handover,
            answers: list.count as u16,
        };
        ns[k] = m;
        k += 1;
    }
    ns
}

// To the layout without gaps: the answers are packed, and the words behind them become 0.
pub fn to_new(s: PlacedState, store: &mut [u16], plaques: &[u8]) -> Packed
    ensures { ToNew full (P.machine s store.old plaques.now) result.refusal
        (N.machine result.state store.new plaques.now) }
{
    let refusal = placed::unfit(s, store, plaques);
    let name = s.name;
    let readers = s.readers;
    if refusal != 0 {
        let none = Words(0);
        let state = State {
            name,
            readers,
            nodes: silent(),
            held: [none; NODES],
        };
        return Packed { state, refusal };
    }
    let nodes = s.nodes;
    let mut out = [0u16; Words::STORE.0 as usize];
    lay(nodes, store, &mut out);
    copy_in(&out, store, 0);
    let state = State {
        name,
        readers,
        nodes: without_places(nodes),
        held: helds(nodes),
    };
    Packed { state, refusal: 0 }
}

// The same, with places.
fn silent_placed() -> [PlacedNode; NODES]
    ensures { result ≡ replicate (node_count full) PS.fresh_node }
{
    let list = Pending {
        count: 0,
        place: 0,
        words: Words(0),
    };
    let node = PlacedNode {
        instance: 0,
        handover: 1,
        list,
    };
    [node; NODES]
}

// Each list gets the place where its answers lie, 0 where it has none.
fn with_places(nodes: [Node; NODES], held: [Words; NODES]) -> [PlacedNode; NODES]
    requires { sum (counts held) ≤ full.store }
    ensures { result ≡ old_nodes 0 nodes held }
{
    let mut ns = silent_placed();
    let mut to: usize = 0;
    let mut k: usize = 0;
    while k < NODES {
        let n = nodes[k];
        let words = held[k];
        let mut place: usize = 0;
        if n.answers != 0 {
            place = to;
        }
        let pending = Pending {
            count: n.answers as usize,
            place,
            words,
        };
        let m = PlacedNode {
            instance: n.instance,
            handover: n.handover,
            list: pending,
        };
        ns[k] = m;
        to += words.0 as usize;
        k += 1;
    }
    ns
}

// To the layout with places: of the many that it allows, the one in which the store stays as it is.
pub fn to_old(s: State, store: &[u16], plaques: &[u8]) -> Placed
    ensures { ToOld full (N.machine s store.now plaques.now) result.refusal
        (P.machine result.state store.now plaques.now) }
{
    let refusal = unfit(s, store, plaques);
    let name = s.name;
    let readers = s.readers;
    if refusal != 0 {
        let state = PlacedState {
            name,
            readers,
            nodes: silent_placed(),
        };
        return Placed { state, refusal };
    }
    let nodes = s.nodes;
    let held = s.held;
    let state = PlacedState {
        name,
        readers,
        nodes: with_places(nodes, held),
    };
    Placed { state, refusal: 0 }
}
