// Whether the pending lists are as a consistent state has them.
ghost use Rattle.std.specs.Prelude.{◌≡◌, ◌<◌, drop};
ghost use Rattle.meaning.specs.Bench.{full, node_count};
ghost use Rattle.machine.specs.Consistent.{counts, node_at, zeros, bounded, lists_ok};
ghost use Rattle.lists.specs.Line.{ok_answer, in_line};

use crate::room::charges;
use meaning::packet::ResponseRead;
use response::judge_response;
use state::node::Node;
use units::{Form, HUB, NODES, READERS, Words};

// The node at an index of the nodes.
pub fn node_at(i: usize) -> u8
    requires { i < node_count full }
    ensures { result ≡ node_at full i }
{
    if i < READERS {
        return (i + 1) as u8;
    }
    HUB
}

// Whether a response of the node at index i lies at a place of the store.
pub fn answer_ok(store: &[u16], i: usize, place: usize) -> bool
    requires { i < node_count full }
    ensures { result ≡ ok_answer full i (drop place store.now) }
{
    if store.len() <= place {
        return false;
    }
    let len = store[place] as usize;
    if store.len() - place < len {
        return false;
    }
    let end = place + len;
    match judge_response(&store[place..end], Form::Register) {
        ResponseRead::Accepted(r, _) => r.node == node_at(i),
        ResponseRead::Refused(_) => false,
    }
}

// Whether every word from a place on is 0.
fn all_zero(store: &[u16], place: usize) -> bool
    ensures { result ≡ zeros (drop place store.now) }
{
    let mut w = place;
    while w < store.len() {
        if store[w] != 0 {
            return false;
        }
        w += 1;
    }
    true
}

// Whether the nodes' answers stand one behind the other from the front, each a response of its node, as many words as are counted, and
// nothing but zeros behind them.
fn in_line(nodes: [Node; NODES], held: [Words; NODES], store: &[u16]) -> bool
    ensures { result ≡ in_line full 0 store.now nodes (counts held) }
{
    let mut fine = true;
    let mut place: usize = 0;
    let mut i: usize = 0;
    'nodes: while i < NODES {
        let n = nodes[i];
        let from = place;
        let mut k: u16 = 0;
        while k < n.answers {
            if !answer_ok(store, i, place) {
                fine = false;
                break 'nodes;
            }
            place += store[place] as usize;
            k += 1;
        }
        let h = held[i];
        if h.0 as usize != place - from {
            fine = false;
            break 'nodes;
        }
        i += 1;
    }
    if !fine {
        return false;
    }
    all_zero(store, place)
}

// Whether the held words meet both bounds.
pub fn bounds_met(hs: [Words; NODES]) -> bool
    ensures { result ≡ bounded full (counts hs) }
{
    let mut i: usize = 0;
    while i < NODES {
        let h = hs[i];
        if Words::LIMIT.0 < h.0 {
            return false;
        }
        i += 1;
    }
    charges(hs).0 <= Words::STORE.0
}

// Whether the pending lists are as a consistent state has them.
pub fn lists_ok(nodes: [Node; NODES], held: [Words; NODES], store: &[u16]) -> bool
    ensures { result ≡ lists_ok full store.now nodes held }
{
    if !in_line(nodes, held, store) {
        return false;
    }
    bounds_met(held)
}
