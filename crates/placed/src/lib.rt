// The state as it was kept before the store had no gaps: each node's list has a place of its own, and its answers lie in the store from
// there on. Converters read and write it; no call does.
#![tactic(auto)]

pub mod fine;

ghost use Rattle.std.specs.Prelude.{◌≡◌};
ghost use Rattle.units.specs.Count.{every};
ghost use Rattle.meaning.specs.Bench.{full};
ghost use Rattle.placed.specs.Machine.{machine};
ghost use Rattle.placed.specs.Consistent.{node_ok, unfit};

use crate::fine::lists_ok;
use fit::{name_ok, readers_ok};
use state::Name;
use state::reader::Reader;
use units::{Bytes, NODES, READERS, Words};

// A node's answers lie in the store one behind the other: how many there are, where the oldest begins, and how many words they have
// together. Where there are none, all is 0.
#[derive(Clone, Copy)]
pub struct Pending {
    pub count: usize,
    pub place: usize,
    pub words: Words,
}

#[derive(Clone, Copy)]
pub struct Node {
    pub instance: u8,
    pub handover: u16,
    pub list: Pending,
}

// Readers are in node order; so are nodes, and the gateway's own is the last.
#[derive(Clone, Copy)]
pub struct State {
    pub name: Name,
    pub readers: [Reader; READERS],
    pub nodes: [Node; NODES],
}

// The other fields of a node may have any value.
fn nodes_ok(nodes: [Node; NODES]) -> bool
    ensures { result ≡ every node_ok nodes }
{
    let mut i: usize = 0;
    while i < NODES {
        let n = nodes[i];
        if n.handover < 1 {
            return false;
        }
        i += 1;
    }
    true
}

// The number, or 0 where the state and what is lent may be converted.
pub fn unfit(s: State, store: &[u16], plaques: &[u8]) -> u8
    ensures { result ≡ unfit full (machine s store.now plaques.now) }
{
    if store.len() != Words::STORE.0 as usize {
        return 1;
    }
    if plaques.len() != Bytes::PLAQUES.0 as usize {
        return 1;
    }
    let nodes = s.nodes;
    if !lists_ok(nodes, store) {
        return 2;
    }
    if !nodes_ok(nodes) {
        return 2;
    }
    let readers = s.readers;
    if !readers_ok(readers) {
        return 2;
    }
    let name = s.name;
    if !name_ok(name) {
        return 2;
    }
    0
}
