// Where a node stands in the state's arrays.
ghost use Rattle.std.specs.Prelude.{◌≡◌, cond, ◌-◌};
ghost use Rattle.meaning.specs.Bench.{full, is_reader, is_node, node_count};
ghost use Rattle.machine.specs.Machine.{node_slot};

use units::{HUB, LAST_READER, NODES, READERS};

// The index of a reader; past them all for what is no reader.
pub fn reader_slot(node: u8) -> usize
    ensures { result ≡ cond (is_reader full node) (node - 1) full.readers }
{
    if node < 1 {
        return READERS;
    }
    if LAST_READER < node {
        return READERS;
    }
    (node - 1) as usize
}

// The index of a node, the gateway last; past them all for what is no node.
pub fn node_slot(node: u8) -> usize
    ensures { result ≡ cond (is_node full node) (node_slot full node) (node_count full) }
{
    if node == HUB {
        return READERS;
    }
    if node < 1 {
        return NODES;
    }
    if LAST_READER < node {
        return NODES;
    }
    (node - 1) as usize
}
