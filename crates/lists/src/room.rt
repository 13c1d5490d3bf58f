// Charges and room, and the place where a node's answers begin: all by the words that the nodes hold.
ghost use Rattle.std.specs.Prelude.{◌≡◌, true, ℕ, ◌≤◌, ◌<◌, get_or};
ghost use Rattle.meaning.specs.Bench.{full, node_count};
ghost use Rattle.machine.specs.Consistent.{counts, charges_of, bounded};
ghost use Rattle.lists.specs.Room.{place_of, room_for};

use units::{NODES, Words};

// Where the answers of the node at index i begin: behind the words of the nodes before it. (The one at 17 is where the store is free.)
pub fn place_of(held: [Words; NODES], i: usize) -> usize
    requires { i ≤ node_count full }
    ensures { result ≡ place_of (counts held) i }
{
    let mut sum: usize = 0;
    let mut k: usize = 0;
    while k < i {
        let h = held[k];
        sum += h.0 as usize;
        k += 1;
    }
    sum
}

// The charges of all nodes, added up, where no node holds more than it may.
pub fn charges(hs: [Words; NODES]) -> Words
    requires { (i : ℕ) → i < node_count full → get_or (counts hs) i 0 ≤ full.limit }
    ensures { result.0 ≡ charges_of full.share (counts hs) }
{
    let mut sum: u16 = 0;
    let mut i: usize = 0;
    while i < NODES {
        let h = hs[i];
        sum += h.charge().0;
        i += 1;
    }
    Words(sum)
}

// Whether an answer of `new` words has room at the node of index i.
pub fn has_room(held: [Words; NODES], i: usize, new: Words) -> bool
    requires { (bounded full (counts held) ≡ true) × (i < node_count full) }
    ensures { result ≡ room_for full (counts held) i new.0 }
{
    let mut hs = held;
    let h = hs[i];
    if Words::LIMIT.0 - h.0 < new.0 {
        return false;
    }
    hs[i] = Words(h.0 + new.0);
    charges(hs).0 <= Words::STORE.0
}
