// Whether pending lists with places are as a consistent state has them.
ghost use Rattle.std.specs.Prelude.{◌≡◌, ◌⊎◌, true, false, ◌+◌, ◌≤◌, eqb, length};
ghost use Rattle.units.specs.Count.{every};
ghost use Rattle.meaning.specs.Bench.{full};
ghost use Rattle.meaning.specs.Room.{added};
ghost use Rattle.machine.specs.Consistent.{counts};
ghost use Rattle.placed.specs.Machine.{pending_of};
ghost use Rattle.placed.specs.Consistent.{fine_lists, count_right, list_clear, lists_ok};
ghost use Rattle.placed.specs.Walked.{InStore, words_of};
ghost use Rattle.placed.specs.Marks.{Marked, Free, MarkWithin};

use crate::{Node, Pending};
use lists::line::{answer_ok, bounds_met};
use units::{NODES, Words};

const STORE: usize = Words::STORE.0 as usize;

// Whether no word of an answer is marked.
fn all_free(used: &[bool; STORE], place: usize, len: usize) -> bool
    requires { place + len ≤ full.store }
    ensures { ((result ≡ true) × Free used.now place len) ⊎ ((result ≡ false) × MarkWithin used.now place len) }
{
    let end = place + len;
    let mut w = place;
    while w < end {
        if used[w] {
            return false;
        }
        w += 1;
    }
    true
}

fn mark(used: &mut [bool; STORE], place: usize, len: usize)
    requires { (place + len ≤ full.store) × (length used.old ≡ full.store) }
    ensures { Marked used.old used.new place len }
{
    let end = place + len;
    let mut w = place;
    while w < end {
        used[w] = true;
        w += 1;
    }
}

// Whether every answer is in order and no two share a word. A word is marked when an answer has it.
fn fine_lists(nodes: [Node; NODES], store: &[u16]) -> bool
    requires { length store.now ≡ full.store }
    ensures { result ≡ fine_lists full store.now nodes }
{
    let mut used = [false; STORE];
    let mut fine = true;
    let mut i: usize = 0;
    'nodes: while i < NODES {
        let n = nodes[i];
        let list = n.list;
        let count = list.count;
        let mut place = list.place;
        let mut k: usize = 0;
        while k < count {
            if !answer_ok(store, i, place) {
                fine = false;
                break 'nodes;
            }
            let len = store[place] as usize;
            if !all_free(&used, place, len) {
                fine = false;
                break 'nodes;
            }
            mark(&mut used, place, len);
            place += len;
            k += 1;
        }
        i += 1;
    }
    fine
}

// Whether the words of a list are as many as it says. Its answers are in order.
fn is_counted(list: Pending, i: usize, store: &[u16]) -> bool
    requires in_store { InStore full store.now i list }
    requires store_len { length store.now ≡ full.store }
    ensures { result ≡ eqb list.words.0 (added (pending_of store.now list)) }
{
    let count = list.count;
    let mut sum: usize = 0;
    let mut k: usize = 0;
    while k < count {
        let place = list.place + sum;
        sum += store[place] as usize;
        k += 1;
    }
    list.words.0 as usize == sum
}

fn all_counted(nodes: [Node; NODES], store: &[u16]) -> bool
    requires { (length store.now ≡ full.store) × (fine_lists full store.now nodes ≡ true) }
    ensures { result ≡ every (count_right store.now) nodes }
{
    let mut i: usize = 0;
    while i < NODES {
        let n = nodes[i];
        let list = n.list;
        if !is_counted(list, i, store) {
            return false;
        }
        i += 1;
    }
    true
}

// The words that the lists count.
pub fn helds(nodes: [Node; NODES]) -> [Words; NODES]
    ensures { counts result ≡ words_of nodes }
{
    let zero = Words(0);
    let mut hs = [zero; NODES];
    let mut i: usize = 0;
    while i < NODES {
        let n = nodes[i];
        let list = n.list;
        let h = list.words;
        hs[i] = h;
        i += 1;
    }
    hs
}

// Whether the lists that have no answer have no place.
fn lists_clear(nodes: [Node; NODES]) -> bool
    ensures { result ≡ every list_clear nodes }
{
    let mut i: usize = 0;
    while i < NODES {
        let n = nodes[i];
        let list = n.list;
        if list.count == 0 && list.place != 0 {
            return false;
        }
        i += 1;
    }
    true
}

// Whether the pending lists are as a consistent state has them.
pub fn lists_ok(nodes: [Node; NODES], store: &[u16]) -> bool
    requires { length store.now ≡ full.store }
    ensures { result ≡ lists_ok full store.now nodes }
{
    if !fine_lists(nodes, store) {
        return false;
    }
    if !all_counted(nodes, store) {
        return false;
    }
    if !bounds_met(helds(nodes)) {
        return false;
    }
    lists_clear(nodes)
}
