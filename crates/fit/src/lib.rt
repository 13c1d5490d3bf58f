// Refusals 1 and 2: what is lent has its lengths, and the state is consistent.
#![tactic(auto)]

ghost use Rattle.std.specs.Prelude.{◌≡◌, ◌<◌, drop, get_or};
ghost use Rattle.units.specs.Count.{every};
ghost use Rattle.meaning.specs.Bench.{full};
ghost use Rattle.state.specs.State.{fresh_reader};
ghost use Rattle.machine.specs.Machine.{machine};
ghost use Rattle.machine.specs.Consistent.{zeros, node_ok, plaque_ok, reading_ok, report_ok, reader_ok, name_ok, unfit};

use lists::line::lists_ok;
use state::node::Node;
use state::reader::{Plaque, Reader, Reading, Report};
use state::{Name, State};
use units::{Bytes, NODES, READERS, Words};

// Whether all bytes from an index on are 0.
fn all_zero(bytes: &[u8], from: usize) -> bool
    ensures { result ≡ zeros (drop from bytes.now) }
{
    let mut i = from;
    while i < bytes.len() {
        if bytes[i] != 0 {
            return false;
        }
        i += 1;
    }
    true
}

fn plaque_ok(p: Plaque) -> bool
    ensures { result ≡ plaque_ok full p }
{
    if p.present {
        if p.length.0 < 1 {
            return false;
        }
        return p.length.0 <= Bytes::REGION.0;
    }
    if p.length.0 != 0 {
        return false;
    }
    all_zero(&p.id, 0)
}

fn reading_ok(x: Reading, kept: bool) -> bool
    ensures { result ≡ reading_ok full x kept }
{
    let size = x.size.0;
    if size == 0 {
        if x.start != 0 {
            return false;
        }
        if x.delay != 0 {
            return false;
        }
        return !kept;
    }
    if Bytes::DATA.0 < size {
        return false;
    }
    if Bytes::REGION.0 - size < x.start {
        return false;
    }
    x.delay <= 60
}

fn report_ok(x: Report) -> bool
    ensures { result ≡ report_ok x }
{
    if x.kept {
        return true;
    }
    if !all_zero(&x.id, 0) {
        return false;
    }
    x.clock == 0
}

fn reader_ok(x: Reader) -> bool
    ensures { result ≡ reader_ok full x }
{
    let plaque = x.plaque;
    if !plaque_ok(plaque) {
        return false;
    }
    let reading = x.reading;
    let report = x.report;
    if !reading_ok(reading, report.kept) {
        return false;
    }
    report_ok(report)
}

// The reader at an index. (A call's result is known to have all its bytes; an element of an array is not.)
fn reader_of(readers: [Reader; READERS], i: usize) -> Reader
    requires { i < full.readers }
    ensures { result ≡ get_or readers i fresh_reader }
{
    readers[i]
}

pub fn readers_ok(readers: [Reader; READERS]) -> bool
    ensures { result ≡ every (reader_ok full) readers }
{
    let mut i: usize = 0;
    while i < READERS {
        if !reader_ok(reader_of(readers, i)) {
            return false;
        }
        i += 1;
    }
    true
}

// The other fields of a node may have any value.
fn nodes_ok(nodes: [Node; NODES]) -> bool
    ensures { result ≡ every node_ok nodes }
{
    let mut i: usize = 0;
    while i < NODES {
        let n = nodes[i];
        if n.handover < 1 {
            return false;
        }
        i += 1;
    }
    true
}

pub fn name_ok(x: Name) -> bool
    ensures { result ≡ name_ok x }
{
    let length = x.length.0;
    if Bytes::NAME.0 < length {
        return false;
    }
    all_zero(&x.bytes, length as usize)
}

// The number, or 0 where the call may go on.
pub fn unfit(s: State, store: &[u16], plaques: &[u8]) -> u8
    ensures { result ≡ unfit full (machine s store.now plaques.now) }
{
    if store.len() != Words::STORE.0 as usize {
        return 1;
    }
    if plaques.len() != Bytes::PLAQUES.0 as usize {
        return 1;
    }
    let nodes = s.nodes;
    let held = s.held;
    if !lists_ok(nodes, held, store) {
        return 2;
    }
    if !nodes_ok(nodes) {
        return 2;
    }
    let readers = s.readers;
    if !readers_ok(readers) {
        return 2;
    }
    let name = s.name;
    if !name_ok(name) {
        return 2;
    }
    0
}
