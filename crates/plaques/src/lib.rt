// Plaques that arrive and leave, on a machine that is known to be consistent.
#![tactic(auto)]

ghost use Rattle.std.specs.Prelude.{◌≡◌, true, List, ℕ, ◌+◌, ◌*◌, ◌≤◌, length};
ghost use Rattle.std.proofs.Math.Seq.{paste};
ghost use Rattle.meaning.specs.Bench.{full, is_reader};
ghost use Rattle.meaning.specs.Call.{leave, arrive, judged, step};
ghost use Rattle.machine.specs.Machine.{machine};
ghost use Rattle.machine.specs.Consistent.{unfit};
ghost use Rattle.promise.specs.Obeyed.{Makes};
ghost use Rattle.settle.specs.Settled.{Seats};

use answers::refused;
use answers::slots::reader_slot;
use promise::{Called, Reply};
use settle::Seated;
use state::State;
use state::node::Node;
use state::reader::Reader;
use units::{Bytes, NODES, READERS, Words};

// Copies all of src into dst from a place on.
pub fn copy_bytes(src: &[u8], dst: &mut [u8], to: usize)
    requires { to + length src.now ≤ length dst.old }
    ensures { dst.new ≡ paste dst.old to src.now (length src.now) }
{
    dst[to..to + src.len()].copy_from_slice(src);
}

// A plaque leaves, on the parts of its reader.
pub fn left(own: Node, x: Reader, held: [Words; NODES]) -> Seated
    ensures { (n : ℕ) (store memory : List ℕ) → is_reader full n ≡ true
        → Seats full (λ g. step full g (leave n)) n own x held store memory result store memory }
{
    let plaque = x.plaque;
    if !plaque.present {
        return Seated {
            node: own,
            held,
            reader: x,
            reply: Reply::Refused(14),
        };
    }
    let y = x.left();
    Seated {
        node: own,
        held,
        reader: y,
        reply: Reply::Done,
    }
}

// A plaque that is within its limits arrives, on the parts of its reader.
pub fn brought(
    node: u8,
    own: Node,
    x: Reader,
    held: [Words; NODES],
    id: &[u8],
    bytes: &[u8],
    plaques: &mut [u8],
) -> Seated
    requires { (judged full (arrive node id.now bytes.now) ≡ 0) × (length plaques.old ≡ full.readers * full.region) }
    ensures { (store : List ℕ) → Seats full (λ g. step full g (arrive node id.now bytes.now)) node own x
        held store
        plaques.old result store plaques.new }
{
    let i = (node - 1) as usize;
    let id = <[u8; 8]>::try_from(id).unwrap();
    let y = x.arrived(id, Bytes(bytes.len() as u16));
    copy_bytes(bytes, plaques, i * Bytes::REGION.0 as usize);
    Seated {
        node: own,
        held,
        reader: y,
        reply: Reply::Done,
    }
}

pub fn leave(s: State, node: u8, store: &[u16], plaques: &[u8]) -> Called
    requires { unfit full (machine s store.now plaques.now) ≡ 0 }
    ensures { Makes full (λ g. step full g (leave node)) s store.now plaques.now result store.now
        plaques.now }
{
    let i = reader_slot(node);
    if READERS <= i {
        return refused(s, 7);
    }
    let x = s.readers[i];
    let plaque = x.plaque;
    if !plaque.present {
        return refused(s, 14);
    }
    let mut t = s;
    let y = x.left();
    t.readers[i] = y;
    Called {
        reply: Reply::Done,
        state: t,
    }
}

pub fn arrive(
    s: State,
    node: u8,
    id: &[u8],
    bytes: &[u8],
    store: &[u16],
    plaques: &mut [u8],
) -> Called
    requires { unfit full (machine s store.now plaques.old) ≡ 0 }
    ensures { Makes full (λ g. step full g (arrive node id.now bytes.now)) s store.now
        plaques.old result store.now plaques.new }
{
    let i = reader_slot(node);
    if READERS <= i {
        return refused(s, 7);
    }
    if id.len() != Bytes::ID.0 as usize {
        return refused(s, 9);
    }
    if bytes.len() < 1 {
        return refused(s, 10);
    }
    if (Bytes::REGION.0 as usize) < bytes.len() {
        return refused(s, 10);
    }
    let x = s.readers[i];
    let id = <[u8; 8]>::try_from(id).unwrap();
    let y = x.arrived(id, Bytes(bytes.len() as u16));
    copy_bytes(bytes, plaques, i * Bytes::REGION.0 as usize);
    let mut t = s;
    t.readers[i] = y;
    Called {
        reply: Reply::Done,
        state: t,
    }
}
