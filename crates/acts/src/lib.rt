// What its own node makes of a call, settled: on the parts of the state that the call may change, for a caller that owns the state and puts
// them back.
#![tactic(auto)]

ghost use Rattle.std.specs.Prelude.{◌≡◌, true};
ghost use Rattle.units.specs.Stamp.{is_stamp};
ghost use Rattle.meaning.specs.Bench.{full};
ghost use Rattle.answers.specs.Ordered.{load_of, Ready, ordered, heeding, looking};
ghost use Rattle.desk.specs.Ruled.{LimitedOf};
ghost use Rattle.settle.specs.Settled.{Seatable, Seats, Houseable, Houses};

use decided::alter;
use desk::govern;
use fieldcheck::{is_quiet, report};
use meaning::packet::Command;
use meaning::table::Kind;
use orders::serve;
use promise::Reply;
use settle::{Housed, Seated, house, seat};
use state::Name;
use state::node::Node;
use state::reader::Reader;
use units::stamp::Stamp;
use units::{Bytes, NODES, READERS, Words};

// An accepted command for a reader.
pub fn obeyed(
    own: Node,
    x: Reader,
    held: [Words; NODES],
    t: Stamp,
    kind: Kind,
    m: Command,
    words: &[u16],
    store: &mut [u16],
    plaques: &mut [u8],
) -> Seated
    requires { Seatable full m.node own x held store.old plaques.old × (is_stamp t ≡ true) × Ready full kind m words.now }
    ensures { Seats full (λ g. ordered full g t kind m (load_of full m words.now)) m.node own x held
        store.old plaques.old result store.new plaques.new }
{
    let from = (m.node - 1) as usize * Bytes::REGION.0 as usize;
    let to = from + Bytes::REGION.0 as usize;
    let mut answer = [0u16; Words::PACKET.0 as usize];
    let d = serve(
        own.instance,
        x,
        t,
        kind,
        m,
        words,
        &plaques[from..to],
        &mut answer,
    );
    let change = d.change;
    let r = seat(m.node, own, x, held, d, &answer, store);
    let reply = r.reply;
    if let Reply::Queued = reply {
        alter(change, words, &mut plaques[from..to]);
    }
    r
}

// A field check of a reader.
pub fn looked(
    node: u8,
    own: Node,
    x: Reader,
    held: [Words; NODES],
    t: Stamp,
    clock: u32,
    store: &mut [u16],
    plaques: &[u8],
) -> Seated
    requires { Seatable full node own x held store.old plaques.now × (is_stamp t ≡ true) }
    ensures { Seats full (λ g. looking full g node t clock) node own x held store.old plaques.now result
        store.new plaques.now }
{
    if is_quiet(x, clock) {
        return Seated {
            node: own,
            held,
            reader: x,
            reply: Reply::Quiet,
        };
    }
    let from = (node - 1) as usize * Bytes::REGION.0 as usize;
    let to = from + Bytes::REGION.0 as usize;
    let mut answer = [0u16; Words::PACKET.0 as usize];
    let d = report(
        own.instance,
        node,
        x,
        t,
        clock,
        &plaques[from..to],
        &mut answer,
    );
    seat(node, own, x, held, d, &answer, store)
}

// An accepted command for the gateway itself.
pub fn governed(
    nodes: [Node; NODES],
    held: [Words; NODES],
    name: Name,
    t: Stamp,
    kind: Kind,
    m: Command,
    words: &[u16],
    store: &mut [u16],
) -> Housed
    requires { Houseable full nodes held name store.old × (is_stamp t ≡ true) × LimitedOf full kind m words.now }
    ensures { Houses full (λ g. heeding full g t kind (load_of full m words.now)) nodes held name store.old result
        store.new }
{
    let own = nodes[READERS];
    let mut answer = [0u16; Words::PACKET.0 as usize];
    let d = govern(own.instance, name, t, kind, m, words, &mut answer);
    house(nodes, held, name, d, &answer, store)
}
