// A command of the night, at its own node: obeyed, its answer's line written straight from the store, and the answer taken away. The state
// stays where it lies: its owner takes the parts out and puts them back.
#![tactic(auto)]

ghost use Rattle.std.specs.Prelude.{◌≡◌, ◌+◌, ◌≤◌, length};
ghost use Rattle.meaning.specs.Bench.{full, hub};
ghost use Rattle.settle.specs.Settled.{Seatable, Houseable};
ghost use Rattle.handover.specs.Handed.{Waits};
ghost use Rattle.asking.specs.Ask.{longest_line, Accepts, HandsOver, SeatPlays, HousePlays};

use acts::{governed, obeyed};
use command::command_data;
use listingout::put_refused;
use lists::room::place_of;
use meaning::packet::Command;
use meaning::table::Kind;
use promise::Reply;
use settle::{Housed, Seated};
use state::Name;
use state::node::Node;
use state::reader::Reader;
use store::take;
use units::stamp::Stamp;
use units::{Form, NODES, READERS, Words};
use wordsout::put_words;

// A node and the words that all nodes hold, without its oldest answer; and the place in the output after that answer's line.
#[derive(Clone, Copy)]
pub struct Handed {
    pub node: Node,
    pub held: [Words; NODES],
    pub at: usize,
}

// The oldest answer of the node at index i, which has one: its words written as a line, and taken away.
fn hand_over(
    i: usize,
    own: Node,
    held: [Words; NODES],
    store: &mut [u16],
    out: &mut [u8],
    to: usize,
) -> Handed
    requires { Waits full i own held store.old × (to + longest_line ≤ length out.old) }
    ensures { HandsOver full i own held store.old store.new out.old to out.new result }
{
    let place = place_of(held, i);
    let end = place + store[place] as usize;
    let at = put_words(out, to, &store[place..end]);
    let less = take(held, i, store);
    Handed {
        node: own.taken(),
        held: less,
        at,
    }
}

// The parts of a reader after a command, and the place in the output after its line.
#[derive(Clone, Copy)]
pub struct ReaderTurn {
    pub seat: Seated,
    pub at: usize,
}

// A command for a reader.
pub fn reader_turn(
    own: Node,
    x: Reader,
    held: [Words; NODES],
    t: Stamp,
    kind: Kind,
    m: Command,
    words: &[u16],
    store: &mut [u16],
    plaques: &mut [u8],
    out: &mut [u8],
    to: usize,
) -> ReaderTurn
    requires accepts { Accepts full t words.now kind m × Seatable full m.node own x held store.old plaques.old }
    requires longest_line_in_bounds { to + longest_line ≤ length out.old }
    ensures { SeatPlays full t words.now m.node own x held store.old plaques.old result
        store.new plaques.new out.old to out.new }
{
    let data = command_data(words, Form::Register);
    let seat = obeyed(own, x, held, t, kind, m, data, store, plaques);
    let reply = seat.reply;
    match reply {
        Reply::Refused(k) => {
            let at = put_refused(out, to, k);
            ReaderTurn { seat, at }
        }
        Reply::Queued => {
            let node = seat.node;
            let more = seat.held;
            let reader = seat.reader;
            let h = hand_over((m.node - 1) as usize, node, more, store, out, to);
            let after = h.node;
            let less = h.held;
            let left = Seated {
                node: after,
                held: less,
                reader,
                reply,
            };
            ReaderTurn {
                seat: left,
                at: h.at,
            }
        }
        // No command is said to be done or quiet.
        Reply::Done => ReaderTurn { seat, at: to },
        Reply::Quiet => ReaderTurn { seat, at: to },
    }
}

// The parts of the gateway after a command for its own node, and the place in the output after its line.
#[derive(Clone, Copy)]
pub struct HubTurn {
    pub house: Housed,
    pub at: usize,
}

// A command for the gateway itself.
pub fn hub_turn(
    nodes: [Node; NODES],
    held: [Words; NODES],
    name: Name,
    t: Stamp,
    kind: Kind,
    m: Command,
    words: &[u16],
    store: &mut [u16],
    out: &mut [u8],
    to: usize,
) -> HubTurn
    requires accepts { Accepts full t words.now kind m × (m.node ≡ hub) × Houseable full nodes held name store.old }
    requires longest_line_in_bounds { to + longest_line ≤ length out.old }
    ensures { HousePlays full t words.now nodes held name store.old result store.new out.old to
        out.new }
{
    let data = command_data(words, Form::Register);
    let house = governed(nodes, held, name, t, kind, m, data, store);
    let reply = house.reply;
    match reply {
        Reply::Refused(k) => {
            let at = put_refused(out, to, k);
            HubTurn { house, at }
        }
        Reply::Queued => {
            let mut ns = house.nodes;
            let own = ns[READERS];
            let more = house.held;
            let title = house.name;
            let h = hand_over(READERS, own, more, store, out, to);
            let after = h.node;
            let less = h.held;
            ns[READERS] = after;
            let left = Housed {
                nodes: ns,
                held: less,
                name: title,
                reply,
            };
            HubTurn {
                house: left,
                at: h.at,
            }
        }
        // No command is said to be done or quiet.
        Reply::Done => HubTurn { house, at: to },
        Reply::Quiet => HubTurn { house, at: to },
    }
}
