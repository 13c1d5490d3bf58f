// A line of the console that was aimed: played at its own list, at its reader or at the gateway. The state stays where it lies: its owner
// takes the parts out and puts them back.
#![tactic(auto)]

ghost use Rattle.std.specs.Prelude.{◌+◌, ◌≤◌, ◌≡◌, length, take};
ghost use Rattle.meaning.specs.Bench.{full, hub};
ghost use Rattle.meaning.specs.Call.{command, step};
ghost use Rattle.settle.specs.Settled.{Seatable, Seats, Houseable, Houses};
ghost use Rattle.handover.specs.Handed.{Listable};
ghost use Rattle.text.specs.Text.{Put};
ghost use Rattle.talk.specs.Parts.{asked, Orders, Asks, aside_line, Lies, Shows, TellsAt};
ghost use Rattle.dialog.specs.Dialog.{longest_answer};

use acts::{governed, looked, obeyed};
use aiming::{Aside, Ask, Order, Want};
use command::command_data;
use dialogout::{put_handed, put_said, put_store, put_unreadable};
use handover::acknowledged;
use listingout::put_refused;
use lists::room::place_of;
use plaques::{brought, left};
use settle::{Housed, Seated};
use state::Name;
use state::node::Node;
use state::reader::Reader;
use units::{Form, NODES, Words};

// What is no call, or a call that is refused by what it says: said, and nothing changes.
pub fn put_aside(out: &mut [u8], to: usize, aside: Aside, store: &[u16]) -> usize
    requires { (to + longest_answer ≤ length out.old) × Lies aside (length store.now) }
    ensures { Put out.old to (aside_line aside store.now) out.new result }
{
    match aside {
        Aside::Passed => to,
        Aside::Unreadable => put_unreadable(out, to),
        Aside::Refused(k) => put_refused(out, to, k),
        Aside::Look(first, count) => {
            let from = first as usize;
            let end = from + count as usize;
            put_store(out, to, &store[from..end])
        }
    }
}

// The oldest answer of the node at index i, in a form, straight from the store; or that there is none.
fn put_oldest(
    i: usize,
    node: u8,
    own: Node,
    held: [Words; NODES],
    form: Form,
    store: &[u16],
    out: &mut [u8],
    to: usize,
) -> usize
    requires { Listable full i own held store.now × (to + longest_answer ≤ length out.old) }
    ensures { Shows full form node i own held store.now out.old to out.new result }
{
    if own.answers == 0 {
        return put_refused(out, to, 14);
    }
    let place = place_of(held, i);
    let end = place + store[place] as usize;
    put_handed(out, to, own.handover, form, node, &store[place..end])
}

// A node and the words that all nodes hold, after a call for its list; and the place in the output after what was said.
#[derive(Clone, Copy)]
pub struct ListTold {
    pub node: Node,
    pub held: [Words; NODES],
    pub at: usize,
}

// A call for the list of a node, at index i, and its line.
pub fn at_list(
    i: usize,
    node: u8,
    own: Node,
    held: [Words; NODES],
    want: Want,
    store: &mut [u16],
    out: &mut [u8],
    to: usize,
) -> ListTold
    requires { Listable full i own held store.old × (to + longest_answer ≤ length out.old) }
    ensures { TellsAt full want node i own held store.old store.new out.old to out.new
        result }
{
    match want {
        Want::Collect(form) => {
            let at = put_oldest(i, node, own, held, form, store, out, to);
            ListTold {
                node: own,
                held,
                at,
            }
        }
        Want::Acknowledge(number) => {
            let r = acknowledged(i, own, held, number, store);
            let after = r.node;
            let less = r.held;
            let reply = r.reply;
            let at = put_said(out, to, reply);
            ListTold {
                node: after,
                held: less,
                at,
            }
        }
    }
}

// A call for a reader.
pub fn at_reader(
    node: u8,
    own: Node,
    x: Reader,
    held: [Words; NODES],
    ask: Ask,
    packet: &[u16],
    id: &[u8],
    content: &[u8],
    store: &mut [u16],
    plaques: &mut [u8],
) -> Seated
    requires { Asks full node ask packet.now id.now content.now × Seatable full node own x held store.old plaques.old }
    ensures { Seats full (λ g. step full g (asked node ask packet.now id.now content.now)) node
        own x held
        store.old plaques.old result store.new plaques.new }
{
    match ask {
        Ask::Command(order) => {
            let n = order.words.0 as usize;
            let form = order.form;
            let data = command_data(&packet[..n], form);
            let kind = order.kind;
            let what = order.what;
            let stamp = order.stamp;
            obeyed(own, x, held, stamp, kind, what, data, store, plaques)
        }
        Ask::Check { stamp, clock } => looked(node, own, x, held, stamp, clock, store, plaques),
        Ask::Arrive { id: i, bytes } => {
            let n = i.0 as usize;
            let k = bytes.0 as usize;
            brought(node, own, x, held, &id[..n], &content[..k], plaques)
        }
        Ask::Leave => left(own, x, held),
    }
}

// A command for the gateway itself.
pub fn at_hub(
    nodes: [Node; NODES],
    held: [Words; NODES],
    name: Name,
    order: Order,
    packet: &[u16],
    store: &mut [u16],
) -> Housed
    requires { Orders full packet.now order × (order.what.node ≡ hub) × Houseable full nodes held name store.old }
    ensures { Houses full (λ g. step full g (command order.stamp order.form (take order.words.0 packet.now)))
        nodes held
        name store.old result store.new }
{
    let n = order.words.0 as usize;
    let form = order.form;
    let data = command_data(&packet[..n], form);
    let kind = order.kind;
    let what = order.what;
    let stamp = order.stamp;
    governed(nodes, held, name, stamp, kind, what, data, store)
}
