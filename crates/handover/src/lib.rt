// Answers acknowledged: at a list, and on a machine that is known to be consistent.
#![tactic(auto)]

ghost use Rattle.std.specs.Prelude.{◌≡◌};
ghost use Rattle.meaning.specs.Bench.{full};
ghost use Rattle.meaning.specs.Call.{acknowledge, step};
ghost use Rattle.machine.specs.Machine.{machine};
ghost use Rattle.machine.specs.Consistent.{unfit};
ghost use Rattle.promise.specs.Obeyed.{Makes};
ghost use Rattle.handover.specs.Handed.{Listable, Acknowledges};

use answers::refused;
use answers::slots::node_slot;
use promise::{Called, Reply};
use state::State;
use state::node::Node;
use store::take;
use units::{NODES, Words};

pub fn acknowledge(s: State, node: u8, number: u16, store: &mut [u16], plaques: &[u8]) -> Called
    requires { unfit full (machine s store.old plaques.now) ≡ 0 }
    ensures { Makes full (λ g. step full g (acknowledge node number)) s store.old plaques.now result
        store.new plaques.now }
{
    let i = node_slot(node);
    if NODES <= i {
        return refused(s, 7);
    }
    let own = s.nodes[i];
    let held = s.held;
    let r = acknowledged(i, own, held, number, store);
    let node = r.node;
    let less = r.held;
    let reply = r.reply;
    let mut t = s;
    t.nodes[i] = node;
    t.held = less;
    Called { reply, state: t }
}

// A node and the words that all nodes hold, after a call for its list; and what is said.
#[derive(Clone, Copy)]
pub struct Listed {
    pub node: Node,
    pub held: [Words; NODES],
    pub reply: Reply,
}

// An acknowledgement at the list of the node at index i.
pub fn acknowledged(
    i: usize,
    own: Node,
    held: [Words; NODES],
    number: u16,
    store: &mut [u16],
) -> Listed
    requires { Listable full i own held store.old }
    ensures { Acknowledges full number i own held store.old result store.new }
{
    if own.answers == 0 {
        return Listed {
            node: own,
            held,
            reply: Reply::Refused(14),
        };
    }
    if number != own.handover {
        return Listed {
            node: own,
            held,
            reply: Reply::Refused(15),
        };
    }
    let rest = take(held, i, store);
    Listed {
        node: own.taken(),
        held: rest,
        reply: Reply::Done,
    }
}
