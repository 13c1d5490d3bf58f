// A decided call is settled: room is judged, the answer joins its node's list, and what the call changed is handed back. Where it is
// refused, all is handed back as it was. The state stays where it lies: its owner takes the parts out and puts them back.
#![tactic(auto)]

ghost use Rattle.std.specs.Prelude.{ℕ, List};
ghost use Rattle.meaning.specs.Bench.{full};
ghost use Rattle.decided.specs.Decided as O;
ghost use Rattle.desk.specs.Ruled as D;
ghost use Rattle.settle.specs.Settled.{Seatable, Settles, Houseable, Houses, housing};

use answers::Verdict;
use decided::Decided;
use desk::Ruled;
use enlist::enlist;
use promise::Reply;
use state::Name;
use state::node::Node;
use state::reader::Reader;
use store::{Broom, swept};
use units::{NODES, READERS, Words};

// A reader's node, the words that all nodes hold, and the reader, after a call; and what is said.
#[derive(Clone, Copy)]
pub struct Seated {
    pub node: Node,
    pub held: [Words; NODES],
    pub reader: Reader,
    pub reply: Reply,
}

// A call decided at the reader of a node. Its region is altered by the caller, where an answer was queued.
pub fn seat(
    node: u8,
    own: Node,
    x: Reader,
    held: [Words; NODES],
    d: Decided,
    answer: &[u16],
    store: &mut [u16],
) -> Seated
    requires { ((memory : List ℕ) × Seatable full node own x held store.old memory) × O.Settles full node d answer.now }
    ensures { Settles full node own x held d answer.now store.old result store.new }
{
    let i = (node - 1) as usize;
    let verdict = d.verdict;
    match verdict {
        Verdict::Refused(k) => Seated {
            node: own,
            held,
            reader: x,
            reply: Reply::Refused(k),
        },
        Verdict::Due => {
            let n = d.words.0 as usize;
            let q = enlist(Broom::Nothing, held, i, own, &answer[..n], store);
            if !q.ok {
                return Seated {
                    node: own,
                    held,
                    reader: x,
                    reply: Reply::Refused(13),
                };
            }
            let after = q.node;
            let helds = q.held;
            let reader = d.after;
            Seated {
                node: after,
                held: helds,
                reader,
                reply: Reply::Queued,
            }
        }
    }
}

// All nodes, the words that they hold, and the gateway's name, after a call; and what is said.
#[derive(Clone, Copy)]
pub struct Housed {
    pub nodes: [Node; NODES],
    pub held: [Words; NODES],
    pub name: Name,
    pub reply: Reply,
}

// A call decided at the gateway's own node.
pub fn house(
    nodes: [Node; NODES],
    held: [Words; NODES],
    name: Name,
    d: Ruled,
    answer: &[u16],
    store: &mut [u16],
) -> Housed
    requires { Houseable full nodes held name store.old × D.Settles full d answer.now }
    ensures { Houses full (housing full d answer.now) nodes held name store.old result store.new }
{
    let verdict = d.verdict;
    match verdict {
        Verdict::Refused(k) => Housed {
            nodes,
            held,
            name,
            reply: Reply::Refused(k),
        },
        Verdict::Due => {
            let broom = d.broom;
            let mut ns = swept(broom, nodes);
            let own = ns[READERS];
            let n = d.words.0 as usize;
            let e = enlist(broom, held, READERS, own, &answer[..n], store);
            if !e.ok {
                return Housed {
                    nodes,
                    held,
                    name,
                    reply: Reply::Refused(13),
                };
            }
            let last = e.node;
            let helds = e.held;
            let title = d.name;
            ns[READERS] = last;
            Housed {
                nodes: ns,
                held: helds,
                name: title,
                reply: Reply::Queued,
            }
        }
    }
}
