// The console's lines played: those of an input on a machine that is known to be consistent, and a whole conversation with a fresh gateway.
#![tactic(auto)]

ghost use Rattle.std.specs.Prelude.{◌≡◌, ◌*◌, ◌≤◌, length};
ghost use Rattle.meaning.specs.Bench.{full};
ghost use Rattle.machine.specs.Machine.{machine};
ghost use Rattle.machine.specs.Consistent.{unfit};
ghost use Rattle.dialog.specs.Dialog.{lines_of, longest_answer};
ghost use Rattle.conversation.specs.Conversation.{Speaks, Converses};

use aiming::{Whom, aim};
use answers::slots::node_slot;
use dialogout::{LONGEST_ANSWER, put_said};
use gather::{count_lines, line_end};
use lines::{LONGEST_ID, LONGEST_PLAQUE, MOST_WORDS, read_line};
use state::State;
use talk::{at_hub, at_list, at_reader, put_aside};
use units::{Bytes, Words};

// The state after the lines, and the place in the output after their answers.
#[derive(Clone, Copy)]
pub struct Spoken {
    pub state: State,
    pub at: usize,
}

// The lines of an input, of which the last may lack its line feed; their answers stand at the front of the output. The state is a local of
// this loop: what a line may change is taken out of it, and put back.
pub fn speak(
    opened: State,
    input: &[u8],
    store: &mut [u16],
    plaques: &mut [u8],
    out: &mut [u8],
) -> Spoken
    requires plaques_value { unfit full (machine opened store.old plaques.old) ≡ 0 }
    requires longest_answer_in_bounds { length (lines_of input.now) * longest_answer ≤ length out.old }
    ensures { Speaks full (machine opened store.old plaques.old) input.now out.old
        out.new result.at
        (machine result.state store.new plaques.new) }
{
    let mut packet = [0u16; MOST_WORDS];
    let mut id = [0u8; LONGEST_ID.0 as usize];
    let mut content = [0u8; LONGEST_PLAQUE.0 as usize];
    let mut s = opened;
    let mut from = 0;
    let mut to = 0;
    while from < input.len() {
        let end = line_end(input, from);
        let heard = read_line(&input[from..end], &mut packet, &mut id, &mut content);
        from = end + 1;
        let words = &packet[..];
        let held = s.held;
        // Each way around ends its own turn.
        match aim(heard, words) {
            Whom::Nobody(aside) => {
                to = put_aside(out, to, aside, store);
                continue;
            }
            Whom::List(node, want) => {
                let i = node_slot(node);
                let own = s.nodes[i];
                let r = at_list(i, node, own, held, want, store, out, to);
                let after = r.node;
                let hs = r.held;
                s.nodes[i] = after;
                s.held = hs;
                to = r.at;
                continue;
            }
            Whom::Reader(node, ask) => {
                let i = (node - 1) as usize;
                let own = s.nodes[i];
                let x = s.readers[i];
                let r = at_reader(
                    node, own, x, held, ask, words, &id, &content, store, plaques,
                );
                let after = r.node;
                let hs = r.held;
                let reader = r.reader;
                let reply = r.reply;
                s.nodes[i] = after;
                s.held = hs;
                s.readers[i] = reader;
                to = put_said(out, to, reply);
                continue;
            }
            Whom::Gateway(order) => {
                let nodes = s.nodes;
                let name = s.name;
                let r = at_hub(nodes, held, name, order, words, store);
                let ns = r.nodes;
                let hs = r.held;
                let title = r.name;
                let reply = r.reply;
                s.nodes = ns;
                s.held = hs;
                s.name = title;
                to = put_said(out, to, reply);
                continue;
            }
        }
    }
    Spoken { state: s, at: to }
}

// What is written: its length, or that the output could be too short for it.
#[derive(Clone, Copy)]
pub enum Text {
    Written(usize),
    TooShort,
}

// The whole conversation with a fresh gateway, at the front of the output; what is past it stays.
pub fn converse(input: &[u8], out: &mut [u8]) -> Text
    ensures { Converses input.now out.old out.new result }
{
    if out.len() / LONGEST_ANSWER < count_lines(input) {
        return Text::TooShort;
    }
    let mut store = [0u16; Words::STORE.0 as usize];
    let mut plaques = [0u8; Bytes::PLAQUES.0 as usize];
    let s = state::fresh(&mut store);
    let r = speak(s, input, &mut store, &mut plaques, out);
    Text::Written(r.at)
}
