// A command and a field check, on a machine that is known to be consistent: its own node's parts are taken out of the state, and put back.
#![tactic(auto)]

pub mod check;

ghost use Rattle.std.specs.Prelude.{◌<◌, ◌≡◌, set};
ghost use Rattle.meaning.specs.Bench.{full};
ghost use Rattle.meaning.specs.Call as S;
ghost use Rattle.machine.specs.Machine.{machine};
ghost use Rattle.machine.specs.Consistent.{unfit};
ghost use Rattle.promise.specs.Obeyed.{Makes};
ghost use Rattle.answers.specs.Ordered.{load_of, ordered, heeding};
ghost use Rattle.obey.specs.Taken.{Orderly, Heeded};

use acts::{governed, obeyed};
use answers::refused;
use command::{command_data, judge_command};
use meaning::packet::Command;
use meaning::table::Kind;
use promise::Called;
use settle::Seated;
use state::State;
use units::stamp::Stamp;
use units::{Form, HUB};

// What a call made of the parts of the reader at an index, put back.
fn seated(s: State, i: usize, r: Seated) -> Called
    requires { i < full.readers }
    ensures { result ≡ record {
      state = record {
        name = s.name;
        readers = set s.readers i r.reader;
        nodes = set s.nodes i r.node;
        held = r.held;
      };
      reply = r.reply;
    } }
{
    let mut u = s;
    let reader = r.reader;
    let node = r.node;
    let held = r.held;
    let reply = r.reply;
    u.readers[i] = reader;
    u.nodes[i] = node;
    u.held = held;
    Called { state: u, reply }
}

// A command for a reader, by its kind.
fn order(
    s: State,
    t: Stamp,
    kind: Kind,
    m: Command,
    words: &[u16],
    store: &mut [u16],
    plaques: &mut [u8],
) -> Called
    requires { Orderly full t kind m words.now (machine s store.old plaques.old) }
    ensures { Makes full (λ g. ordered full g t kind m (load_of full m words.now)) s store.old
        plaques.old result store.new plaques.new }
{
    let i = (m.node - 1) as usize;
    let own = s.nodes[i];
    let x = s.readers[i];
    let held = s.held;
    let r = obeyed(own, x, held, t, kind, m, words, store, plaques);
    seated(s, i, r)
}

// A command for the gateway itself, by its kind.
fn rule(
    s: State,
    t: Stamp,
    kind: Kind,
    m: Command,
    words: &[u16],
    store: &mut [u16],
    plaques: &[u8],
) -> Called
    requires { Heeded full t kind m words.now (machine s store.old plaques.now) }
    ensures { Makes full (λ g. heeding full g t kind (load_of full m words.now)) s store.old
        plaques.now result store.new plaques.now }
{
    let nodes = s.nodes;
    let held = s.held;
    let name = s.name;
    let r = governed(nodes, held, name, t, kind, m, words, store);
    let mut u = s;
    let ns = r.nodes;
    let hs = r.held;
    let title = r.name;
    let reply = r.reply;
    u.nodes = ns;
    u.held = hs;
    u.name = title;
    Called { state: u, reply }
}

// A packet that is accepted goes to the node of its word 03.
pub fn obey(
    s: State,
    t: Stamp,
    form: Form,
    words: &[u16],
    store: &mut [u16],
    plaques: &mut [u8],
) -> Called
    requires { unfit full (machine s store.old plaques.old) ≡ 0 }
    ensures { Makes full (λ g. S.step full g (S.command t form words.now)) s store.old plaques.old
        result store.new plaques.new }
{
    let j = judge_command(t, form, words);
    if j.refusal != 0 {
        return refused(s, j.refusal);
    }
    let kind = j.kind;
    let m = j.what;
    let data = command_data(words, form);
    if m.node == HUB {
        return rule(s, t, kind, m, data, store, plaques);
    }
    order(s, t, kind, m, data, store, plaques)
}
