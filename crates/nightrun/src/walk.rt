// The walk over the commands of a run file that was opened: a line for each.
ghost use Rattle.std.specs.Prelude.{◌≡◌, length};
ghost use Rattle.meaning.specs.Bench.{full};
ghost use Rattle.machine.specs.Machine.{machine, meaning};
ghost use Rattle.machine.specs.Consistent.{unfit};
ghost use Rattle.nightrun.specs.Walk.{Ready, Plays};

use asking::{hub_turn, reader_turn};
use hearing::hear;
use hearing::opening::Walk;
use listingout::{put_broken, put_refused};
use runfile::read_command;
use state::State;
use units::{HUB, Words};

// The commands, a line each. The state is a local of this loop: what a command may change is taken out of it, and put back.
pub fn play(
    file: &[u8],
    begun: Walk,
    opened: State,
    store: &mut [u16],
    plaques: &mut [u8],
    out: &mut [u8],
    start: usize,
) -> usize
    requires ready { Ready (length file.now) begun (length out.old) start }
    requires plaques_value { unfit full (machine opened store.old plaques.old) ≡ 0 }
    ensures { Plays full file.now begun (meaning full (machine opened store.old plaques.old))
        out.old start out.new result }
{
    let mut packet = [0u16; Words::PACKET.0 as usize];
    let mut s = opened;
    let mut at = begun.at;
    let mut to = start;
    for _ in 0..begun.left {
        let Some(size) = read_command(file, at) else {
            return put_broken(out, to);
        };
        let h = hear(file, at, size, &mut packet);
        at = at + 5 + size.bytes().0 as usize;
        if h.refusal != 0 {
            to = put_refused(out, to, h.refusal);
            continue;
        }
        let words = &packet[..size.0 as usize];
        let kind = h.kind;
        let m = h.what;
        let held = s.held;
        if m.node == HUB {
            let nodes = s.nodes;
            let name = s.name;
            let r = hub_turn(nodes, held, name, h.stamp, kind, m, words, store, out, to);
            let ns = r.house.nodes;
            let hs = r.house.held;
            let title = r.house.name;
            s.nodes = ns;
            s.held = hs;
            s.name = title;
            to = r.at;
            continue;
        }
        let i = (m.node - 1) as usize;
        let own = s.nodes[i];
        let x = s.readers[i];
        let r = reader_turn(
            own, x, held, h.stamp, kind, m, words, store, plaques, out, to,
        );
        let node = r.seat.node;
        let hs = r.seat.held;
        let reader = r.seat.reader;
        s.nodes[i] = node;
        s.held = hs;
        s.readers[i] = reader;
        to = r.at;
    }
    if at != file.len() {
        return put_broken(out, to);
    }
    to
}
