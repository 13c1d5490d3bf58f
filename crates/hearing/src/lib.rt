// A run file heard: opened (module `opening`), and a record of it at a place, its plaque arrived or its command heard.
#![tactic(auto)]

pub mod opening;

ghost use Rattle.std.specs.Prelude.{◌≡◌, ◌+◌, ◌≤◌, length, drop};
ghost use Rattle.meaning.specs.Bench.{full};
ghost use Rattle.machine.specs.Machine.{machine, meaning};
ghost use Rattle.machine.specs.Consistent.{unfit};
ghost use Rattle.listing.specs.Records.{command_stamp};
ghost use Rattle.hearing.specs.Here.{longest, PlaqueHere, Arrives, CommandHere, Hears};

use command::judge_command;
use meaning::packet::Command;
use meaning::table::Kind;
use packing::pack;
use plaques::arrive;
use state::State;
use units::stamp::Stamp;
use units::{Bytes, Form, Words};

// A command record, heard: its stamp, and its packet judged.
#[derive(Clone, Copy)]
pub struct HeardCommand {
    pub stamp: Stamp,
    pub refusal: u8,
    pub kind: Kind,
    pub what: Command,
}

// The five stamp bytes of the record at a place.
fn stamp_at(file: &[u8], at: usize) -> Stamp
    requires { at + 5 ≤ length file.now }
    ensures { result ≡ command_stamp (drop at file.now) }
{
    Stamp {
        month: file[at],
        day: file[at + 1],
        hour: file[at + 2],
        minute: file[at + 3],
        second: file[at + 4],
    }
}

// The command record at a place: its packet is put into the lent words, and judged with its stamp.
pub fn hear(file: &[u8], at: usize, size: Words, words: &mut [u16]) -> HeardCommand
    requires { CommandHere file.now at size × (length words.old ≡ longest) }
    ensures { Hears file.now at size words.new result }
{
    let from = at + 5;
    let n = size.0 as usize;
    let end = from + size.bytes().0 as usize;
    pack(&file[from..end], words);
    let stamp = stamp_at(file, at);
    let j = judge_command(stamp, Form::Register, &words[..n]);
    let kind = j.kind;
    let what = j.what;
    HeardCommand {
        stamp,
        refusal: j.refusal,
        kind,
        what,
    }
}

// The plaque record at a place, arrived.
pub fn arrive_at(
    file: &[u8],
    at: usize,
    node: u8,
    size: Bytes,
    s: State,
    store: &[u16],
    plaques: &mut [u8],
) -> State
    requires plaque_here { PlaqueHere file.now at node size }
    requires plaques_value { unfit full (machine s store.now plaques.old) ≡ 0 }
    ensures { Arrives full (meaning full (machine s store.now plaques.old)) (drop at file.now)
        (machine result store.now plaques.new) }
{
    let id = at + 3;
    let from = at + 11;
    let end = from + size.0 as usize;
    let called = arrive(s, node, &file[id..from], &file[from..end], store, plaques);
    called.state
}
