// Whom a line is for, by what it says alone: a call is judged (3 to 11), and goes to its own list, its reader, or the gateway itself.
#![tactic(auto)]

ghost use Rattle.std.specs.Prelude.{◌≡◌, List, ℕ, ◌≤◌, length};
ghost use Rattle.meaning.specs.Bench.{full, is_reader};
ghost use Rattle.lines.specs.declared.Heard.{Heard};
ghost use Rattle.aiming.specs.Aim.{Fits, aimed};

use command::judge_command;
use lines::Heard;
use meaning::packet::Command;
use meaning::table::Kind;
use parts::is_node;
use units::stamp::Stamp;
use units::{Bytes, Form, Words};

// No call, or one that is refused by what it says.
#[derive(Clone, Copy)]
pub enum Aside {
    Passed,
    Unreadable,
    Refused(u8),
    Look(u16, u16),
}

// A call for a list.
#[derive(Clone, Copy)]
pub enum Want {
    Collect(Form),
    Acknowledge(u16),
}

// An accepted command packet: its words stand in a buffer.
#[derive(Clone, Copy)]
pub struct Order {
    pub stamp: Stamp,
    pub form: Form,
    pub words: Words,
    pub kind: Kind,
    pub what: Command,
}

// A call for a reader: a packet's words, an ID and a plaque's bytes stand in buffers.
#[derive(Clone, Copy)]
pub enum Ask {
    Command(Order),
    Check { stamp: Stamp, clock: u32 },
    Arrive { id: Bytes, bytes: Bytes },
    Leave,
}

#[derive(Clone, Copy)]
pub enum Whom {
    Nobody(Aside),
    List(u8, Want),
    Reader(u8, Ask),
    Gateway(Order),
}

fn is_reader(node: u8) -> bool
    ensures { result ≡ is_reader full node }
{
    match node {
        1..=16 => true,
        _ => false,
    }
}

fn refused(number: u8) -> Whom
    ensures { result ≡ Whom.Nobody (Aside.Refused number) }
{
    Whom::Nobody(Aside::Refused(number))
}

fn aim_command(stamp: Stamp, form: Form, words: Words, packet: &[u16]) -> Whom
    requires { words.0 ≤ length packet.now }
    ensures { result ≡ aimed full (Heard.Command stamp form words) packet.now }
{
    let n = words.0 as usize;
    let j = judge_command(stamp, form, &packet[..n]);
    if j.refusal != 0 {
        return refused(j.refusal);
    }
    let kind = j.kind;
    let what = j.what;
    let order = Order {
        stamp,
        form,
        words,
        kind,
        what,
    };
    if what.node == 32 {
        return Whom::Gateway(order);
    }
    Whom::Reader(what.node, Ask::Command(order))
}

fn aim_check(node: u8, stamp: Stamp, clock: u32) -> Whom
    ensures { (ws : List ℕ) → result ≡ aimed full (Heard.Check node stamp clock) ws }
{
    if !stamp.is_valid() {
        return refused(3);
    }
    if !is_reader(node) {
        return refused(7);
    }
    Whom::Reader(node, Ask::Check { stamp, clock })
}

fn aim_arrive(node: u8, id: Bytes, bytes: Bytes) -> Whom
    ensures { (ws : List ℕ) → result ≡ aimed full (Heard.Arrive node id bytes) ws }
{
    if !is_reader(node) {
        return refused(7);
    }
    if id.0 != Bytes::ID.0 {
        return refused(9);
    }
    if bytes.0 < 1 {
        return refused(10);
    }
    if Bytes::REGION.0 < bytes.0 {
        return refused(10);
    }
    Whom::Reader(node, Ask::Arrive { id, bytes })
}

pub fn aim(heard: Heard, packet: &[u16]) -> Whom
    requires { Fits heard (length packet.now) }
    ensures { result ≡ aimed full heard packet.now }
{
    match heard {
        Heard::Passed => Whom::Nobody(Aside::Passed),
        Heard::Unreadable => Whom::Nobody(Aside::Unreadable),
        Heard::Store(first, count) => Whom::Nobody(Aside::Look(first, count)),
        Heard::Command { stamp, form, words } => aim_command(stamp, form, words, packet),
        Heard::Check { node, stamp, clock } => aim_check(node, stamp, clock),
        Heard::Arrive { node, id, bytes } => aim_arrive(node, id, bytes),
        Heard::Leave(node) => {
            if !is_reader(node) {
                return refused(7);
            }
            Whom::Reader(node, Ask::Leave)
        }
        Heard::Collect(node, form) => {
            if !is_node(node) {
                return refused(7);
            }
            Whom::List(node, Want::Collect(form))
        }
        Heard::Acknowledge(node, number) => {
            if !is_node(node) {
                return refused(7);
            }
            Whom::List(node, Want::Acknowledge(number))
        }
    }
}
