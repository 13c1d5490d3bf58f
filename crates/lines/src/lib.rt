// A line of the console, read to what it says. Any line, any buffers: nothing is asked of the caller.
#![tactic(auto)]

pub mod calls;

ghost use Rattle.std.specs.Prelude.{◌≡◌};
ghost use Rattle.std.proofs.lemmas.List.Edits.{sets};
ghost use Rattle.dialog.specs.Spoken.{spoken};
ghost use Rattle.lines.specs.Heard.{heard_of, call_said, Leaves, words_in, id_in, bytes_in};

use crate::calls::{
    read_acknowledge, read_arrive, read_check, read_collect, read_command, read_leave, read_store,
};
use fields::{Verb, read_field, verb_of};
use units::stamp::Stamp;
use units::{Bytes, Form, Words};

// What a line says; of a look at the store, the first word and how many. The words of a packet, an ID and a plaque's bytes stand in the
// buffers that were lent.
#[derive(Clone, Copy)]
pub enum Heard {
    Passed,
    Unreadable,
    Command {
        stamp: Stamp,
        form: Form,
        words: Words,
    },
    Check {
        node: u8,
        stamp: Stamp,
        clock: u32,
    },
    Arrive {
        node: u8,
        id: Bytes,
        bytes: Bytes,
    },
    Leave(u8),
    Collect(u8, Form),
    Acknowledge(u8, u16),
    Store(u16, u16),
}

// The most words of a packet, bytes of an ID and of a plaque that a line may say.
pub const MOST_WORDS: usize = 256;

pub const LONGEST_ID: Bytes = Bytes(16);

pub const LONGEST_PLAQUE: Bytes = Bytes(2047);

// The longest line that is looked into.
pub const LONGEST_LINE: usize = 4400;

// A line that is neither too long nor passed over, as the call of its first field.
fn read_call(line: &[u8], words: &mut [u16], id: &mut [u8], bytes: &mut [u8]) -> Option<Heard>
    ensures { Leaves (call_said line.now) result words.old words.new id.old id.new bytes.old bytes.new }
{
    let verb = read_field(line, 0);
    let at = verb.next;
    match verb_of(verb.value?)? {
        Verb::Command => read_command(line, at, words),
        Verb::Check => read_check(line, at),
        Verb::Arrive => read_arrive(line, at, id, bytes),
        Verb::Leave => read_leave(line, at),
        Verb::Collect => read_collect(line, at),
        Verb::Acknowledge => read_acknowledge(line, at),
        Verb::Store => read_store(line, at),
    }
}

// Puts the words, the ID and the bytes to the front of the buffers, as much as they have room for; the rest of them stays.
pub fn read_line(line: &[u8], words: &mut [u16], id: &mut [u8], bytes: &mut [u8]) -> Heard
    ensures value { result ≡ heard_of (spoken line.now) }
    ensures words_after { words.new ≡ sets words.old 0 (words_in (spoken line.now)) }
    ensures id_after { id.new ≡ sets id.old 0 (id_in (spoken line.now)) }
    ensures bytes_after { bytes.new ≡ sets bytes.old 0 (bytes_in (spoken line.now)) }
{
    if LONGEST_LINE < line.len() {
        return Heard::Unreadable;
    }
    if line.is_empty() || line[0] == b'#' {
        return Heard::Passed;
    }
    read_call(line, words, id, bytes).unwrap_or(Heard::Unreadable)
}
