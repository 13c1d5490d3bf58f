// The writer of command packets.
#![tactic(auto)]

ghost use Rattle.std.specs.Prelude.{◌≡◌, ◌++◌, ◌≤◌, length};
ghost use Rattle.std.proofs.lemmas.List.Edits.{sets};
ghost use Rattle.meaning.specs.Refusal.{refusal};
ghost use Rattle.meaning.specs.Bench.{full};
ghost use Rattle.meaning.specs.Packet.{overall};
ghost use Rattle.meaning.specs.Command.{headed_count, writer_doubts, write_refusal, command_body, command_words, write_command, command_output};

use command::{limit_refusal, unused_refusal, who_refusal};
use meaning::packet::{Command, Written};
use meaning::table::Row;
use packing::pack;
use parts::overall;
use rows::{carried, row_of};
use units::word::word;
use units::{Bytes, Form, Words};

// The words of a packet with so much data, word 00 counted.
#[tactic(auto, unfolding(meaning::specs::Command::headed_count))]
fn headed_count(form: Form, amount: Bytes) -> Words
    ensures { result.0 ≡ headed_count form amount.0 }
{
    let n = overall(amount).0;
    match form {
        Form::Register => Words(n),
        Form::Framed => Words(1 + n),
    }
}

// 7 to 11 and 16; 0 where the packet is written. The amount and the room are lengths of lent memory: once 9 is ruled out the amount is
// what the row says.
#[tactic(auto, using(meaning::proofs::Chain::doubts), unfolding(meaning::specs::Command::writer_doubts))]
fn row_refusal(row: Row, form: Form, m: Command, amount: usize, room: usize) -> u8
    ensures { result ≡ refusal (writer_doubts full row form m amount room) }
{
    let who = who_refusal(row, m);
    if who != 0 {
        return who;
    }
    let load = carried(row, m);
    if amount != load.0 as usize {
        return 9;
    }
    let limit = limit_refusal(row, m);
    if limit != 0 {
        return limit;
    }
    let unused = unused_refusal(row, m);
    if unused != 0 {
        return unused;
    }
    if room < headed_count(form, load).0 as usize {
        return 16;
    }
    0
}

#[tactic(auto, unfolding(meaning::specs::Command::write_refusal))]
fn write_refusal(form: Form, m: Command, amount: usize, room: usize) -> u8
    ensures { result ≡ write_refusal full form m amount room }
{
    row_refusal(row_of(m.command), form, m, amount, room)
}

// Words 01 to 06, then the data.
fn put_body(m: Command, bytes: &[u8], out: &mut [u16])
    requires bytes_in_bounds { overall (length bytes.now) ≤ length out.old }
    requires bytes_len_bound { length bytes.now ≤ 65535 }
    ensures { out.new ≡ sets out.old 0 (command_body m bytes.now) }
{
    out[0] = overall(Bytes(bytes.len() as u16)).0;
    out[1] = word(0xAA, m.command);
    out[2] = word(0, m.node);
    out[3] = m.word4;
    out[4] = m.start;
    out[5] = m.size;
    pack(bytes, &mut out[6..]);
}

// Word 00, where the form has it, and the others.
#[tactic(auto, unfolding(meaning::specs::Command::headed_count, meaning::specs::Command::command_words, meaning::specs::Command::headed))]
fn put_words(form: Form, m: Command, bytes: &[u8], out: &mut [u16])
    requires bytes_in_bounds { headed_count form (length bytes.now) ≤ length out.old }
    requires bytes_len_bound { length bytes.now ≤ 65535 }
    ensures { out.new ≡ sets out.old 0 (command_words form m bytes.now) }
{
    match form {
        Form::Register => {
            put_body(m, bytes, out);
        }
        Form::Framed => {
            out[0] = word(0xFF, m.node);
            put_body(m, bytes, &mut out[1..]);
        }
    }
}

// Writes the packet to the front of out; a refusal leaves out as it was, and so stay the words past the packet.
#[tactic(auto, unfolding(meaning::specs::Command::write_command, meaning::specs::Packet::written_count, meaning::specs::Command::command_output, meaning::specs::Packet::written_output))]
pub fn write_command(form: Form, m: Command, bytes: &[u8], out: &mut [u16]) -> Written
    ensures value { result ≡ write_command full form m bytes.now (length out.old) }
    ensures out_after { out.new ≡ command_output full form m bytes.now out.old }
{
    let n = write_refusal(form, m, bytes.len(), out.len());
    if n != 0 {
        return Written::Refused(n);
    }
    put_words(form, m, bytes, out);
    Written::Done(headed_count(form, Bytes(bytes.len() as u16)))
}
