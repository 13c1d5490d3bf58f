// The writer of response packets.
#![tactic(auto)]

ghost use Rattle.std.specs.Prelude.{◌≡◌, ◌++◌, ◌≤◌, length};
ghost use Rattle.std.proofs.lemmas.List.Edits.{sets};
ghost use Rattle.meaning.specs.Bench.{full};
ghost use Rattle.meaning.specs.Packet.{overall};
ghost use Rattle.meaning.specs.Response.{mark_of, bears, shown_count, amount_wrong, respond_refusal, response_body, response_words};
ghost use Rattle.meaning.specs.Response.{write_response, response_output};

use meaning::packet::{Response, Written};
use packing::pack;
use parts::{is_node, overall};
use units::word::word;
use units::{Bytes, Form, Words};

// Framed responses of node 1 have no word 00, those of every other node have it.
#[tactic(auto, unfolding(meaning::specs::Response::bears))]
pub fn bears(form: Form, node: u8) -> bool
    ensures { result ≡ bears form node }
{
    match form {
        Form::Register => false,
        Form::Framed => node != 1,
    }
}

// The words of a packet with so much data, word 00 counted.
#[tactic(auto, unfolding(meaning::specs::Response::shown_count))]
fn shown_count(form: Form, node: u8, amount: Bytes) -> Words
    ensures { result.0 ≡ shown_count form node amount.0 }
{
    let n = overall(amount).0;
    if bears(form, node) {
        Words(1 + n)
    } else {
        Words(n)
    }
}

// 10
#[tactic(auto, unfolding(meaning::specs::Response::amount_wrong))]
fn amount_wrong(error: bool, amount: usize) -> bool
    ensures { result ≡ amount_wrong error amount }
{
    if (Bytes::DATA.0 as usize) < amount {
        return true;
    }
    if error { amount != 1 } else { false }
}

// 3, 7, 10 and 16; 0 where the packet is written. The amount and the room are lengths of lent memory: a count only once 10 is ruled out.
#[tactic(auto, using(meaning::proofs::Chain::doubts), unfolding(meaning::specs::Response::amount_wrong, meaning::specs::Response::respond_refusal, meaning::specs::Response::responder_doubts))]
fn respond_refusal(form: Form, r: Response, amount: usize, room: usize) -> u8
    ensures { result ≡ respond_refusal full form r amount room }
{
    let stamp = r.stamp;
    if !stamp.is_valid() {
        return 3;
    }
    if !is_node(r.node) {
        return 7;
    }
    if amount_wrong(r.error, amount) {
        return 10;
    }
    if room < shown_count(form, r.node, Bytes(amount as u16)).0 as usize {
        return 16;
    }
    0
}

fn mark(error: bool) -> u8
    ensures { result ≡ mark_of error }
{
    if error { 0xFF } else { 0xAA }
}

// Words 01 to 06, then the data.
fn put_body(r: Response, bytes: &[u8], out: &mut [u16])
    requires bytes_len_bound { length bytes.now ≤ 255 }
    requires bytes_in_bounds { overall (length bytes.now) ≤ length out.old }
    ensures { out.new ≡ sets out.old 0 (response_body r bytes.now) }
{
    let amount = Bytes(bytes.len() as u16);
    let s = r.stamp;
    out[0] = overall(amount).0;
    out[1] = word(mark(r.error), r.echo);
    out[2] = word(r.count, r.node);
    out[3] = word(s.month, s.day);
    out[4] = word(s.hour, s.minute);
    out[5] = word(s.second, amount.0 as u8);
    pack(bytes, &mut out[6..]);
}

// Word 00, where there is one, and the others.
#[tactic(auto, unfolding(meaning::specs::Response::shown_count, meaning::specs::Response::response_words, meaning::specs::Response::shown))]
fn put_words(form: Form, r: Response, bytes: &[u8], out: &mut [u16])
    requires bytes_len_bound { length bytes.now ≤ 255 }
    requires bytes_in_bounds { shown_count form r.node (length bytes.now) ≤ length out.old }
    ensures { out.new ≡ sets out.old 0 (response_words form r bytes.now) }
{
    if bears(form, r.node) {
        out[0] = word(0xFF, r.node);
        put_body(r, bytes, &mut out[1..]);
    } else {
        put_body(r, bytes, out);
    }
}

// Writes the packet to the front of out; a refusal leaves out as it was, and so stay the words past the packet.
#[tactic(auto, unfolding(meaning::specs::Response::write_response, meaning::specs::Response::response_output, meaning::specs::Packet::written_count, meaning::specs::Packet::written_output))]
pub fn write_response(form: Form, r: Response, bytes: &[u8], out: &mut [u16]) -> Written
    ensures value { result ≡ write_response full form r bytes.now (length out.old) }
    ensures out_after { out.new ≡ response_output full form r bytes.now out.old }
{
    let n = respond_refusal(form, r, bytes.len(), out.len());
    if n != 0 {
        return Written::Refused(n);
    }
    put_words(form, r, bytes, out);
    Written::Done(shown_count(form, r.node, Bytes(bytes.len() as u16)))
}
