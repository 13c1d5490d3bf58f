// The reader of command packets: each doubt of the paper in its order, and what an accepted packet says.
#![tactic(auto)]

ghost use Rattle.std.specs.Prelude.{◌≡◌, not, eqb};
ghost use Rattle.units.specs.Word.{lsb, msb};
ghost use Rattle.meaning.specs.Packet.{word_no};
ghost use Rattle.meaning.specs.Refusal.{refusal, ◌or_else◌};
ghost use Rattle.meaning.specs.Bench.{full};
ghost use Rattle.meaning.specs.Table.{row_of};
ghost use Rattle.meaning.specs.declared.table.Kind.TheVariants.{Continuous};
ghost use Rattle.meaning.specs.Command.{body_of, command_of, head_wrong, head_node_wrong, frame_doubts, who_doubts, outside, delay_wrong};
ghost use Rattle.meaning.specs.Command.{range_wrong, limit_doubts, stray, unused_doubts, row_doubts, read_command, command_data};
ghost use Rattle.command.specs.Judged.{judged_command};

use meaning::packet::{Command, CommandRead};
use meaning::table::{Kind, Limits, Row};
use parts::{count_wrong, data_words, is_node, length_wrong, spare_wrong, word_no};
use rows::{carried, row_of, suits};
use units::stamp::Stamp;
use units::word::{lsb, msb};
use units::{Bytes, Form};

// The words from Overall Length on.
#[tactic(auto, unfolding(meaning::specs::Command::body_of))]
fn body_of(words: &[u16], form: Form) -> &[u16]
    ensures { result.now ≡ body_of form words.now }
{
    match form {
        Form::Register => words,
        Form::Framed => { if 0 < words.len() { &words[1..] } else { words } }
    }
}

// What the words say, whether or not they are accepted.
#[tactic(auto, unfolding(meaning::specs::Command::command_of))]
fn command_of(body: &[u16]) -> Command
    ensures { result ≡ command_of body.now }
{
    Command {
        command: lsb(word_no(body, 2)),
        node: lsb(word_no(body, 3)),
        word4: word_no(body, 4),
        start: word_no(body, 5),
        size: word_no(body, 6),
    }
}

// 5, of word 00
#[tactic(auto, unfolding(meaning::specs::Command::head_wrong))]
fn head_wrong(words: &[u16], form: Form) -> bool
    ensures { result ≡ head_wrong form words.now }
{
    match form {
        Form::Register => false,
        Form::Framed => msb(word_no(words, 1)) != 0xFF,
    }
}

// 5, of word 02
fn mark_wrong(body: &[u16]) -> bool
    ensures { result ≡ not (eqb (msb (word_no 2 body.now)) 0xAA) }
{
    msb(word_no(body, 2)) != 0xAA
}

// 5, of word 03
fn pad_wrong(body: &[u16]) -> bool
    ensures { result ≡ not (eqb (msb (word_no 3 body.now)) 0) }
{
    msb(word_no(body, 3)) != 0
}

// 6
#[tactic(auto, unfolding(meaning::specs::Command::head_node_wrong))]
fn head_node_wrong(words: &[u16], form: Form, body: &[u16]) -> bool
    ensures { result ≡ head_node_wrong form words.now (lsb (word_no 3 body.now)) }
{
    match form {
        Form::Register => false,
        Form::Framed => lsb(word_no(words, 1)) != lsb(word_no(body, 3)),
    }
}

// 4 to 6
#[tactic(auto, using(meaning::proofs::Chain::doubts), unfolding(meaning::specs::Command::frame_doubts))]
fn frame_refusal(words: &[u16], form: Form, body: &[u16]) -> u8
    ensures { result ≡ refusal (frame_doubts form words.now body.now) }
{
    if count_wrong(body) {
        return 4;
    }
    if head_wrong(words, form) {
        return 5;
    }
    if mark_wrong(body) {
        return 5;
    }
    if pad_wrong(body) {
        return 5;
    }
    if head_node_wrong(words, form, body) {
        return 6;
    }
    0
}

// 7 and 8
#[tactic(auto, using(meaning::proofs::Chain::doubts), unfolding(meaning::specs::Command::who_doubts))]
pub fn who_refusal(row: Row, m: Command) -> u8
    ensures { result ≡ refusal (who_doubts full row m) }
{
    let node = m.node;
    if !is_node(node) {
        return 7;
    }
    let kind = row.kind;
    if !suits(kind, node) {
        return 8;
    }
    0
}

// 10, of a word that is used
#[tactic(auto, unfolding(meaning::specs::Command::outside))]
fn outside(l: Limits, value: u16) -> bool
    ensures { result ≡ outside l value }
{
    if l.high == 0 {
        return false;
    }
    if value < l.low {
        return true;
    }
    l.high < value
}

// 10: continuous reading is stopped, and a delay is given.
#[tactic(auto, unfolding(meaning::specs::Command::delay_wrong))]
fn delay_wrong(kind: Kind, m: Command) -> bool
    ensures { result ≡ delay_wrong kind m }
{
    match kind {
        Kind::Continuous => { if m.size == 0 { m.word4 != 0 } else { false } }
        _ => false,
    }
}

#[tactic(auto, unfolding(meaning::specs::Command::range_wrong))]
fn past_region(m: Command) -> bool
    ensures { result ≡ range_wrong full.region Continuous m }
{
    if (Bytes::REGION.0 as usize) < m.start as usize + m.size as usize {
        return true;
    }
    if m.size != 0 {
        return false;
    }
    m.start != 0
}

// 10: continuous reading past a region, or stopped with a start given.
#[tactic(auto, unfolding(meaning::specs::Command::range_wrong))]
fn range_wrong(kind: Kind, m: Command) -> bool
    ensures { result ≡ range_wrong full.region kind m }
{
    match kind {
        Kind::Continuous => past_region(m),
        _ => false,
    }
}

// 10
#[tactic(auto, using(meaning::proofs::Chain::doubts), unfolding(meaning::specs::Command::limit_doubts))]
pub fn limit_refusal(row: Row, m: Command) -> u8
    ensures { result ≡ refusal (limit_doubts full row m) }
{
    let kind = row.kind;
    let word4 = row.word4;
    if outside(word4, m.word4) {
        return 10;
    }
    if delay_wrong(kind, m) {
        return 10;
    }
    let start = row.start;
    if outside(start, m.start) {
        return 10;
    }
    if range_wrong(kind, m) {
        return 10;
    }
    let size = row.size;
    if outside(size, m.size) {
        return 10;
    }
    0
}

// 11, of a word that is not used
#[tactic(auto, unfolding(meaning::specs::Command::stray))]
fn stray(l: Limits, value: u16) -> bool
    ensures { result ≡ stray l value }
{
    if l.high == 0 { value != 0 } else { false }
}

// 11, of words 04 to 06
#[tactic(auto, using(meaning::proofs::Chain::doubts), unfolding(meaning::specs::Command::unused_doubts))]
pub fn unused_refusal(row: Row, m: Command) -> u8
    ensures { result ≡ refusal (unused_doubts row m) }
{
    let word4 = row.word4;
    if stray(word4, m.word4) {
        return 11;
    }
    let start = row.start;
    if stray(start, m.start) {
        return 11;
    }
    let size = row.size;
    if stray(size, m.size) {
        return 11;
    }
    0
}

// 7 to 11, by the command's row
#[tactic(auto, using(meaning::proofs::Chain::doubts), unfolding(meaning::specs::Command::row_doubts))]
fn row_refusal(row: Row, m: Command, body: &[u16]) -> u8
    ensures { result ≡ refusal (row_doubts full row m body.now) }
{
    let who = who_refusal(row, m);
    if who != 0 {
        return who;
    }
    let amount = carried(row, m);
    if length_wrong(amount, body) {
        return 9;
    }
    let limit = limit_refusal(row, m);
    if limit != 0 {
        return limit;
    }
    let unused = unused_refusal(row, m);
    if unused != 0 {
        return unused;
    }
    if spare_wrong(amount, body) {
        return 11;
    }
    0
}

// 4 to 11, of a packet whose body says m, with m's row
#[tactic(auto, using(meaning::proofs::Chain::doubts))]
fn packet_refusal(words: &[u16], form: Form, body: &[u16], row: Row, m: Command) -> u8
    ensures { result ≡ refusal (frame_doubts form words.now body.now or_else row_doubts full row m
        body.now) }
{
    let frame = frame_refusal(words, form, body);
    if frame != 0 {
        return frame;
    }
    row_refusal(row, m, body)
}

// A command packet with its stamp: the refusal (3 to 11), 0 where it is accepted; what it says, and what its row in the table says that it
// does.
#[derive(Clone, Copy)]
pub struct Judged {
    pub refusal: u8,
    pub kind: Kind,
    pub what: Command,
}

// Opens the packet, and looks its row up: once each.
pub fn judge_command(t: Stamp, form: Form, words: &[u16]) -> Judged
    ensures { result ≡ judged_command full t form words.now }
{
    let body = body_of(words, form);
    let what = command_of(body);
    let row = row_of(what.command);
    let kind = row.kind;
    if !t.is_valid() {
        return Judged {
            refusal: 3,
            kind,
            what,
        };
    }
    let refusal = packet_refusal(words, form, body, row, what);
    Judged {
        refusal,
        kind,
        what,
    }
}

pub fn read_command(words: &[u16], form: Form) -> CommandRead
    ensures { result ≡ read_command full form words.now }
{
    let body = body_of(words, form);
    let m = command_of(body);
    let n = packet_refusal(words, form, body, row_of(m.command), m);
    if n != 0 {
        return CommandRead::Refused(n);
    }
    CommandRead::Accepted(m)
}

// The data of a packet, from word 07 on: a part of the caller's own words.
#[tactic(auto, unfolding(meaning::specs::Command::command_data))]
pub fn command_data(words: &[u16], form: Form) -> &[u16]
    ensures { result.now ≡ command_data form words.now }
{
    data_words(body_of(words, form))
}
