// An accepted command for a reader, decided on its own record and its region alone. Nothing is changed here but the lent answer; room is
// judged, and the change made, where the call is settled.
#![tactic(auto)]

ghost use Rattle.std.specs.Prelude.{◌≡◌, true, false, length};
ghost use Rattle.meaning.specs.Bench.{full};
ghost use Rattle.meaning.specs.declared.table.OnPlaque.TheVariants.{Fill, Read, Write};
ghost use Rattle.meaning.specs.declared.table.Kind.TheVariants as K;
ghost use Rattle.decided.specs.Decided.{Servable, Obeys};

use answers::{good, say};
use decided::{Change, Decided, due, past, refused};
use meaning::packet::{Command, Response};
use meaning::table::{Kind, OnPlaque};
use state::reader::Reader;
use units::Bytes;
use units::stamp::Stamp;
use units::word::byte_at;

// 04
fn fill(
    count: u8,
    x: Reader,
    t: Stamp,
    m: Command,
    words: &[u16],
    region: &[u8],
    answer: &mut [u16],
) -> Decided
    requires { Servable full t (K.Plaque Fill) m words.now x (length region.now) (length answer.old) ×
        (x.plaque.present ≡ true) }
    ensures { Obeys full count t (K.Plaque Fill) m words.now x region.now result answer.new }
{
    let plaque = x.plaque;
    if past(plaque, m.start, m.size) {
        return refused(x, 12);
    }
    let start = m.start as usize;
    let size = m.size as usize;
    let byte = byte_at(words, 0);
    let said = say(good(count, m.node, t, 0x04), b"", answer);
    due(x, Change::Filled { start, size, byte }, said)
}

// 05
fn read(
    count: u8,
    x: Reader,
    t: Stamp,
    m: Command,
    words: &[u16],
    region: &[u8],
    answer: &mut [u16],
) -> Decided
    requires { Servable full t (K.Plaque Read) m words.now x (length region.now) (length answer.old) ×
        (x.plaque.present ≡ true) }
    ensures { Obeys full count t (K.Plaque Read) m words.now x region.now result answer.new }
{
    let plaque = x.plaque;
    if past(plaque, m.start, m.size) {
        return refused(x, 12);
    }
    let start = m.start as usize;
    let end = start + m.size as usize;
    let said = say(good(count, m.node, t, 0x05), &region[start..end], answer);
    due(x, Change::Kept, said)
}

// 06
fn write(
    count: u8,
    x: Reader,
    t: Stamp,
    m: Command,
    words: &[u16],
    region: &[u8],
    answer: &mut [u16],
) -> Decided
    requires { Servable full t (K.Plaque Write) m words.now x (length region.now) (length answer.old) ×
        (x.plaque.present ≡ true) }
    ensures { Obeys full count t (K.Plaque Write) m words.now x region.now result answer.new }
{
    let plaque = x.plaque;
    if past(plaque, m.start, m.size) {
        return refused(x, 12);
    }
    let start = m.start as usize;
    let size = m.size as usize;
    let said = say(good(count, m.node, t, 0x06), b"", answer);
    due(x, Change::Written { start, size }, said)
}

// 04 to 08, which want a plaque in the field. Without one: the error response 07, Tag Not Found, whatever the command.
fn on_plaque(
    count: u8,
    x: Reader,
    t: Stamp,
    k: OnPlaque,
    m: Command,
    words: &[u16],
    region: &[u8],
    answer: &mut [u16],
) -> Decided
    requires { Servable full t (K.Plaque k) m words.now x (length region.now) (length answer.old) }
    ensures { Obeys full count t (K.Plaque k) m words.now x region.now result answer.new }
{
    let plaque = x.plaque;
    if !plaque.present {
        let r = Response {
            error: true,
            echo: 0xFF,
            count,
            node: m.node,
            stamp: t,
        };
        return due(x, Change::Kept, say(r, b"\x07", answer));
    }
    match k {
        OnPlaque::Fill => fill(count, x, t, m, words, region, answer),
        OnPlaque::Read => read(count, x, t, m, words, region, answer),
        OnPlaque::Write => write(count, x, t, m, words, region, answer),
        OnPlaque::ReadId => {
            let id = plaque.id;
            let said = say(good(count, m.node, t, 0x07), &id, answer);
            due(x, Change::Kept, said)
        }
        OnPlaque::Search => {
            let said = say(good(count, m.node, t, 0x08), b"", answer);
            due(x, Change::Kept, said)
        }
    }
}

pub fn serve(
    count: u8,
    x: Reader,
    t: Stamp,
    kind: Kind,
    m: Command,
    words: &[u16],
    region: &[u8],
    answer: &mut [u16],
) -> Decided
    requires { Servable full t kind m words.now x (length region.now) (length answer.old) }
    ensures { Obeys full count t kind m words.now x region.now result answer.new }
{
    match kind {
        Kind::Plaque(k) => on_plaque(count, x, t, k, m, words, region, answer),
        // With size 0 all three are 0, which is how a reader that does not read continuously stands.
        Kind::Continuous => {
            let said = say(good(count, m.node, t, 0x0D), b"", answer);
            let size = Bytes(m.size);
            due(
                x.started(m.start, size, (m.word4 % 256) as u8),
                Change::Kept,
                said,
            )
        }
        Kind::ResetReader => {
            let said = say(good(count, m.node, t, 0x54), b"", answer);
            due(x.started(0, Bytes(0), 0), Change::Kept, said)
        }
        Kind::Gateway(_) => refused(x, 8),
        Kind::Unknown => refused(x, 8),
    }
}
