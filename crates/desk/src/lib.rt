// What the gateway makes of an accepted command of its own, decided on its name alone. Nothing is changed here but the lent answer; room
// is judged, and the change made, where the call is settled.
#![tactic(auto)]

ghost use Rattle.std.specs.Prelude.{◌≡◌, [], length, replicate};
ghost use Rattle.meaning.specs.Bench.{full};
ghost use Rattle.meaning.specs.declared.table.Kind.TheVariants as K;
ghost use Rattle.desk.specs.Ruled.{Governable, Governs};

use answers::{Verdict, good, say};
use meaning::packet::Command;
use meaning::table::{Kind, OfGateway};
use packing::unpack;
use state::Name;
use store::Broom;
use units::stamp::Stamp;
use units::{Bytes, HUB, Words};

// The name as it is after the call, what becomes of all lists, and the words of the answer that is due.
#[derive(Clone, Copy)]
pub struct Ruled {
    pub name: Name,
    pub broom: Broom,
    pub words: Words,
    pub verdict: Verdict,
}

fn due(name: Name, broom: Broom, words: Words) -> Ruled
    ensures { result ≡ record { name = name; broom = broom; words = words; verdict = Verdict.Due } }
{
    Ruled {
        name,
        broom,
        words,
        verdict: Verdict::Due,
    }
}

fn no_name() -> Name
    ensures { result ≡ record { length = record { 0 = 0 }; bytes = replicate 64 0 } }
{
    let bytes = [0u8; 64];
    Name {
        length: Bytes(0),
        bytes,
    }
}

// A command of the gateway, by its kind.
fn rule(
    count: u8,
    name: Name,
    t: Stamp,
    k: OfGateway,
    m: Command,
    words: &[u16],
    answer: &mut [u16],
) -> Ruled
    requires { Governable full t (K.Gateway k) m words.now name (length answer.old) }
    ensures { Governs full count name t (K.Gateway k) m words.now result answer.new }
{
    match k {
        OfGateway::GetName => {
            let bytes = name.bytes;
            let length = name.length.0 as usize;
            let said = say(good(count, HUB, t, 0x11), &bytes[..length], answer);
            due(name, Broom::Nothing, said)
        }
        OfGateway::SetName => {
            let mut bytes = [0u8; 64];
            let length = m.size as usize;
            unpack(words, &mut bytes[..length]);
            let said = say(good(count, HUB, t, 0x21), b"", answer);
            let title = Name {
                length: Bytes(m.size),
                bytes,
            };
            due(title, Broom::Nothing, said)
        }
        OfGateway::Initialise => {
            let said = say(good(count, HUB, t, 0x60), b"", answer);
            due(no_name(), Broom::Nothing, said)
        }
        // Its own answer is the first after the counts start again.
        OfGateway::ResetGateway => due(name, Broom::Reset, say(good(0, HUB, t, 0x61), b"", answer)),
        OfGateway::Clear => due(
            name,
            Broom::Clear,
            say(good(count, HUB, t, 0x79), b"", answer),
        ),
    }
}

pub fn govern(
    count: u8,
    name: Name,
    t: Stamp,
    kind: Kind,
    m: Command,
    words: &[u16],
    answer: &mut [u16],
) -> Ruled
    requires { Governable full t kind m words.now name (length answer.old) }
    ensures { Governs full count name t kind m words.now result answer.new }
{
    match kind {
        Kind::Gateway(k) => rule(count, name, t, k, m, words, answer),
        _ => Ruled {
            name,
            broom: Broom::Nothing,
            words: Words(0),
            verdict: Verdict::Refused(8),
        },
    }
}
