// An answer made: what its own node decides of a call, room aside, and a response written to a lent answer.
#![tactic(auto)]

pub mod slots;

ghost use Rattle.std.specs.Prelude.{◌≡◌, length};
ghost use Rattle.meaning.specs.Bench.{full};
ghost use Rattle.answers.specs.Say.{good, Sayable, Says};

use meaning::packet::Response;
use parts::overall;
use promise::{Called, Reply};
use responseout::write_response;
use state::State;
use units::stamp::Stamp;
use units::{Bytes, Form, Words};

// A call is refused with the paper's number; or an answer is due.
#[derive(Clone, Copy)]
pub enum Verdict {
    Refused(u8),
    Due,
}

// The answer of a node with so many earlier ones, without an error.
pub fn good(count: u8, node: u8, t: Stamp, echo: u8) -> Response
    ensures { result ≡ good count node t echo }
{
    Response {
        error: false,
        echo,
        count,
        node,
        stamp: t,
    }
}

// A response, written to the front of the lent answer; the result counts its words.
pub fn say(r: Response, bytes: &[u8], answer: &mut [u16]) -> Words
    requires { Sayable full r (length bytes.now) (length answer.old) }
    ensures { Says full r bytes.now result.0 answer.new }
{
    write_response(Form::Register, r, bytes, answer);
    overall(Bytes(bytes.len() as u16))
}

pub fn refused(s: State, number: u8) -> Called
    ensures { result ≡ record { reply = Reply.Refused number; state = s } }
{
    Called {
        reply: Reply::Refused(number),
        state: s,
    }
}
