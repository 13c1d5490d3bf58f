// What a response packet says, as the worked packets put it.
ghost use Rattle.guide.specs.Say.{GoesOn, Onward};

use crate::again::same_response;
use crate::line::Line;
use crate::pieces::{Decimal, Hex, Two};
use crate::scan::part;
use meaning::packet::{Response, ResponseRead};
use packing::unpack;
use response::{judge_response, response_data};
use units::Form;
use units::stamp::Stamp;

const MONTHS: [&str; 13] = [
    "???", "Jan", "Feb", "Mar", "Apr", "May", "Jun", "Jul", "Aug", "Sep", "Oct", "Nov", "Dec",
];

fn say_stamp(line: &mut Line, t: Stamp)
    ensures { Onward line.old line.new }
{
    let month = MONTHS.get(t.month as usize).copied().unwrap_or("");
    line.say_as(" stamp=", Decimal(t.day as usize));
    line.say_as(" ", month);
    line.say_as(" ", Two(t.hour));
    line.say_as(":", Two(t.minute));
    line.say_as(":", Two(t.second));
}

fn say_origin(line: &mut Line, r: Response)
    ensures { Onward line.old line.new }
{
    line.say_as(" node=", Decimal(r.node as usize));
    line.say_as(" count=", Decimal(r.count as usize));
    say_stamp(line, r.stamp);
}

fn say_error(line: &mut Line, r: Response, bytes: &[u8])
    ensures { Onward line.old line.new }
{
    line.say_as("error info=", Hex(&[r.echo]));
    say_origin(line, r);
    line.say_as(" code=", Hex(bytes));
}

fn say_answer(line: &mut Line, r: Response, bytes: &[u8])
    ensures { Onward line.old line.new }
{
    line.say_as("echo=", Hex(&[r.echo]));
    say_origin(line, r);
    line.say_as(" len=", Decimal(bytes.len()));
    if !bytes.is_empty() {
        line.say_as(" data=", Hex(bytes));
    }
}

// What an accepted packet says, and whether it is the same when written again.
fn say_accepted(line: &mut Line, words: &[u16], form: Form, r: Response, bytes: &[u8])
    ensures { Onward line.old line.new }
{
    line.say("ok ");
    if r.error {
        say_error(line, r, bytes);
    } else {
        say_answer(line, r, bytes);
    }
    line.say_same(same_response(words, form, r, bytes));
}

pub fn say_of_response(out: &mut [u8], at: usize, words: &[u16], form: Form) -> usize
    ensures { GoesOn out.old at out.new result }
{
    let mut line = Line { bytes: out, at };
    match judge_response(words, form) {
        ResponseRead::Refused(n) => line.say_refused(n),
        ResponseRead::Accepted(r, amount) => {
            let mut bytes = [0u8; 256];
            unpack(response_data(words, form), &mut bytes);
            say_accepted(
                &mut line,
                words,
                form,
                r,
                part(&bytes, 0, amount.0 as usize),
            );
        }
    }
    line.at
}
