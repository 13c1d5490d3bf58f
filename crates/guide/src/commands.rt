// What a command packet says, as the worked packets put it.
ghost use Rattle.guide.specs.Say.{GoesOn, Onward};

use crate::again::same_command;
use crate::line::Line;
use crate::pieces::{Decimal, Hex};
use crate::scan::part;
use command::{command_data, read_command};
use meaning::packet::{Command, CommandRead};
use meaning::table::{Kind, Limits, OfGateway, OnPlaque};
use packing::unpack;
use rows::{carried, row_of};
use units::Form;

fn on_plaque(kind: OnPlaque) -> &'static str {
    match kind {
        OnPlaque::Fill => "fill",
        OnPlaque::Read => "read",
        OnPlaque::Write => "write",
        OnPlaque::ReadId => "readid",
        OnPlaque::Search => "search",
    }
}

fn of_gateway(kind: OfGateway) -> &'static str {
    match kind {
        OfGateway::GetName => "getname",
        OfGateway::SetName => "setname",
        OfGateway::Initialise => "initialise",
        OfGateway::ResetGateway => "resetgateway",
        OfGateway::Clear => "clear",
    }
}

fn name_of(kind: Kind) -> &'static str {
    match kind {
        Kind::Plaque(k) => on_plaque(k),
        Kind::Continuous => "continuous",
        Kind::ResetReader => "resetreader",
        Kind::Gateway(k) => of_gateway(k),
        Kind::Unknown => "unknown",
    }
}

// A word is shown where the table says that the command uses it.
fn say_used(line: &mut Line, label: &str, limits: Limits, n: u16)
    ensures { Onward line.old line.new }
{
    if limits.high != 0 {
        line.say_as(label, Decimal(n as usize));
    }
}

fn say_command(line: &mut Line, m: Command)
    ensures { Onward line.old line.new }
{
    let row = row_of(m.command);
    let word4 = match row.kind {
        Kind::Continuous => " delay=",
        _ => " timeout=",
    };
    line.say(name_of(row.kind));
    line.say_as(" node=", Decimal(m.node as usize));
    say_used(line, word4, row.word4, m.word4);
    say_used(line, " start=", row.start, m.start);
    say_used(line, " size=", row.size, m.size);
}

// What an accepted packet says, and whether it is the same when written again.
fn say_accepted(line: &mut Line, words: &[u16], form: Form, m: Command, bytes: &[u8])
    ensures { Onward line.old line.new }
{
    line.say("ok ");
    say_command(line, m);
    if !bytes.is_empty() {
        line.say_as(" data=", Hex(bytes));
    }
    line.say_same(same_command(words, form, m, bytes));
}

// Kept: beside `say_of_response`, whose reader, data and words are others: one function for both takes a trait of four functions.
pub fn say_of_command(out: &mut [u8], at: usize, words: &[u16], form: Form) -> usize
    ensures { GoesOn out.old at out.new result }
{
    let mut line = Line { bytes: out, at };
    match read_command(words, form) {
        CommandRead::Refused(n) => line.say_refused(n),
        CommandRead::Accepted(m) => {
            let mut bytes = [0u8; 256];
            unpack(command_data(words, form), &mut bytes);
            let n = carried(row_of(m.command), m).0 as usize;
            say_accepted(&mut line, words, form, m, part(&bytes, 0, n));
        }
    }
    line.at
}
