// The lines of a listing. The caller sees to the room.
#![tactic(auto)]

ghost use Rattle.std.specs.Prelude.{◌≡◌, ◌+◌, ◌≤◌, length};
ghost use Rattle.text.specs.Text.{Put};
ghost use Rattle.listing.specs.Lines.{number_line, commands_line, refused_line, broken_line};

use text::{put, put_decimal, put_text};

#[tactic(auto, unfolding(listing::specs::Lines::broken_line))]
pub fn put_broken(out: &mut [u8], at: usize) -> usize
    requires { at + 7 ≤ length out.old }
    ensures { Put out.old at broken_line out.new result }
{
    put_text(out, at, b"broken\n")
}

// A text and a number.
#[tactic(auto, using(text::proofs::Writing::put_length, text::proofs::Writing::decimal_five))]
fn put_number(out: &mut [u8], at: usize, text: &[u8], number: u16) -> usize
    requires { at + length text.now + 6 ≤ length out.old }
    ensures { Put out.old at (number_line text.now number) out.new result }
{
    let to = put_text(out, at, text);
    let end = put_decimal(out, to, number as usize);
    put(out, end, b'\n')
}

pub fn put_commands(out: &mut [u8], at: usize, count: u16) -> usize
    requires { at + 15 ≤ length out.old }
    ensures { Put out.old at (commands_line count) out.new result }
{
    put_number(out, at, b"commands ", count)
}

pub fn put_refused(out: &mut [u8], at: usize, number: u8) -> usize
    requires { at + 14 ≤ length out.old }
    ensures { Put out.old at (refused_line number) out.new result }
{
    put_number(out, at, b"refused ", number as u16)
}
