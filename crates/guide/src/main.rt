// Runs the worked packets of the sources, given on standard input as lines `NAME | direction | form | words | expected | source`: reads
// each in the form named and writes `NAME`, what it says or its refusal, and whether it is the same when written again. The column
// `expected` is not looked at. Empty lines, and notes, which start with #, are passed over.
#![tactic(auto)]

mod again;
mod commands;
mod line;
mod pieces;
mod responses;
mod scan;

use commands::say_of_command;
use line::Line;
use responses::say_of_response;
use scan::{after, part, starts, words_of};
use streams::{fill, say};
use units::Form;

fn form_at(line: &[u8], at: usize) -> Form {
    if starts(line, at, b'f') {
        return Form::Framed;
    }
    Form::Register
}

// The line for one worked packet: what is said of the packet that a line of the file has.
fn say_line(said: &mut Line, line: &[u8]) {
    let direction = after(line, 0, b'|');
    let form = after(line, direction, b'|');
    let packet = after(line, form, b'|');
    let end = after(line, packet, b'|');
    let mut words = [0u16; 256];
    let n = words_of(part(line, after(line, packet, b' '), end), &mut words);
    let read_in = form_at(line, after(line, form, b' '));
    said.say(part(line, 0, after(line, 0, b' ')));
    said.at = if starts(line, after(line, direction, b' '), b'c') {
        say_of_command(said.bytes, said.at, &words[..n], read_in)
    } else {
        say_of_response(said.bytes, said.at, &words[..n], read_in)
    };
}

fn play_line(rt: HostRuntime, line: &[u8]) {
    if let [b'#' | b'\n', ..] = line {
        return;
    }
    let mut out = [0u8; 1024];
    let mut said = Line {
        bytes: &mut out,
        at: 0,
    };
    say_line(&mut said, line);
    say(rt.stdout(), said.text());
}

fn play(rt: HostRuntime, file: &[u8]) {
    for line in file.split_inclusive(|b| *b == b'\n') {
        play_line(rt, line);
    }
}

fn main(rt: HostRuntime) {
    let mut file = [0u8; 65536];
    let n = fill(&mut rt.stdin(), &mut file);
    play(rt, &file[..n]);
}
