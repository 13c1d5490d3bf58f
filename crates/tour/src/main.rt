// A tour of the bench: at each reader a plaque arrives, a command reads three of its bytes, and the answer is collected and acknowledged;
// at the gateway the name is asked for. Each answer, in framed form, is a line. Then the gateway's handover number goes around.
#![tactic(auto)]

use dialogout::{LONGEST_ANSWER, put_handed};
use gateway::{acknowledge, arrive, collect, command};
use promise::Handout;
use state::State;
use streams::say as put;
use units::stamp::Stamp;
use units::{Bytes, Form, Words};
use wordsout::put_words;

fn say(rt: HostRuntime, words: &[u16]) {
    if 135 < words.len() {
        return;
    }
    let mut line = [0u8; 675];
    let n = put_words(&mut line, 0, words);
    if n <= 675 {
        put(rt.stdout(), &line[..n]);
    }
}

// 19 March, 10:11:36
fn at() -> Stamp {
    Stamp {
        month: 3,
        day: 19,
        hour: 10,
        minute: 11,
        second: 36,
    }
}

// Plays a packet and hands its answer over.
fn ask(
    rt: HostRuntime,
    s: State,
    node: u8,
    packet: &[u16],
    store: &mut [u16],
    plaques: &mut [u8],
) -> State {
    let called = command(s, at(), Form::Register, packet, store, plaques);
    let u = called.state;
    let mut out = [0u16; 135];
    match collect(u, Form::Framed, node, store, plaques, &mut out) {
        Handout::Refused(_) => u,
        Handout::Handed(words, number) => {
            let n = words.0 as usize;
            if n <= 135 {
                say(rt, &out[..n]);
            }
            acknowledge(u, node, number, store, plaques).state
        }
    }
}

fn visit(rt: HostRuntime, s: State, node: u8, store: &mut [u16], plaques: &mut [u8]) -> State {
    let id = [0xE0u8, 0x04, 0x01, 0x00, 0x00, 0x2E, 0x16, 0xAD];
    let bytes = [node, 0x22, 0x33, 0x44];
    let called = arrive(s, node, &id, &bytes, store, plaques);
    let t = called.state;
    let packet = [0x0006u16, 0xAA05, node as u16, 0x07D0, 0x0000, 0x0003];
    ask(rt, t, node, &packet, store, plaques)
}

fn visit_readers(rt: HostRuntime, s: State, store: &mut [u16], plaques: &mut [u8]) -> State {
    let mut t = s;
    for node in 1..=16 {
        t = visit(rt, t, node, store, plaques);
    }
    t
}

// 79 is sent. It finds its own last answer, so that the handover number moves on each time but the first.
fn clear(s: State, store: &mut [u16], plaques: &mut [u8]) -> State {
    let packet = [0x0006u16, 0xAA79, 0x0020, 0x0000, 0x0000, 0x0000];
    command(s, at(), Form::Register, &packet, store, plaques).state
}

// The gateway's oldest answer with its handover number, as the console says it.
fn show(rt: HostRuntime, s: State, store: &[u16], plaques: &[u8]) {
    let mut out = [0u16; 134];
    let Handout::Handed(words, number) = collect(s, Form::Register, 32, store, plaques, &mut out)
    else {
        return;
    };
    let n = words.0 as usize;
    if n < 1 {
        return;
    }
    if 134 < n {
        return;
    }
    let mut line = [0u8; LONGEST_ANSWER];
    let end = put_handed(&mut line, 0, number, Form::Framed, 32, &out[..n]);
    if end <= LONGEST_ANSWER {
        put(rt.stdout(), &line[..end]);
    }
}

// The last handover number, and the one that follows it.
fn go_around(rt: HostRuntime, store: &mut [u16], plaques: &mut [u8]) {
    let mut s = state::fresh(store);
    for _ in 0..65535 {
        s = clear(s, store, plaques);
    }
    show(rt, s, store, plaques);
    s = clear(s, store, plaques);
    show(rt, s, store, plaques);
}

fn main(rt: HostRuntime) {
    let mut store = [0u16; Words::STORE.0 as usize];
    let mut plaques = [0u8; Bytes::PLAQUES.0 as usize];
    let fresh = state::fresh(&mut store);
    let s = visit_readers(rt, fresh, &mut store, &mut plaques);
    let packet = [0x0006u16, 0xAA11, 0x0020, 0x0000, 0x0000, 0x0000];
    ask(rt, s, 32, &packet, &mut store, &mut plaques);
    go_around(rt, &mut store, &mut plaques);
}
