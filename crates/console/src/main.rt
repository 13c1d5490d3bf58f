// The bench console: a call a line on standard input, an answer a line on standard output, until the input ends. Where input or output
// fails, that is said on standard error, and the console ends.
#![tactic(auto)]

ghost use Rattle.std.specs.Prelude.{◌≡◌, ◌+◌, ◌*◌, ◌≤◌, length, IfOk};
ghost use Rattle.meaning.specs.Bench.{full};
ghost use Rattle.machine.specs.Machine.{machine};
ghost use Rattle.machine.specs.Consistent.{unfit};
ghost use Rattle.dialog.specs.Dialog.{longest_answer};

use conversation::speak;
use dialogout::LONGEST_ANSWER;
use lines::LONGEST_LINE;
use state::State;
use streams::{Failed, put, say, take, word_count};
use units::{Bytes, Words};

// A line that goes on is kept up to a byte more than the longest that is looked into, which shows that it is longer.
const KEPT: usize = LONGEST_LINE + 1;

// As much is read at a time.
const PIECE: usize = 2048;

// Plays the lines, and writes their answers before anything else is waited for; the state after them.
fn answer(
    rt: HostRuntime,
    s: State,
    lines: &[u8],
    store: &mut [u16],
    plaques: &mut [u8],
    out: &mut [u8],
) -> Result<State, Failed>
    requires plaques_value { unfit full (machine s store.old plaques.old) ≡ 0 }
    requires longest_answer_in_bounds { length lines.now * longest_answer ≤ length out.old }
    ensures { IfOk result (λ t. unfit full (machine t store.new plaques.new) ≡ 0) }
{
    let r = speak(s, lines, store, plaques, out);
    put(rt, &out[..r.at])?;
    Ok(r.state)
}

// Where the last line that has its line feed ends; 0 where none has.
fn whole_lines(input: &[u8]) -> usize
    ensures { result ≤ length input.now }
{
    input
        .iter()
        .rposition(|b| *b == b'\n')
        .map_or(0, |last| last + 1)
}

// What stands between two places comes to the front, as much as is kept of a line that goes on; how much that is.
fn keep(input: &mut [u8], from: usize, end: usize) -> usize
    requires { (from ≤ end) × (end ≤ length input.old) }
    ensures { result ≤ 4401 }
{
    let n = (end - from).min(KEPT);
    input.copy_within(from..from + n, 0);
    n
}

// The state after a piece of the input, and how many bytes of a line that goes on are kept.
#[derive(Clone, Copy)]
struct Heard {
    state: State,
    kept: usize,
}

// A piece comes behind what is kept; all lines that then have their line feed are played, and the rest is kept.
fn hear(
    rt: HostRuntime,
    s: State,
    input: &mut [u8],
    kept: usize,
    piece: &[u8],
    store: &mut [u16],
    plaques: &mut [u8],
    out: &mut [u8],
) -> Result<Heard, Failed>
    requires plaques_value { unfit full (machine s store.old plaques.old) ≡ 0 }
    requires piece_in_bounds { (kept + length piece.now ≤ length input.old) × (length input.old * longest_answer ≤ length out.old) }
    ensures { IfOk result (λ h. (h.kept ≤ 4401) × (unfit full (machine h.state store.new plaques.new) ≡ 0)) }
{
    let n = kept + piece.len();
    input[kept..n].copy_from_slice(piece);
    let whole = whole_lines(&input[..n]);
    let state = answer(rt, s, &input[..whole], store, plaques, out)?;
    let left = keep(input, whole, n);
    Ok(Heard { state, kept: left })
}

// The lines as they come, into an output that has room for the answers to all of them.
fn play_into(rt: HostRuntime, out: &mut [u8]) -> Result<(), Failed>
    requires { 6449 * longest_answer ≤ length out.old }
{
    let mut store = [0u16; Words::STORE.0 as usize];
    let mut plaques = [0u8; Bytes::PLAQUES.0 as usize];
    let mut piece = [0u8; PIECE];
    let mut input = [0u8; KEPT + PIECE];
    let mut s = state::fresh(&mut store);
    let mut kept = 0;
    // It ends with the input. (So many pieces no bench will see; the count shows the prover that it ends.)
    for _ in 0..u64::MAX {
        let n = take(rt, b"standard input", &mut rt.stdin(), &mut piece)?;
        if n == 0 {
            break;
        }
        let h = hear(
            rt,
            s,
            &mut input,
            kept,
            &piece[..n],
            &mut store,
            &mut plaques,
            out,
        )?;
        s = h.state;
        kept = h.kept;
    }
    if 0 < kept {
        answer(rt, s, &input[..kept], &mut store, &mut plaques, out)?;
    }
    Ok(())
}

// No line of what is looked at in one go has a longer answer, and a line has a byte at least.
fn play(rt: HostRuntime) {
    let mut out = [0u8; LONGEST_ANSWER * (KEPT + PIECE)];
    let _ = play_into(rt, &mut out);
}

fn main(rt: HostRuntime) {
    if 1 < word_count(rt) {
        say(
            rt.stderr(),
            b"usage: console (no arguments): calls come as lines on standard input, see docs/CONSOLE.md\n",
        );
        return;
    }
    play(rt);
}
