// Reading and writing as a program meets them: a call may move fewer bytes than it is lent, a signal may interrupt it, and a pipe or a
// terminal that another program left non-blocking answers EAGAIN in place of waiting. None of these loses a byte here.
#![tactic(auto)]

ghost use Rattle.std.specs.Prelude.{◌≡◌, ◌≤◌, length, take as first, IfErr, MatchResult};
ghost use Rattle.std.specs.Io.{ReadsAtMost, StartsWith};
ghost use Rattle.std.specs.Io.KnownBytes.{Appends, Consumes, ReadConsumes};

use std::env::{Env, FillError};
use std::hint;
use std::io::{self, ErrorKind, Read, Write};

// How often a call is made, at most. (No night lasts as long; the count shows the prover that it ends.)
const PATIENCE: u64 = u64::MAX;

// A stream that cannot be read or written, which is said on standard error; so many bytes were moved before it failed.
#[derive(Clone, Copy)]
pub struct Failed {
    pub moved: usize,
}

// Writes the bytes. Where that fails, the rest of them is lost, and nobody is told.
pub fn say<W: Write + Drop>(mut to: W, bytes: &[u8]) {
    let _ = to.write_all(bytes);
}

// What of an error's text is the system's, without the number that is added in brackets.
fn reason(text: &[u8], error: io::Error) -> &[u8]
    ensures { StartsWith text.now result.now }
{
    if error.raw_os_error().is_none() {
        return text;
    }
    match text.iter().rposition(|b| *b == b'(') {
        Some(at) if 0 < at => &text[..at - 1],
        _ => text,
    }
}

// Says on standard error what failed, and why.
pub fn fail(rt: HostRuntime, what: &[u8], error: io::Error) {
    let mut text = [0u8; 256];
    let mut rest = &mut text[..];
    let _ = write!(rest, "{error}");
    let left = rest.len();
    let n = text.len().saturating_sub(left);
    say(rt.stderr(), what);
    say(rt.stderr(), b": ");
    say(rt.stderr(), reason(&text[..n], error));
    say(rt.stderr(), b"\n");
}

// Whether a call that failed is to be made again. Where a descriptor does not wait, it is tried again at once: that costs processor time
// while the other side is slow, and no byte. (Std yields to others only where a program counts as one with threads.)
fn again(error: io::Error) -> bool {
    match error.kind() {
        ErrorKind::Interrupted => true,
        ErrorKind::WouldBlock => {
            hint::spin_loop();
            true
        }
        _ => false,
    }
}

// Says on standard error, by the name of the stream, why no more bytes are moved.
fn told(rt: HostRuntime, name: &[u8], error: io::Error, moved: usize) -> Failed
    ensures { result.moved ≡ moved }
{
    fail(rt, name, error);
    Failed { moved }
}

// Writes the bytes, and says on standard error, by the name of what is written to, why where it cannot write them all.
pub fn put_all<W: Write>(
    rt: HostRuntime,
    name: &[u8],
    to: &mut W,
    bytes: &[u8],
) -> Result<(), Failed>
    ensures bound { IfErr result (λ e. e.moved ≤ length bytes.now) }
    ensures written { MatchResult result (λ _. Appends (W.contents to.old) (W.contents to.new) bytes.now)
        (λ e. Appends (W.contents to.old) (W.contents to.new) (first e.moved bytes.now)) }
{
    let mut at = 0;
    for _ in 0..PATIENCE {
        if at == bytes.len() {
            return Ok(());
        }
        match to.write(&bytes[at..]) {
            Ok(0) => return Err(told(rt, name, io::Error::from(ErrorKind::WriteZero), at)),
            Ok(n) => at += n,
            Err(error) if again(error) => {}
            Err(error) => return Err(told(rt, name, error, at)),
        }
    }
    Err(told(rt, name, io::Error::from(ErrorKind::TimedOut), at))
}

// Writes the bytes to standard output, and says on standard error why where it cannot write them all.
pub fn put(rt: HostRuntime, bytes: &[u8]) -> Result<(), Failed>
    ensures { IfErr result (λ e. e.moved ≤ length bytes.now) }
{
    put_all(rt, b"standard output", &mut rt.stdout(), bytes)
}

// Reads some bytes to the front of what is lent, none at the end of the input. It waits where there is nothing yet, and says on standard
// error, by the name of what is read, why where it cannot read; then nothing was read.
pub fn take<R: Read>(
    rt: HostRuntime,
    name: &[u8],
    from: &mut R,
    bytes: &mut [u8],
) -> Result<usize, Failed>
    ensures bound { ReadsAtMost result bytes.new }
    ensures read { ReadConsumes (R.remaining from.old) (R.remaining from.new) result bytes.new }
    ensures none { IfErr result (λ e. e.moved ≡ 0) }
{
    for _ in 0..PATIENCE {
        match from.read(bytes) {
            Ok(n) => return Ok(n),
            Err(error) if again(error) => {}
            Err(error) => return Err(told(rt, name, error, 0)),
        }
    }
    Err(told(rt, name, io::Error::from(ErrorKind::TimedOut), 0))
}

// Reads to the front of what is lent until that is full, the input ends or it cannot be read, which nobody is told; how many bytes.
pub fn fill<R: Read>(from: &mut R, bytes: &mut [u8]) -> usize
    ensures bound { result ≤ length bytes.new }
    ensures read { Consumes (R.remaining from.old) (R.remaining from.new) (first result bytes.new) }
{
    let mut at = 0;
    while at < bytes.len() {
        match from.read(&mut bytes[at..]) {
            Ok(0) | Err(_) => return at,
            Ok(more) => at += more,
        }
    }
    at
}

// How many words the program was started with, its own name among them. (It promises nothing of that count: std says of `arg` only that
// what it writes fits, so that nothing ties one of its answers to the next.)
pub fn word_count(rt: HostRuntime) -> usize {
    (0..usize::MAX)
        .position(|n| matches!(rt.arg(n, &mut []), Err(FillError::NotPresent)))
        .unwrap_or(usize::MAX)
}
