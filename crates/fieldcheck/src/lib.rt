// The field check of a reader, decided on its own record and its region alone.
#![tactic(auto)]

ghost use Rattle.std.specs.Prelude.{◌≡◌, false, length};
ghost use Rattle.meaning.specs.Bench.{full};
ghost use Rattle.decided.specs.Decided.{Readable, quietly, Looks};

use answers::{good, say};
use decided::{Change, Decided, due, past, refused};
use state::reader::Reader;
use units::stamp::Stamp;

// Whether there is nothing to report: no plaque, no continuous reading, or a repeat.
pub fn is_quiet(x: Reader, clock: u32) -> bool
    ensures { result ≡ quietly x clock }
{
    let plaque = x.plaque;
    let reading = x.reading;
    let size = reading.size.0;
    if !plaque.present || size == 0 {
        return true;
    }
    let report = x.report;
    let id = plaque.id;
    report.repeated(id, clock, reading.delay)
}

// The plaque's bytes are the answer, and its ID and the clock are kept.
pub fn report(
    count: u8,
    node: u8,
    x: Reader,
    t: Stamp,
    clock: u32,
    region: &[u8],
    answer: &mut [u16],
) -> Decided
    requires { Readable full node t x (length region.now) (length answer.old) × (quietly x clock ≡ false) }
    ensures { Looks full count node t clock x region.now result answer.new }
{
    let plaque = x.plaque;
    let reading = x.reading;
    let size = reading.size.0;
    if past(plaque, reading.start, size) {
        return refused(x, 12);
    }
    let start = reading.start as usize;
    let end = start + size as usize;
    let said = say(good(count, node, t, 0x0D), &region[start..end], answer);
    due(x.reported(clock), Change::Kept, said)
}
