// Numbers, nodes and stamps, one field after another.
#![tactic(auto)]

ghost use Rattle.std.specs.Prelude.{◌≡◌, ◌≤◌, IfSome, IfNone, length};
ghost use Rattle.dialog.specs.Spoken.{field};
ghost use Rattle.fields.specs.FieldsAt.{fields_from, FieldAt};
ghost use Rattle.numbers.specs.NumbersAt.{number_in, number_at, node_at, stamp_at};

use fields::{Read, read_field};
use units::stamp::Stamp;

// A number has at most ten digits, and ten digits fit 64 bits.
#[tactic(auto, using(crate::proofs::Numbers::digit_by_digit))]
fn number_in(field: &[u8], most: u32) -> Option<u32>
    ensures value { result ≡ number_in most field.now }
    ensures within_limit { IfSome result (λ v. v ≤ most) }
{
    if !(1..=10).contains(&field.len()) {
        return None;
    }
    let mut value = 0;
    for c in field {
        if !c.is_ascii_digit() {
            return None;
        }
        value = value * 10 + u64::from(*c - b'0');
    }
    if u64::from(most) < value {
        return None;
    }
    Some(value as u32)
}

// Where the field at a place ends, if that is among its first twelve bytes: a longer one is no number, and costs no more than these.
fn near_end(line: &[u8], at: usize) -> Option<usize>
    requires { at ≤ length line.now }
    ensures end { IfSome result (FieldAt line.now at) }
    ensures longer { IfNone result (12 ≤ length (field (fields_from line.now at) 0)) }
{
    let end = line.len().min(at + 12);
    match line[at..end].iter().position(|c| *c == b' ') {
        Some(n) => Some(at + n),
        None if end == line.len() => Some(end),
        None => None,
    }
}

// Behind a field that is too long the next one is looked for by a computation of its own, which falls away where its place is not read.
#[tactic(auto, unfolding(crate::specs::NumbersAt::number_at), using(crate::proofs::Numbers::field_there))]
pub fn read_number(line: &[u8], at: usize, most: u32) -> Read<u32>
    ensures value { result ≡ number_at most line.now at }
    ensures within_limit { IfSome result.value (λ v. v ≤ most) }
{
    if line.len() < at {
        return Read {
            value: None,
            next: at,
        };
    }
    match near_end(line, at) {
        Some(end) => Read {
            value: number_in(&line[at..end], most),
            next: end + 1,
        },
        None => Read {
            value: None,
            next: read_field(line, at).next,
        },
    }
}

#[tactic(auto, unfolding(crate::specs::NumbersAt::node_at))]
pub fn read_node(line: &[u8], at: usize) -> Read<u8>
    ensures { result ≡ node_at line.now at }
{
    let n = read_number(line, at, 255);
    Read {
        value: n.value.map(|node| node as u8),
        next: n.next,
    }
}

#[tactic(auto, unfolding(crate::specs::NumbersAt::stamp_at))]
pub fn read_stamp(line: &[u8], at: usize) -> Read<Stamp>
    ensures { result ≡ stamp_at line.now at }
{
    let month = read_node(line, at);
    let day = read_node(line, month.next);
    let hour = read_node(line, day.next);
    let minute = read_node(line, hour.next);
    let second = read_node(line, minute.next);
    let next = second.next;
    let value = match (
        month.value,
        day.value,
        hour.value,
        minute.value,
        second.value,
    ) {
        (Some(month), Some(day), Some(hour), Some(minute), Some(second)) => Some(Stamp {
            month,
            day,
            hour,
            minute,
            second,
        }),
        _ => None,
    };
    Read { value, next }
}
