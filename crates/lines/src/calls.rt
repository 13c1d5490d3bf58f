// The lines of the table: each from the place after its first field, and none where it is no call. Behind a field with which the line is no
// call none is looked for: a line may be long.
ghost use Rattle.std.specs.Prelude.{◌≡◌};
ghost use Rattle.std.proofs.lemmas.List.Edits.{sets};
ghost use Rattle.dialog.specs.Spoken.{command_said, check_said, arrive_said, leave_said, collect_said, acknowledge_said, store_said};
ghost use Rattle.fields.specs.FieldsAt.{fields_from};
ghost use Rattle.lines.specs.Heard.{readable, words_in, id_in, bytes_in};

use crate::{Heard, LONGEST_ID, LONGEST_PLAQUE, MOST_WORDS};
use fields::{form_of, read_field};
use hexwords::{count_words, is_bytes, put_bytes, put_words};
use numbers::{read_node, read_number, read_stamp};
use units::Words;

#[tactic(auto, using(crate::proofs::Found::commands))]
pub fn read_command(line: &[u8], at: usize, words: &mut [u16]) -> Option<Heard>
    ensures value { result ≡ readable (command_said (fields_from line.now at)) }
    ensures words_after { words.new ≡ sets words.old 0 (words_in (command_said (fields_from line.now at))) }
{
    let t = read_stamp(line, at);
    let stamp = t.value?;
    let f = read_field(line, t.next);
    let form = form_of(f.value?)?;
    let count = count_words(line, f.next)?;
    if MOST_WORDS < count {
        return None;
    }
    put_words(line, f.next, words);
    let words = Words(count as u16);
    Some(Heard::Command { stamp, form, words })
}

#[tactic(auto, using(crate::proofs::Found::check_reads))]
pub fn read_check(line: &[u8], at: usize) -> Option<Heard>
    ensures { result ≡ readable (check_said (fields_from line.now at)) }
{
    let n = read_node(line, at);
    let node = n.value?;
    let t = read_stamp(line, n.next);
    let stamp = t.value?;
    let c = read_number(line, t.next, u32::MAX);
    let clock = c.last(line)?;
    Some(Heard::Check { node, stamp, clock })
}

#[tactic(auto, using(crate::proofs::Found::arrivals))]
pub fn read_arrive(line: &[u8], at: usize, id: &mut [u8], bytes: &mut [u8]) -> Option<Heard>
    ensures value { result ≡ readable (arrive_said (fields_from line.now at)) }
    ensures id_after { id.new ≡ sets id.old 0 (id_in (arrive_said (fields_from line.now at))) }
    ensures bytes_after { bytes.new ≡ sets bytes.old 0 (bytes_in (arrive_said (fields_from line.now at))) }
{
    let n = read_node(line, at);
    let node = n.value?;
    let i = read_field(line, n.next);
    let named = i.value?;
    let b = read_field(line, i.next);
    let held = b.last(line)?;
    if !is_bytes(named, LONGEST_ID) || !is_bytes(held, LONGEST_PLAQUE) {
        return None;
    }
    Some(Heard::Arrive {
        node,
        id: put_bytes(named, LONGEST_ID, id),
        bytes: put_bytes(held, LONGEST_PLAQUE, bytes),
    })
}

#[tactic(auto, using(crate::proofs::Found::leave_reads))]
pub fn read_leave(line: &[u8], at: usize) -> Option<Heard>
    ensures { result ≡ readable (leave_said (fields_from line.now at)) }
{
    let n = read_node(line, at);
    Some(Heard::Leave(n.last(line)?))
}

#[tactic(auto, using(crate::proofs::Found::collect_reads))]
pub fn read_collect(line: &[u8], at: usize) -> Option<Heard>
    ensures { result ≡ readable (collect_said (fields_from line.now at)) }
{
    let n = read_node(line, at);
    let node = n.value?;
    let f = read_field(line, n.next);
    Some(Heard::Collect(node, form_of(f.last(line)?)?))
}

#[tactic(auto, using(crate::proofs::Found::acknowledge_reads))]
pub fn read_acknowledge(line: &[u8], at: usize) -> Option<Heard>
    ensures { result ≡ readable (acknowledge_said (fields_from line.now at)) }
{
    let n = read_node(line, at);
    let node = n.value?;
    let k = read_number(line, n.next, 65535);
    Some(Heard::Acknowledge(node, k.last(line)? as u16))
}

#[tactic(auto, using(crate::proofs::Found::store_reads))]
pub fn read_store(line: &[u8], at: usize) -> Option<Heard>
    ensures { result ≡ readable (store_said (fields_from line.now at)) }
{
    let f = read_number(line, at, 4095);
    let first = f.value? as u16;
    let k = read_number(line, f.next, 128);
    let count = k.last(line)? as u16;
    // The numbers are within their limits, so that their sum fits.
    if count == 0 || Words::STORE.0 < first + count {
        return None;
    }
    Some(Heard::Store(first, count))
}
