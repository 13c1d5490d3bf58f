// The fields of a line, and the words of the table.
#![tactic(auto)]

ghost use Rattle.std.specs.Prelude.{◌≡◌, ◌≤◌, cond, leb, length, slice_get, option_copied};
ghost use Rattle.dialog.specs.Spoken.{is_form, form_of};
ghost use Rattle.fields.specs.FieldsAt.{fields_from, FieldAt, place_after, verb_of};

use units::Form;

// A line's first field, of a call or a look at the store.
#[derive(Clone, Copy)]
pub enum Verb {
    Command,
    Check,
    Arrive,
    Leave,
    Collect,
    Acknowledge,
    Store,
}

// What the field at a place of the line says, and the place of the field after it, past the line's end where there is none.
#[derive(Clone, Copy)]
pub struct Read<T> {
    pub value: Option<T>,
    pub next: usize,
}

impl<T: Copy> Read<T> {
    // What the line's last field says: nothing where one more follows.
    pub fn last(self, line: &[u8]) -> Option<T>
        ensures { result ≡ cond (leb self.next (length line.now)) None self.value }
    {
        if self.next <= line.len() {
            return None;
        }
        self.value
    }
}

// Where the field that begins at a place ends: at the next blank, or with the line.
fn field_end(line: &[u8], at: usize) -> usize
    requires { at ≤ length line.now }
    ensures { FieldAt line.now at result }
{
    match line[at..].iter().position(|c| *c == b' ') {
        Some(n) => at + n,
        None => line.len(),
    }
}

// The field at a place, as it stands.
#[tactic(auto, using(crate::proofs::Places::places))]
pub fn read_field(line: &[u8], at: usize) -> Read<&[u8]>
    ensures value { option_copied result.value ≡ slice_get (fields_from line.now at) 0 }
    ensures next { result.next ≡ place_after line.now at }
{
    if line.len() < at {
        return Read {
            value: None,
            next: at,
        };
    }
    let end = field_end(line, at);
    Read {
        value: Some(&line[at..end]),
        next: end + 1,
    }
}

#[tactic(auto, using(crate::proofs::Bytes::verbs))]
pub fn verb_of(field: &[u8]) -> Option<Verb>
    ensures { result ≡ verb_of field.now }
{
    match field {
        b"command" => Some(Verb::Command),
        b"check" => Some(Verb::Check),
        b"arrive" => Some(Verb::Arrive),
        b"leave" => Some(Verb::Leave),
        b"collect" => Some(Verb::Collect),
        b"acknowledge" => Some(Verb::Acknowledge),
        b"store" => Some(Verb::Store),
        _ => None,
    }
}

#[tactic(auto, using(crate::proofs::Bytes::same_at))]
pub fn form_of(field: &[u8]) -> Option<Form>
    ensures { result ≡ cond (is_form field.now) (Some (form_of field.now)) None }
{
    match field {
        b"framed" => Some(Form::Framed),
        b"register" => Some(Form::Register),
        _ => None,
    }
}
