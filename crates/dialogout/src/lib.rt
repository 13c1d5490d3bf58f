// The lines out of the console. The caller sees to the room.
#![tactic(auto)]

ghost use Rattle.std.specs.Prelude.{◌+◌, ◌≤◌, length};
ghost use Rattle.text.specs.Text.{Put};
ghost use Rattle.meaning.specs.Packet.{overall};
ghost use Rattle.meaning.specs.Response.{shown};
ghost use Rattle.promise.specs.Obeyed.{said_of};
ghost use Rattle.dialog.specs.Dialog.{unreadable_line, collected_line, said_line, store_line, longest_answer};

use listingout::put_refused;
use promise::Reply;
use responseout::bears;
use text::{put, put_decimal, put_text};
use units::Form;
use units::word::word;
use wordsout::{put_hex, put_words};

// No line out is longer, its line feed counted.
pub const LONGEST_ANSWER: usize = 691;

pub fn put_unreadable(out: &mut [u8], at: usize) -> usize
    requires { at + 11 ≤ length out.old }
    ensures { Put out.old at unreadable_line out.new result }
{
    put_text(out, at, b"unreadable\n")
}

// What is said to every call but collect.
pub fn put_said(out: &mut [u8], at: usize, reply: Reply) -> usize
    requires { at + 14 ≤ length out.old }
    ensures { Put out.old at (said_line (said_of reply)) out.new result }
{
    match reply {
        Reply::Refused(number) => put_refused(out, at, number),
        Reply::Done => put_text(out, at, b"done\n"),
        Reply::Quiet => put_text(out, at, b"quiet\n"),
        Reply::Queued => put_text(out, at, b"queued\n"),
    }
}

// The handover number, and the words of an answer of a node, in a form: with word 00 where the form has it.
pub fn put_handed(
    out: &mut [u8],
    at: usize,
    number: u16,
    form: Form,
    node: u8,
    words: &[u16],
) -> usize
    requires { (at + longest_answer ≤ length out.old) × (1 ≤ length words.now) × (length words.now ≤ overall 255) }
    ensures { Put out.old at (collected_line number (shown form node words.now)) out.new result }
{
    let from = put_text(out, at, b"collected ");
    let end = put_decimal(out, from, number as usize);
    let to = put(out, end, 32);
    if bears(form, node) {
        let next = put_hex(out, to, word(0xFF, node));
        let then = put(out, next, 32);
        return put_words(out, then, words);
    }
    put_words(out, to, words)
}

// Words of the answer store.
pub fn put_store(out: &mut [u8], at: usize, words: &[u16]) -> usize
    requires { (at + longest_answer ≤ length out.old) × (length words.now ≤ 128) }
    ensures { Put out.old at (store_line words.now) out.new result }
{
    let to = put_text(out, at, b"store ");
    put_words(out, to, words)
}
