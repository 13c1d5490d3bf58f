// The project's functions for C: a slice is a pointer and a length (bench/ours.h).
#![tactic(auto)]

ghost use Rattle.std.specs.Prelude.{◌≡◌, true, cond, ◌*◌, ◌≤◌, leb, length};
ghost use Rattle.std.proofs.lemmas.List.Edits.{sets};
ghost use Rattle.listing.specs.Listing.{listing, longest_listing};
ghost use Rattle.dialog.specs.Dialog.{lines_of, conversation, longest_answer};

use conversation::{Text, converse};
use nightrun::{Listed, list};

// The listing of a run file, at the front of the output, and its length. An output of less than 2,600,000 bytes could be too short: it
// stays as it is, and the length is the largest there is.
#[unsafe(no_mangle)]
pub extern "C" fn rashdumof_night(file: &[u8], out: &mut [u8]) -> usize
    ensures value { result ≡ cond (leb longest_listing (length out.old)) (length (listing file.now))
        18446744073709551615 }
    ensures out_after { out.new ≡ cond (leb longest_listing (length out.old))
        (sets out.old 0 (listing file.now)) out.old }
    ensures file_in_bounds { leb longest_listing (length out.old) ≡ true → length (listing file.now) ≤ length
        out.old }
{
    match list(file, out) {
        Listed::Written(n) => n,
        Listed::TooShort => usize::MAX,
    }
}

// The conversation with a fresh gateway, at the front of the output, and its length. An output of less than 691 bytes for each line of the
// input could be too short: it stays as it is, and the length is the largest there is.
#[unsafe(no_mangle)]
pub extern "C" fn rashdumof_console(input: &[u8], out: &mut [u8]) -> usize
    ensures value { result ≡ cond (leb (length (lines_of input.now) * longest_answer) (length out.old))
        (length (conversation input.now)) 18446744073709551615 }
    ensures out_after { out.new ≡ cond (leb (length (lines_of input.now) * longest_answer) (length out.old))
        (sets out.old 0 (conversation input.now)) out.old }
    ensures input_in_bounds { leb (length (lines_of input.now) * longest_answer) (length out.old) ≡ true → length
        (conversation input.now) ≤ length out.old }
{
    match converse(input, out) {
        Text::Written(n) => n,
        Text::TooShort => usize::MAX,
    }
}
