// Words moved: copied from elsewhere, moved up or down within their slice, and made 0. Nothing here knows what they mean.
#![tactic(auto)]

ghost use Rattle.std.specs.Prelude.{◌≡◌, ◌+◌, ◌≤◌, length, replicate};
ghost use Rattle.std.proofs.lemmas.List.Edits.{sets};
ghost use Rattle.moves.specs.Moved.{inserted, removed};

// Copies all of src into dst from a place on.
// Kept: a loop. Where the compiler cannot tell that two slices lie apart, it makes a call of `memmove` of `copy_from_slice`: a name that the
// archive for C did not want from outside before.
pub fn copy_in(src: &[u16], dst: &mut [u16], to: usize)
    requires { to + length src.now ≤ length dst.old }
    ensures { dst.new ≡ sets dst.old to src.now }
{
    for i in 0..src.len() {
        dst[to + i] = src[i];
    }
}

// Puts words in at a place. Those from there to `end` move up, over what lay behind them.
pub fn insert(words: &mut [u16], at: usize, end: usize, new: &[u16])
    requires { (at ≤ end) × (end + length new.now ≤ length words.old) }
    ensures { words.new ≡ inserted words.old at end new.now }
{
    words.copy_within(at..end, at + new.len());
    copy_in(new, words, at);
}

// Takes so many words out at a place. Those behind them, to `end`, move down, and zeros come in behind.
pub fn remove(words: &mut [u16], at: usize, end: usize, count: usize)
    requires { (at + count ≤ end) × (end ≤ length words.old) }
    ensures { words.new ≡ removed words.old at end count }
{
    words.copy_within(at + count..end, at);
    words[end - count..end].fill(0);
}

// Makes every word 0.
pub fn wipe(words: &mut [u16])
    ensures { words.new ≡ replicate (length words.old) 0 }
{
    words.fill(0);
}
