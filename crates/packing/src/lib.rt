// Bytes packed into words, and back.
#![tactic(auto)]

ghost use Rattle.std.specs.Prelude.{◌≡◌};
ghost use Rattle.std.proofs.lemmas.List.Edits.{sets};
ghost use Rattle.units.specs.Packing.{packed, bytes_of};

// Packs the bytes into the front of out, as many words as it has room for; the words behind them stay. By index, here and in `unpack`: a
// proof knows nothing of what is written through a `zip` with `out.iter_mut()` or through `out.as_chunks_mut()`.
pub fn pack(bytes: &[u8], out: &mut [u16])
    ensures { out.new ≡ sets out.old 0 (packed bytes.now) }
{
    // Lent memory may be longer than a word can say, so a count of it is a usize and no Words.
    let (pairs, odd) = bytes.as_chunks::<2>();
    let n = pairs.len().min(out.len());
    for i in 0..n {
        out[i] = u16::from_be_bytes(pairs[i]);
    }
    // The odd last byte stands in the MSB, and 00 follows.
    if let [b] = odd
        && n < out.len()
    {
        out[n] = u16::from_be_bytes([*b, 0]);
    }
}

// Puts the words' bytes to the front of out, as many as it has room for; the bytes behind them stay.
pub fn unpack(words: &[u16], out: &mut [u8])
    ensures { out.new ≡ sets out.old 0 (bytes_of words.now) }
{
    let n = words.len().min(out.len() / 2);
    for i in 0..n {
        let [msb, lsb] = words[i].to_be_bytes();
        out[i + i] = msb;
        out[i + i + 1] = lsb;
    }
    // The odd last byte is the MSB of a word; its LSB has no place.
    if n < words.len() && n + n < out.len() {
        out[n + n] = words[n].to_be_bytes()[0];
    }
}
