// Words of two bytes, most significant first.
ghost use Rattle.std.specs.Prelude.{◌≡◌};
ghost use Rattle.units.specs.Word.{msb, lsb, word};
ghost use Rattle.units.specs.Packing.{byte_at};

pub fn msb(w: u16) -> u8
    ensures { result ≡ msb w }
{
    (w / 256) as u8
}

pub fn lsb(w: u16) -> u8
    ensures { result ≡ lsb w }
{
    (w % 256) as u8
}

pub fn word(msb: u8, lsb: u8) -> u16
    ensures { result ≡ word msb lsb }
{
    (msb as u16) * 256 + (lsb as u16)
}

// The i-th byte of the words; 0 past their end.
pub fn byte_at(words: &[u16], i: usize) -> u8
    ensures { result ≡ byte_at words.now i }
{
    let at = i / 2;
    if words.len() <= at {
        return 0;
    }
    if i % 2 == 0 {
        return msb(words[at]);
    }
    lsb(words[at])
}
