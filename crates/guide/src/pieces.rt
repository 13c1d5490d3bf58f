// The pieces that a line is made of: each has a text, and says how much room it asks for.
ghost use Rattle.std.specs.Prelude.{ℕ, List, ◌+◌, ◌*◌, ◌≤◌, ◌≡◌, leb, length};
ghost use Rattle.text.specs.Text.{Put, bytes_hex_of, decimal_of};
ghost use Rattle.guide.specs.Say.{two_of};

use text::{put, put_bytes, put_decimal, put_text};

pub trait Piece {
    ghost text: { Self → List ℕ };

    ghost room: { Self → ℕ };

    // Whether so many bytes are room enough.
    fn fits(&self, left: usize) -> bool
        ensures { result ≡ leb (room self.now) left };

    fn put(&self, out: &mut [u8], at: usize) -> usize
        requires { at + room self.now ≤ length out.old }
        ensures written { Put out.old at (text self.now) out.new result }
        ensures short { length (text self.now) ≤ room self.now };
}

impl Piece for &str {
    ghost text = { λ s. s.now };

    ghost room = { λ s. length s.now };

    fn fits(&self, left: usize) -> bool {
        self.len() <= left
    }

    fn put(&self, out: &mut [u8], at: usize) -> usize {
        put_text(out, at, self.as_bytes())
    }
}

// Bytes as they are.
impl Piece for &[u8] {
    ghost text = { λ s. s.now };

    ghost room = { λ s. length s.now };

    fn fits(&self, left: usize) -> bool {
        self.len() <= left
    }

    fn put(&self, out: &mut [u8], at: usize) -> usize {
        put_text(out, at, self)
    }
}

// Bytes, two digits each.
#[derive(Clone, Copy)]
pub struct Hex<'a>(pub &'a [u8]);

impl Piece for Hex<'_> {
    ghost text = { λ s. bytes_hex_of s.0.now };

    ghost room = { λ s. 2 * length s.0.now };

    fn fits(&self, left: usize) -> bool {
        self.0.len() <= left / 2
    }

    #[tactic(auto, using(text::proofs::Writing::length_bytes))]
    fn put(&self, out: &mut [u8], at: usize) -> usize {
        put_bytes(out, at, self.0)
    }
}

// A number has at most 20 digits.
#[derive(Clone, Copy)]
pub struct Decimal(pub usize);

impl Piece for Decimal {
    ghost text = { λ n. decimal_of n.0 };

    ghost room = { λ _. 20 };

    fn fits(&self, left: usize) -> bool {
        20 <= left
    }

    #[tactic(auto, using(crate::proofs::Saying::decimal_twenty))]
    fn put(&self, out: &mut [u8], at: usize) -> usize {
        put_decimal(out, at, self.0)
    }
}

// A number of two digits, as in a time of day.
#[derive(Clone, Copy)]
pub struct Two(pub u8);

impl Piece for Two {
    ghost text = { λ n. two_of n.0 };

    ghost room = { λ _. 2 };

    fn fits(&self, left: usize) -> bool {
        2 <= left
    }

    #[tactic(auto, using(text::proofs::Writing::put_then), unfolding(crate::specs::Say::two_of))]
    fn put(&self, out: &mut [u8], at: usize) -> usize {
        let ones = put(out, at, 48 + self.0 / 10 % 10);
        put(out, ones, 48 + self.0 % 10)
    }
}
