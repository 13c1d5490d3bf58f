// A line as it is written: the bytes lent for it, and the place where it goes on, which may be past them. A piece that no longer fits is
// left out.
ghost use Rattle.std.specs.Prelude.{◌≡◌, length, take};

use crate::pieces::{Decimal, Piece};

#[derive(Drop)]
pub struct Line<'a> {
    pub bytes: &'a mut [u8],
    pub at: usize,
}

impl Line<'_> {
    ghost use Rattle.guide.specs.Say.{Onward, Said, Labelled, same_text};

    // What is written so far.
    pub fn text(&self) -> &[u8]
        ensures { result.now ≡ take self.now.at self.now.bytes.now }
    {
        self.bytes.get(..self.at).unwrap_or(self.bytes)
    }

    pub fn say<P: Piece + Drop>(&mut self, piece: P)
        ensures { Said self.old (P.room piece) (P.text piece) self.new }
    {
        if self.at <= self.bytes.len() && piece.fits(self.bytes.len() - self.at) {
            self.at = piece.put(self.bytes, self.at);
        }
    }

    pub fn say_as<P: Piece + Drop>(&mut self, label: &str, piece: P)
        ensures { Labelled self.old label.now (P.room piece) (P.text piece) self.new }
    {
        self.say(label);
        self.say(piece);
    }

    #[tactic(auto, unfolding(crate::specs::Say::same_text))]
    pub fn say_same(&mut self, same: bool)
        ensures { Said self.old (length (same_text same)) (same_text same) self.new }
    {
        self.say(if same { " same\n" } else { " DIFFERENT\n" });
    }

    pub fn say_refused(&mut self, refusal: u8)
        ensures { Onward self.old self.new }
    {
        self.say_as("refused ", Decimal(refusal as usize));
        self.say("\n");
    }
}
