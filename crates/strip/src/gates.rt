// Gates in two words of 64 bits: place p is bit p % 64 of word p / 64.
ghost use Rattle.std.specs.Prelude.{◌≡◌};
ghost use Rattle.strip.specs.Words.{bit_row};
ghost use Rattle.strip.specs.WordRows.{row_below};
ghost use Rattle.std.proofs.Common.{rules};

use super::Strip;
use scale::gates::Gates;

#[derive(Clone, Copy)]
pub struct GateStrip {
    words: [u64; 2],
}

impl GateStrip {
    // The strip that these words are; each bit is a code.
    pub fn from_words(words: [u64; 2]) -> Self
        ensures { result.words ≡ words }
    {
        GateStrip { words }
    }
}

impl Strip for GateStrip {
    type Codes = Gates;

    ghost len = { 128 };

    ghost code = { λ s. bit_row s.words };

    ghost long = { Prim.search rules };

    ghost short = { Prim.search rules };

    ghost coded = { λ s p. row_below s.words p };

    ghost ends = { Prim.search rules };

    fn length() -> usize {
        128
    }

    fn blank() -> Self {
        GateStrip { words: [0; 2] }
    }

    fn ask(&self, place: usize) -> u8 {
        if place < 128 {
            (self.words[place / 64] >> (place % 64) & 1) as u8
        } else {
            0
        }
    }

    fn put(&mut self, place: usize, c: u8) {
        if place < 128 && c < 2 && self.ask(place) != c {
            let mut words = self.words;
            words[place / 64] ^= 1 << (place % 64);
            *self = GateStrip { words };
        }
    }

    fn add(&mut self, c: u8, t: &Self) {
        if c == 1 {
            let words = [self.words[0] ^ t.words[0], self.words[1] ^ t.words[1]];
            *self = GateStrip { words };
        }
    }

    fn first(&self) -> usize {
        let low = self.words[0].trailing_zeros() as usize;
        if low < 64 {
            low
        } else {
            64 + self.words[1].trailing_zeros() as usize
        }
    }

    fn equal(&self, other: &Self) -> bool {
        // kept: `self.words == other.words` was tried: of words that are compared as a whole, not one by one, the check isn't told that they are below 2^64
        self.words[0] == other.words[0] && self.words[1] == other.words[1]
    }
}
