// A byte to a place, at any scale.
ghost use Rattle.std.specs.Prelude.{◌≡◌};
ghost use Rattle.strip.specs.Bytes.{byte_code, byte_row};
ghost use Rattle.std.proofs.Common.{rules};

use super::Strip;
use scale::Scale;
use std::array;
use std::marker::PhantomData;

// A strip in 128 bytes: place p is byte p.
#[derive_where(Clone, Copy)]
pub struct ByteStrip<C: Scale> {
    codes: [u8; 128],
    scale: PhantomData<C>,
}

impl<C: Scale> ByteStrip<C> {
    // The strip that these bytes are; a byte that is no code counts as 0.
    pub fn from_bytes(codes: [u8; 128]) -> Self
        ensures { result.codes ≡ codes }
    {
        ByteStrip {
            codes,
            scale: PhantomData,
        }
    }
}

// The code that a stored byte means: 0 if it is none.
// kept: 0 and no Option, since a stored byte that is no code means 0.
fn code_of<C: Scale>(b: u8) -> u8
    ensures { result ≡ byte_code C.model.q b }
{
    if b < C::codes() { b } else { 0 }
}

impl<C: Scale> Strip for ByteStrip<C> {
    type Codes = C;

    ghost len = { 128 };

    ghost code = { λ s. byte_row C.model.q s.codes };

    ghost long = { Prim.search rules };

    ghost short = { Prim.search rules };

    ghost coded = { Prim.search rules };

    ghost ends = { Prim.search rules };

    fn length() -> usize {
        128
    }

    fn blank() -> Self {
        Self::from_bytes([0; 128])
    }

    fn ask(&self, place: usize) -> u8 {
        self.codes.get(place).map_or(0, |b| code_of::<C>(*b))
    }

    fn put(&mut self, place: usize, c: u8) {
        if place < 128 && c < C::codes() {
            let mut codes = self.codes;
            codes[place] = c;
            *self = Self::from_bytes(codes);
        }
    }

    fn add(&mut self, c: u8, t: &Self) {
        if c > 0 && c < C::codes() {
            *self = Self::from_bytes(array::from_fn(|p| {
                C::sum(self.ask(p), C::product(c, t.ask(p)))
            }));
        }
    }

    fn first(&self) -> usize {
        self.codes
            .iter()
            .position(|b| code_of::<C>(*b) != 0)
            .unwrap_or(128)
    }

    fn equal(&self, other: &Self) -> bool {
        self.codes
            .iter()
            .zip(&other.codes)
            .all(|(a, b)| code_of::<C>(*a) == code_of::<C>(*b))
    }
}
