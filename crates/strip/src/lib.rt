// Strips: rows of codes of one scale, in whatever layout a build stores them.

#![tactic(auto)]

ghost use Rattle.std.specs.Prelude.{◌≡◌, ℕ, ◌<◌, ◌≤◌, T};
ghost use Rattle.strip.specs.Row.{Row, zeros, First, Put, Added};

use scale::Scale;

pub mod accents;
pub mod bytes;
pub mod gates;
pub mod lanes;

// A strip means a row of codes at the places 0 to L - 1, L from 64 to 128, and 0 at every place from L on.
// A stored pattern that is no code counts as 0 throughout.
pub trait Strip: Copy + Sized {
    type Codes: Scale;

    // L
    ghost len: { ℕ };

    // what the strip holds at each place
    ghost code: { Self → ℕ → ℕ };

    fn length() -> usize
        ensures { result ≡ len };

    fn blank() -> Self
        ensures { code result ≡ zeros };

    // The code at a place, 0 from place L on.
    // kept: 0 and no Option, since the row that a strip means has 0 there.
    fn ask(&self, place: usize) -> u8
        ensures { result ≡ code self.now place };

    // Puts a code at a place, and changes nothing if there is no such place or c is no code.
    fn put(&mut self, place: usize, c: u8)
        ensures { Put len Self.Codes.Scale.model.q (code self.old) place c (code self.new) };

    // Adds c times t, and changes nothing if c is no code.
    fn add(&mut self, c: u8, t: &Self)
        ensures { Added Self.Codes.Scale.model (code self.old) c (code t.now) (code self.new) };

    // The lowest place whose code is not 0, or L.
    // kept: an Option would be no plainer: callers compare the place with the size of a table, and no table is longer than L
    fn first(&self) -> usize
        ensures { First len (code self.now) result };

    // Whether all places are equal.
    // kept: no PartialEq, since strips are equal by what they mean: a stored pattern that is no code counts as 0.
    fn equal(&self, other: &Self) -> bool
        ensures same { T result → code self.now ≡ code other.now }
        ensures all { code self.now ≡ code other.now → T result };

    ghost long: { 64 ≤ len };

    ghost short: { len ≤ 128 };

    ghost coded: { (s : Self) (p : ℕ) → code s p < Self.Codes.Scale.model.q };

    ghost ends: { (s : Self) (p : ℕ) → len ≤ p → code s p ≡ 0 };
}
