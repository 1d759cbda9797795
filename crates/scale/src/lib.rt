// Scales: what the codes of a rule are, how they add and multiply, and how hard each is sent.

#![tactic(auto)]

ghost use Rattle.std.specs.Prelude.{◌≡◌, ℕ};
ghost use Rattle.scale.specs.Model.{ScaleModel, at_code, at_codes};

pub mod accents;
mod codes;
pub mod gates;
pub mod lanes;

// A scale has q codes, the bytes 0 to q - 1. An implementation shows by `model` that they make a field;
// each function answers 0 when a byte given to it is no code.
// kept: 0 and no Option, since the definitions themselves have 0 there, and laws and callers compute with it.
pub trait Scale {
    ghost model: { ScaleModel };

    // q, the number of codes
    fn codes() -> u8
        ensures { result ≡ model.q };

    fn sum(a: u8, b: u8) -> u8
        ensures { result ≡ at_codes model.q model.plus a b };

    fn product(a: u8, b: u8) -> u8
        ensures { result ≡ at_codes model.q model.times a b };

    fn negative(a: u8) -> u8
        ensures { result ≡ at_code model.q model.neg a };

    // the code whose product with a is 1, and 0 for 0
    fn inverse(a: u8) -> u8
        ensures { result ≡ at_code model.q model.inv a };

    // how hard a hit of code a is sent: 0, or 1 to 127
    fn velocity(a: u8) -> u8
        ensures { result ≡ at_code model.q model.velocity a };
}
