// Gates: two codes, a hit and none.
ghost use Rattle.scale.specs.Gates.{gates};

use super::Scale;
use super::codes::{own, xor};

#[derive(Clone, Copy)]
pub struct Gates;

impl Scale for Gates {
    ghost model = { gates };

    fn codes() -> u8 {
        2
    }

    fn sum(a: u8, b: u8) -> u8 {
        xor::<2>(a, b)
    }

    fn product(a: u8, b: u8) -> u8 {
        if a < 2 && b < 2 { a & b } else { 0 }
    }

    fn negative(a: u8) -> u8 {
        own::<2>(a)
    }

    fn inverse(a: u8) -> u8 {
        own::<2>(a)
    }

    fn velocity(a: u8) -> u8 {
        if a < 2 { 100 * a } else { 0 }
    }
}
