// Accents: 127 codes, the remainders by 127.
ghost use Rattle.scale.specs.Accents.{accents};

use super::Scale;
use super::codes::{entry, own};

#[derive(Clone, Copy)]
pub struct Accents;

// the inverse of a stands at a
#[rattlefmt::skip]
const INVERSES: [u8; 127] = [
    0, 1, 64, 85, 32, 51, 106, 109, 16, 113, 89, 104, 53, 88, 118, 17,
    8, 15, 120, 107, 108, 121, 52, 116, 90, 61, 44, 80, 59, 92, 72, 41,
    4, 77, 71, 98, 60, 103, 117, 114, 54, 31, 124, 65, 26, 48, 58, 100,
    45, 70, 94, 5, 22, 12, 40, 97, 93, 78, 46, 28, 36, 25, 84, 125,
    2, 43, 102, 91, 99, 81, 49, 34, 30, 87, 115, 105, 122, 33, 57, 82,
    27, 69, 79, 101, 62, 3, 96, 73, 13, 10, 24, 67, 29, 56, 50, 123,
    86, 55, 35, 68, 47, 83, 66, 37, 11, 75, 6, 19, 20, 7, 112, 119,
    110, 9, 39, 74, 23, 38, 14, 111, 18, 21, 76, 95, 42, 63, 126,
];

impl Scale for Accents {
    ghost model = { accents };

    fn codes() -> u8 {
        127
    }

    fn sum(a: u8, b: u8) -> u8 {
        if a < 127 && b < 127 { (a + b) % 127 } else { 0 }
    }

    fn product(a: u8, b: u8) -> u8 {
        if a < 127 && b < 127 {
            (a as u16 * b as u16 % 127) as u8
        } else {
            0
        }
    }

    fn negative(a: u8) -> u8 {
        if a < 127 { (127 - a) % 127 } else { 0 }
    }

    fn inverse(a: u8) -> u8 {
        entry(&INVERSES, a)
    }

    fn velocity(a: u8) -> u8 {
        own::<127>(a)
    }
}
