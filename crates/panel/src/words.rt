// The words of a line, and what they mean as numbers and as bytes.
use std::alloc::{AllocError, Global};

fn is_space(b: &u8) -> bool {
    matches!(b, b' ' | b'\t' | b'\r')
}

// The words of a line, parted by spaces.
pub fn words<'a>(heap: Global, line: &'a [u8]) -> Result<Vec<&'a [u8]>, AllocError> {
    line.split(is_space)
        .filter(|word| !word.is_empty())
        .collect(heap)
}

// The number that a word of decimal digits is, if it fits.
// kept: digit by digit, since `parse` takes a plus sign, too, and wants text: the word would be gone over three times.
pub fn number(word: &[u8]) -> Option<u64> {
    if word.is_empty() {
        return None;
    }
    word.iter().try_fold(0u64, |n, b| {
        let digit = char::from(*b).to_digit(10)?;
        n.checked_mul(10)?.checked_add(u64::from(digit))
    })
}

fn hex_digit(b: u8) -> Option<u8> {
    u8::try_from(char::from(b).to_digit(16)?).ok()
}

// The byte that two hexadecimal digits are.
pub fn hex_byte(pair: &[u8]) -> Option<u8> {
    let [high, low] = pair else {
        return None;
    };
    Some(hex_digit(*high)? << 4 | hex_digit(*low)?)
}

// The digit of a number below 16.
pub fn hex_char(n: u8) -> u8 {
    b"0123456789abcdef"[usize::from(n & 15)]
}
