// The words of a line, and words as numbers: the reference's own reading, so that an error of `texts` is none of it.
use std::alloc::{AllocError, Global};

fn is_blank(byte: u8) -> bool {
    matches!(byte, b' ' | b'\t' | b'\r' | b'\n')
}

pub fn words_of<'a>(alloc: Global, line: &'a [u8]) -> Result<Vec<&'a [u8]>, AllocError> {
    line.split(|byte| is_blank(*byte))
        .filter(|word| !word.is_empty())
        .collect(alloc)
}

// The value of a word of digits alone, or the most that can be counted where it is more.
fn value_of(word: &[u8]) -> Option<u128> {
    if word.is_empty() {
        return None;
    }
    let mut value: u128 = 0;
    for byte in word {
        let digit = char::from(*byte).to_digit(10)?;
        value = value.saturating_mul(10).saturating_add(u128::from(digit));
    }
    Some(value)
}

// A number of a command: digits alone, below 2^64.
pub fn number_of(word: &[u8]) -> Option<u64> {
    u64::try_from(value_of(word)?).ok()
}

// A number of a row: below 2^63, behind a minus sign or not.
pub fn row_number_of(word: &[u8]) -> Option<i64> {
    match word {
        [b'-', digits @ ..] => Some(i64::try_from(value_of(digits)?).ok()?.wrapping_neg()),
        _ => i64::try_from(value_of(word)?).ok(),
    }
}

// Whether a line of such words can be a row of a map.
pub fn is_row(words: &[&[u8]]) -> bool {
    matches!(words, [[b'0'..=b'9' | b'-', ..], ..])
}

// All words as numbers, or none where one of them is none, which is no error of the call.
pub fn numbers_of<T: Drop, F: Fn(&[u8]) -> Option<T>>(
    alloc: Global,
    words: &[&[u8]],
    number_of: F,
) -> Result<Option<Vec<T>>, AllocError>
    requires { F.IsAlwaysCallable number_of }
{
    let mut numbers = Vec::new(alloc);
    for word in words {
        let Some(number) = number_of(word) else {
            return Ok(None);
        };
        numbers.push(number)?;
    }
    Ok(Some(numbers))
}
