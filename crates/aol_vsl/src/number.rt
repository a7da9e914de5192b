//! Numbers in texts, and the limits that they pass.

ghost use Rattle.std.specs.Prelude.{◌≡◌, true, false, Some, None, MatchOption, MatchResult, nat_abs, ◌≤◌, ◌<◌, ◌^◌};
ghost use Rattle.aol_shape.specs.Texts.{is_numeral, numeral_value, are_digits, digits_value};
ghost use Rattle.aol_vsl.specs.Text.{vector_limit, column_limit, shape_limit};
ghost use Rattle.aol_vsl.specs.Number.{number_value};

use aol_shape::{LimitName, MAX_DIGITS, MAX_POINTS, MAX_RANK, MAX_VECTOR_ENTRY, is_digit};

/// The sign and the magnitude of a numeral.
#[derive(Clone, Copy)]
pub(crate) struct Number {
    negative: bool,
    magnitude: u64,
}

/// The number that 1 to 19 digits say; none for any other text.
fn magnitude_of(digits: &[u8]) -> Option<u64>
    ensures { MatchOption result (are_digits digits.now ≡ false) (λ n. (are_digits digits.now ≡ true) × (n ≡ digits_value digits.now)) }
{
    if digits.is_empty() || digits.len() > MAX_DIGITS as usize {
        return None;
    }
    let mut value = 0u64;
    for byte in digits {
        if !is_digit(*byte) {
            return None;
        }
        value = 10 * value + u64::from(*byte - b'0');
    }
    Some(value)
}

/// The number that a numeral says; none for any other text.
pub(crate) fn number_of(text: &[u8]) -> Option<Number>
    ensures { MatchOption result (is_numeral text.now ≡ false) (λ n. (is_numeral text.now ≡ true) × (number_value n ≡ numeral_value text.now)) }
{
    match text.split_first() {
        Some((b'-', digits)) => Some(Number {
            negative: true,
            magnitude: magnitude_of(digits)?,
        }),
        _ => Some(Number {
            negative: false,
            magnitude: magnitude_of(text)?,
        }),
    }
}

/// The number as a vector's entry after so many others, or the first limit that it passes there.
pub(crate) fn vector_entry(number: Number, count: usize) -> Result<i32, LimitName>
    ensures { MatchResult result (λ e. (vector_limit count (number_value number) ≡ None) × (e ≡ number_value number)) (λ name. vector_limit count (number_value number) ≡ Some name) }
{
    if count >= MAX_RANK {
        Err(LimitName::Rank)
    } else if number.magnitude > u64::from(MAX_VECTOR_ENTRY) {
        Err(LimitName::Entry)
    } else if number.negative {
        Ok(-(number.magnitude as i32))
    } else {
        Ok(number.magnitude as i32)
    }
}

/// The number as an entry of a matrix's column after so many others, or the first limit that it passes there.
pub(crate) fn column_entry(number: Number, count: usize, column: usize) -> Result<i32, LimitName>
    ensures { MatchResult result (λ e. (column_limit column count (number_value number) ≡ None) × (e ≡ number_value number)) (λ name. column_limit column count (number_value number) ≡ Some name) }
{
    if column >= MAX_RANK {
        Err(LimitName::Rank)
    } else {
        vector_entry(number, count)
    }
}

/// The number as a shape's entry after so many others with so many points, or the first limit that it passes there.
pub(crate) fn shape_entry(number: Number, count: usize, points: u64) -> Result<u32, LimitName>
    requires { points ≤ MAX_POINTS }
    ensures { MatchResult result (λ e. (shape_limit count points (number_value number) ≡ None) × (e ≡ nat_abs (number_value number))) (λ name. shape_limit count points (number_value number) ≡ Some name) }
{
    if count >= MAX_RANK {
        Err(LimitName::Rank)
    } else if number.negative || number.magnitude < 1 || number.magnitude > u64::from(MAX_POINTS) {
        Err(LimitName::Entry)
    } else if points * number.magnitude > u64::from(MAX_POINTS) {
        Err(LimitName::Points)
    } else {
        Ok(number.magnitude as u32)
    }
}
