//! Decimal numbers.
ghost use Rattle.std.specs.Prelude.{◌≡◌, ℕ, ◌^◌, ◌<◌, ◌≤◌, List, IfOk, Result};
ghost use Rattle.zone_text.specs.Numbers.{is_number, number_of, most_8, most_16, most_32};
ghost use Rattle.zone_text.specs.declared.operation.LineError.{LineError};

use crate::operation::LineError;

/// Whether a word has digits alone, and at least one.
fn is_number(word: &[u8]) -> bool
    ensures { result ≡ is_number word.now }
{
    !word.is_empty() && word.iter().all(|byte| byte.is_ascii_digit())
}

/// The number that a word spells, if it is at most the limit.
pub fn number(word: &[u8], limit: u32) -> Result<u32, LineError>
    ensures value { result ≡ number_of limit word.now }
    ensures bound { IfOk result (λ n. n ≤ limit) }
{
    if !is_number(word) {
        return Err(LineError::NotANumber);
    }
    let limit = u64::from(limit);
    let mut value = 0u64;
    for byte in word {
        value = 10 * value + u64::from(*byte - b'0');
        if value > limit {
            return Err(LineError::NumberTooLarge);
        }
    }
    Ok(value as u32)
}

/// The widths that the field of a line may have.
// Three impls and no `TryFrom<u32>`: a field has the limit of its width, which no conversion tells.
pub trait Field: Sized {
    ghost reads: { List ℕ → Result Self LineError };

    /// The number that a word spells, if it fits the field.
    fn read(word: &[u8]) -> Result<Self, LineError>
        ensures { result ≡ reads word.now };
}

impl Field for u8 {
    ghost reads = { number_of most_8 };

    fn read(word: &[u8]) -> Result<u8, LineError> {
        let number = number(word, u32::from(u8::MAX))?;
        Ok(number as u8)
    }
}

impl Field for u16 {
    ghost reads = { number_of most_16 };

    fn read(word: &[u8]) -> Result<u16, LineError> {
        let number = number(word, u32::from(u16::MAX))?;
        Ok(number as u16)
    }
}

impl Field for u32 {
    ghost reads = { number_of most_32 };

    fn read(word: &[u8]) -> Result<u32, LineError> {
        number(word, u32::MAX)
    }
}
