//! An operation of a list, and what can be wrong with a line.
use model::call::Call;

#[derive(Clone, Copy)]
pub enum Operation {
    /// The bits of the setting under which the list is run: any, since bits that are not listed are no bad line but a refusal.
    Setting(u8),
    Run(Call),
}

/// What is wrong with a line.
#[derive(Clone, Copy, PartialEq, Eq, Debug)]
pub enum LineError {
    /// The first word names no operation.
    UnknownWord,
    /// The operation takes more numbers.
    TooFewNumbers,
    /// The operation takes fewer numbers.
    TooManyWords,
    /// A word where a number is due has a byte that is no digit.
    NotANumber,
    /// A number does not fit the width of its field.
    NumberTooLarge,
    /// A setting after another operation.
    SettingNotFirst,
}
