//! What is said of a text that is no operation list.
ghost use Rattle.std.specs.Prelude.{◌≡◌, Some};
ghost use Rattle.zone_text.specs.Messages.{error_text, bad_line_text, parse_error_text};

use crate::operation::LineError;
use crate::script::{BadLine, ParseError};
use std::error::Error;
use std::fmt;

impl LineError {
    /// What is wrong, in words.
    pub fn message(self) -> &'static str
        ensures { result.now ≡ error_text self }
    {
        match self {
            LineError::UnknownWord => "the first word names no operation",
            LineError::TooFewNumbers => "too few numbers",
            LineError::TooManyWords => "too many words",
            LineError::NotANumber => "a word is no decimal number",
            LineError::NumberTooLarge => "a number is too large for its field",
            LineError::SettingNotFirst => "a setting has to be the first operation",
        }
    }
}

impl fmt::Display for LineError {
    ghost output = { λ e. Some (error_text e) };

    fn fmt<W: fmt::Write>(&self, f: &mut fmt::Formatter<W>) -> fmt::Result {
        write!(f, "{}", self.message())
    }
}

impl fmt::Display for BadLine {
    ghost output = { λ b. Some (bad_line_text b) };

    fn fmt<W: fmt::Write>(&self, f: &mut fmt::Formatter<W>) -> fmt::Result {
        write!(f, "line {}: {}", self.number, self.error)
    }
}

impl fmt::Display for ParseError {
    ghost output = { λ e. Some (parse_error_text e) };

    fn fmt<W: fmt::Write>(&self, f: &mut fmt::Formatter<W>) -> fmt::Result {
        match self {
            ParseError::Line(bad) => write!(f, "{bad}"),
            ParseError::NoMemory => write!(f, "out of memory"),
        }
    }
}

impl Error for LineError {}

impl Error for BadLine {}

impl Error for ParseError {}
