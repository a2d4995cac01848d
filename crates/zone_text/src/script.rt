//! A whole operation list.
ghost use Rattle.std.specs.Prelude.{◌≡◌, Ok, MatchResult};
ghost use Rattle.zone_text.specs.declared.script.ParseError.TheVariants.{Line, NoMemory};
ghost use Rattle.zone_text.specs.Scripts.{content, with_line, text_meaning, Tells};

use crate::line::parse_line;
use crate::operation::{LineError, Operation};
use crate::separator::Separator;
use model::call::Call;
use std::alloc::{AllocFailed, Global};

/// The operations of a list.
#[derive(Drop)]
pub struct Script {
    /// The bits of the setting, if the list begins with one: any, as in an `Operation`.
    pub setting: Option<u8>,
    pub calls: Vec<Call>,
}

#[derive(Clone, Copy, PartialEq, Eq, Debug)]
pub struct BadLine {
    /// Counted from 1.
    pub number: usize,
    pub error: LineError,
}

#[derive(Clone, Copy, PartialEq, Eq, Debug)]
pub enum ParseError {
    /// The first line that is no operation.
    Line(BadLine),
    NoMemory,
}

impl From<BadLine> for ParseError {
    ghost from_gives = { λ bad e. e ≡ Line bad };

    fn from(bad: BadLine) -> ParseError {
        ParseError::Line(bad)
    }
}

impl<T: Drop> From<AllocFailed<T>> for ParseError {
    ghost from_gives = { λ _ e. e ≡ NoMemory };

    fn from(_error: AllocFailed<T>) -> ParseError {
        ParseError::NoMemory
    }
}

impl Script {
    /// Adds the operation of one more line, if it has one.
    fn add_line(&mut self, number: usize, line: &[u8]) -> Result<(), ParseError>
        ensures { MatchResult result (λ _. with_line number (content self.old) line.now ≡ Ok (content self.new)) (λ e. Tells e (with_line number (content self.old) line.now)) }
    {
        let bad = |error| BadLine { number, error };
        match parse_line(line).map_err(bad)? {
            None => {}
            Some(Operation::Setting(bits)) => {
                if self.setting.is_some() || !self.calls.is_empty() {
                    return Err(ParseError::Line(bad(LineError::SettingNotFirst)));
                }
                self.setting = Some(bits);
            }
            Some(Operation::Run(call)) => self.calls.push(call)?,
        }
        Ok(())
    }
}

/// The operations of a text, or its first line that is none.
pub fn parse(heap: Global, text: &[u8]) -> Result<Script, ParseError>
    ensures { MatchResult result (λ s. text_meaning text.now ≡ Ok (content s)) (λ e. Tells e (text_meaning text.now)) }
{
    let mut script = Script {
        setting: None,
        calls: Vec::new(heap),
    };
    let lines = text.split(|byte| Separator::Newline.separates(*byte));
    for (index, line) in lines.enumerate() {
        script.add_line(index + 1, line)?;
    }
    Ok(script)
}
