//! The words of a line, one after another.
ghost use Rattle.std.specs.Prelude.{◌≡◌, ℕ, List};
ghost use Rattle.std.specs.Iterator.{YieldsFirstRef, item_count};
ghost use Rattle.zone_text.specs.Pieces.{words};
ghost use Rattle.zone_text.specs.Fields.{first_as, others, ended};

use crate::number::Field;
use crate::operation::LineError;
use crate::separator::{Separator, cut};
use std::marker::Model;

/// What is left of a line that has no comment, seen as its words.
#[derive(Drop)]
pub struct Words<'a> {
    pub rest: &'a [u8],
}

impl<'a> Model for Words<'a> {
    ghost Value = { List (List ℕ) };

    ghost view = { λ line. words line.rest.now };
}

impl<'a> Iterator for Words<'a> {
    type Item = &'a [u8];

    ghost next_gives = { YieldsFirstRef (λ left. left) };

    ghost remaining = { item_count (λ left. left) };

    fn next(&mut self) -> Option<&'a [u8]> {
        let is_part = |byte: &u8| !Separator::Space.separates(*byte);
        let line = self.rest;
        // Where spaces alone are left, a later call finds nothing to look at.
        self.rest = &[];
        let start = line.iter().position(is_part)?;
        let (word, rest) = cut(&line[start..], Separator::Space);
        self.rest = rest;
        Some(word)
    }
}

impl Words<'_> {
    /// The next word as a number of a field.
    pub fn next_number<T: Field>(&mut self) -> Result<T, LineError>
        ensures value { result ≡ first_as T.reads self.old }
        ensures rest { self.new ≡ others self.old }
    {
        T::read(self.next().ok_or(LineError::TooFewNumbers)?)
    }

    /// That no word is left.
    pub fn end(&mut self) -> Result<(), LineError>
        ensures { result ≡ ended self.old tt }
    {
        // A match: the word that is there is the error.
        match self.next() {
            Some(_) => Err(LineError::TooManyWords),
            None => Ok(()),
        }
    }
}
