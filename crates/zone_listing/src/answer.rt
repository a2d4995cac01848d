//! The line of an answer.
ghost use Rattle.std.specs.Prelude.{Some};
ghost use Rattle.zone_listing.specs.Listing.{answer_line};

use model::call::{Answer, Granted};
use std::fmt;

/// The answer of a call, as a line.
#[derive(Clone, Copy)]
pub struct AnswerLine(pub Answer);

impl fmt::Display for AnswerLine {
    ghost output = { λ x. Some (answer_line x.0) };

    fn fmt<W: fmt::Write>(&self, f: &mut fmt::Formatter<W>) -> fmt::Result {
        // Ids, counts and refusals are printed as their numbers, here alone.
        match self.0 {
            Ok(Granted::Scope(id)) => write!(f, "scope {}", id.0),
            Ok(Granted::Symbol(id)) => write!(f, "symbol {}", id.0),
            Ok(Granted::Reference(id)) => write!(f, "reference {}", id.0),
            Ok(Granted::Counted(counts)) => write!(
                f,
                "counts resolved {} root {} pending {}",
                counts.resolved, counts.root, counts.pending
            ),
            Err(refusal) => write!(f, "refused {}", refusal.number()),
        }
    }
}
