//! Row tables with fixed limits: ids, flags, spans, rows, refusals, and `Scoping`, which holds the rows.
#![tactic(auto)]

pub mod entry;
pub mod flags;
pub mod id;
pub mod limits;
pub mod owned;
pub mod refusal;
pub mod row;
mod rows;
pub mod scoping;
pub mod span;
