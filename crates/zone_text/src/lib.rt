//! The text of an operation list: what the program `zone` reads.
#![tactic(auto)]

pub mod examples;
pub mod line;
pub mod message;
pub mod number;
pub mod operation;
pub mod script;
pub mod separator;
pub mod verb;
pub mod words;
