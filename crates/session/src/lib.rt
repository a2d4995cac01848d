//! The six calls as a trait over the reference machine's state, and what follows for every list of calls, with no store in sight.
#![tactic(auto)]

pub mod apply;
pub mod binding;
pub mod run;
