//! A store that finds its pairs by the hash numbers of their keys, in memory that is lent to it.
#![tactic(auto)]

pub mod hash;
mod probe;
pub mod slot;
