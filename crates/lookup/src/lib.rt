//! Walks up the scopes: the scopes of a lookup chain, and what is bound along it.
#![tactic(auto)]

pub mod ancestors;
pub mod chain;
pub mod name_tables;
pub mod search;
pub mod sought;
