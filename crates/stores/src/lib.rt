//! What a store of pairs promises: its keys, its memory, its meaning as a set of pairs, and its methods as equations on it.
#![tactic(auto)]

pub mod facts;
pub mod key;
pub mod places;
pub mod store;
