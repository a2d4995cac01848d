//! The builder: the six calls over the row tables and any three stores.
#![tactic(auto)]

pub mod builder;
