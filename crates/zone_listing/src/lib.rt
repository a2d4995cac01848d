//! The lines of a listing, which the program `zone` writes: one for each answer, and then one for each row of each table.
#![tactic(auto)]

pub mod answer;
pub mod entries;
pub mod rows;
