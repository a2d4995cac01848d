//! A store that keeps its pairs in order of arrival, in memory that is lent to it.
#![tactic(auto)]

pub mod entry;
pub mod list;
