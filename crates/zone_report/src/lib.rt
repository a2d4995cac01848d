//! Runs a list of calls over three stores, and writes its answers and tables in the plain form.
#![tactic(auto)]

pub mod no_memory;
mod report;
mod script_names;
mod stores_lent;
mod table_writer;

pub use stores_lent::{report_hashed, report_listed};
