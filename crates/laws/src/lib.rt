//! The laws over runs of the reference machine. The check asks for the proof of a theorem where a contract names it, so each is the contract of a
//! function that does nothing: no plainer form names one.
#![tactic(auto)]

pub mod bindings;
pub mod conflicts;
pub mod early_errors;
pub mod first_fit;
pub mod get_identifier_reference;
pub mod longer;
pub mod never_full;
pub mod once;
pub mod refused;
pub mod scripts;
pub mod words;
