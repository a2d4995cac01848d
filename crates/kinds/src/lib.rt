//! The kinds of declarations: which there are, how one is checked, and what it tells.
#![tactic(auto)]

pub mod binder;
pub mod checked;
pub mod kind;
pub mod modifiers;
pub mod told;
