//! What a declaration does to the names. Its functions require the room that the call has tested.
#![tactic(auto)]

pub mod declare;
pub mod dispatch;
mod hoist;
