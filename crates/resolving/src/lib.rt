//! What becomes of pending references. Its functions require the room, and the places of the pending list, that the call has tested.
#![tactic(auto)]

pub mod fate;
pub mod resolve;
pub mod settle;
