//! What the binder is to do: calls and answers as plain data, and the reference machine as definitions. The laws over its runs are in `laws`.
//! No code of this crate runs in a binding but `Setting::try_from`.
#![tactic(auto)]

pub mod call;
pub mod manner;
pub mod setting;
