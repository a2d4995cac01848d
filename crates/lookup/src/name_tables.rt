//! The tables and stores that declarations read and write.
use tables::scoping::Scoping;

/// The row tables, with the stores of bindings and of hoisted variables.
#[derive(Drop)]
pub struct NameTables<B, H> {
    pub scoping: Scoping,
    pub bindings: B,
    pub hoisting: H,
}
