//! What becomes of a pending reference, and when that is decided.
use tables::id::{ScopeId, SymbolId};

#[derive(Clone, Copy, PartialEq, Eq)]
pub enum Fate {
    Resolve(SymbolId),
    /// It goes to the root unresolved list of its name.
    ListAtRoot,
    /// It stays pending, to be looked up from this scope.
    Stay(ScopeId),
}

/// The end of a scope, which defers to the parent what it does not resolve. At the end of the program there is none.
#[derive(Clone, Copy, PartialEq, Eq)]
pub struct EndOfScope {
    pub scope: ScopeId,
    pub parent: ScopeId,
}
