//! The rows of the tables.
// A span lies in a row as two plain numbers: so the machine's definitions can write a row with no proof that a declaration's span is ordered.
// Rows name rows by id: their memory is fixed and taken once.
use crate::flags::{ReferenceFlags, ScopeFlags, SymbolFlags};
use crate::id::{Name, NodeId, ReferenceId, ScopeId, SymbolId};

#[derive(Clone, Copy, PartialEq, Eq, Default)]
pub struct ScopeRow {
    /// None for the root.
    pub parent: Option<ScopeId>,
    pub node: NodeId,
    pub flags: ScopeFlags,
}

#[derive(Clone, Copy, PartialEq, Eq, Default)]
pub struct SymbolRow {
    pub name: Name,
    pub start: u32,
    pub end: u32,
    pub flags: SymbolFlags,
    pub scope: ScopeId,
    pub node: NodeId,
}

#[derive(Clone, Copy, PartialEq, Eq, Default)]
pub struct ReferenceRow {
    pub node: NodeId,
    pub flags: ReferenceFlags,
    /// What it was resolved to.
    pub symbol: Option<SymbolId>,
}

/// One of several declarations of a symbol.
#[derive(Clone, Copy, PartialEq, Eq)]
pub struct Redeclaration {
    pub symbol: SymbolId,
    pub start: u32,
    pub end: u32,
    pub node: NodeId,
    pub flags: SymbolFlags,
}

/// Two declarations of a name, of which the second may not stand beside the first.
#[derive(Clone, Copy, PartialEq, Eq)]
pub struct Conflict {
    pub name: Name,
    pub first_start: u32,
    pub first_end: u32,
    pub second_start: u32,
    pub second_end: u32,
}

/// A reference that waits to be resolved, and the scope from which it is looked up.
#[derive(Clone, Copy, PartialEq, Eq)]
pub struct UnresolvedReference {
    pub name: Name,
    pub reference: ReferenceId,
    pub scope: ScopeId,
}

/// A reference in the resolved list of a symbol.
#[derive(Clone, Copy, PartialEq, Eq)]
pub struct ResolvedReference {
    pub symbol: SymbolId,
    pub reference: ReferenceId,
}

/// A reference in a root unresolved list. The name of the list is kept in the root store alone.
#[derive(Clone, Copy, PartialEq, Eq)]
pub struct RootReference {
    pub list: u32,
    pub reference: ReferenceId,
}
