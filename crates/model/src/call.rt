//! The calls of a builder and their answers, as values.
use tables::flags::{ReferenceFlags, ScopeFlags};
use tables::id::{Name, NodeId, ReferenceId, ScopeId, SymbolId};
use tables::refusal::Refusal;

#[derive(Clone, Copy, PartialEq, Eq)]
pub struct NewScope {
    pub flags: ScopeFlags,
    pub node: NodeId,
}

/// A declaration as the parser gives it: its kind, its modifiers and its span are numbers that the call has yet to check, and may refuse.
#[derive(Clone, Copy, PartialEq, Eq)]
pub struct Declaration {
    pub kind: u8,
    pub modifiers: u8,
    pub name: Name,
    pub start: u32,
    pub end: u32,
    pub node: NodeId,
}

#[derive(Clone, Copy, PartialEq, Eq)]
pub struct NewReference {
    pub name: Name,
    pub scope: ScopeId,
    pub flags: ReferenceFlags,
    pub node: NodeId,
}

#[derive(Clone, Copy, PartialEq, Eq)]
pub enum Call {
    EnterScope(NewScope),
    LeaveScope,
    Bind(Declaration),
    DeclareReference(NewReference),
    /// For the current scope, from this place of the pending list on.
    ResolveReferences(u32),
    ResolveAllReferences,
}

/// What a resolving call did: how many references it resolved and root-listed, and how many are pending after it.
#[derive(Clone, Copy, PartialEq, Eq)]
pub struct Counts {
    pub resolved: u32,
    pub root: u32,
    pub pending: u32,
}

/// What a call that is granted answers.
#[derive(Clone, Copy, PartialEq, Eq)]
pub enum Granted {
    /// The scope that was entered, or the parent of the one that was left.
    Scope(ScopeId),
    Symbol(SymbolId),
    Reference(ReferenceId),
    Counted(Counts),
}

pub type Answer = Result<Granted, Refusal>;
