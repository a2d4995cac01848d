//! What rows are named by. Each id is a type of its own, so that one cannot stand for another.
// Five wrappers and no generic `Id<Of>`: its marker types and their derives would be longer than what they replace.

/// The number of a scope, counted from the root, which is 0.
#[derive(Clone, Copy, PartialEq, Eq, Default)]
pub struct ScopeId(pub u32);

/// The number of a symbol, in order of declaration.
#[derive(Clone, Copy, PartialEq, Eq, Default)]
pub struct SymbolId(pub u32);

/// The number of a reference, in order of declaration.
#[derive(Clone, Copy, PartialEq, Eq, Default)]
pub struct ReferenceId(pub u32);

/// A node of the parser's syntax tree.
#[derive(Clone, Copy, PartialEq, Eq, Default)]
pub struct NodeId(pub u32);

/// A name, numbered by the parser. `Name::ARGUMENTS` is the name `arguments`.
#[derive(Clone, Copy, PartialEq, Eq, Default)]
pub struct Name(pub u32);

impl ScopeId {
    pub const ROOT: ScopeId = ScopeId(0);
}

impl Name {
    pub const ARGUMENTS: Name = Name(0);
}

impl NodeId {
    /// The node of the root scope.
    pub const ROOT: NodeId = NodeId(0);
}
