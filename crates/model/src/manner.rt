//! How a declaration finds its scope.

#[derive(Clone, Copy, PartialEq, Eq)]
pub enum Manner {
    /// Declared on the current scope.
    Here,
    /// A `var`: declared on the nearest var scope, and seen from the scopes on the way.
    Hoisted,
    /// A function in a block, which moves to the nearest var scope unless that has the name.
    MovedOut,
    /// A new symbol, bound over any other.
    Shadow,
    /// Declared on the nearest conditional type, else on the current scope.
    Conditional,
}
