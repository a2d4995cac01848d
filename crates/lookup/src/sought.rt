//! What a search along a lookup chain came to.
use tables::id::SymbolId;

// No Option, since the caller tells the two ways of finding nothing apart.
#[derive(Clone, Copy)]
pub enum Sought {
    /// A symbol that serves the reference.
    Found(SymbolId),
    /// The lookup chain of `arguments` ended at its function.
    Ended,
    /// The last scope was passed.
    Passed,
}
