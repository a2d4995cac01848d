//! All the rows of a binding, with their memory taken once.
ghost use Rattle.tables.specs.Contents.{Contents};
ghost use Rattle.tables.specs.Trees.{Tree};

use crate::limits::{
    MOST_CONFLICTS, MOST_REDECLARATIONS, MOST_REFERENCES, MOST_SCOPES, MOST_SYMBOLS,
};
use crate::row::{
    Conflict, Redeclaration, ReferenceRow, ResolvedReference, RootReference, ScopeRow, SymbolRow,
    UnresolvedReference,
};
use crate::rows::Rows;
use std::marker::Model;

mod reads;
mod writes;

/// The rows of scopes, symbols and references, and the lists of a binding.
// The lists of all owners lie in one table each: their memory is fixed and taken once.
#[derive(Drop)]
pub struct Scoping {
    scopes: Rows<ScopeRow, MOST_SCOPES>,
    symbols: Rows<SymbolRow, MOST_SYMBOLS>,
    references: Rows<ReferenceRow, MOST_REFERENCES>,
    pending: Rows<UnresolvedReference, MOST_REFERENCES>,
    resolved: Rows<ResolvedReference, MOST_REFERENCES>,
    root: Rows<RootReference, MOST_REFERENCES>,
    redeclarations: Rows<Redeclaration, MOST_REDECLARATIONS>,
    conflicts: Rows<Conflict, MOST_CONFLICTS>,
}

impl Model for Scoping {
    ghost Value = { Contents };

    ghost view = { λ t. record { scopes = t.scopes; symbols = t.symbols; references = t.references; pending = t.pending; resolved = t.resolved; root = t.root; redeclarations = t.redeclarations; conflicts = t.conflicts } };

    ghost invariant = { λ t. Tree t.scopes };
}
