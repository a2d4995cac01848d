//! The rows that a declaration writes.
ghost use Rattle.std.specs.Prelude.{◌≡◌};
ghost use Rattle.model.specs.Declaring.{new_declaration, first_declaration, conflict_of, new_symbol};
ghost use Rattle.kinds.specs.Telling.{plain};

use super::Told;
use tables::id::{ScopeId, SymbolId};
use tables::row::{Conflict, Redeclaration, SymbolRow};

// No maker in common: one redeclaration is made of a row, the other of what is told, and neither is longer than a shared one.

/// A symbol's own declaration.
pub fn first_declaration(symbol: SymbolId, row: SymbolRow) -> Redeclaration
    ensures { result ≡ first_declaration symbol.0 row }
{
    Redeclaration {
        symbol,
        start: row.start,
        end: row.end,
        node: row.node,
        flags: row.flags,
    }
}

impl Told {
    pub fn new_symbol(self, scope: ScopeId) -> SymbolRow
        ensures { result ≡ new_symbol (plain self) scope.0 }
    {
        SymbolRow {
            name: self.name,
            start: self.span.start(),
            end: self.span.end(),
            flags: self.includes,
            scope,
            node: self.node,
        }
    }

    pub fn new_declaration(self, symbol: SymbolId) -> Redeclaration
        ensures { result ≡ new_declaration symbol.0 (plain self) }
    {
        Redeclaration {
            symbol,
            start: self.span.start(),
            end: self.span.end(),
            node: self.node,
            flags: self.includes,
        }
    }

    pub fn conflict_with(self, row: SymbolRow) -> Conflict
        ensures { result ≡ conflict_of (plain self) row }
    {
        Conflict {
            name: self.name,
            first_start: row.start,
            first_end: row.end,
            second_start: self.span.start(),
            second_end: self.span.end(),
        }
    }
}
