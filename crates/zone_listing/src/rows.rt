//! The lines of scopes, symbols and references.
// Ids and flags are printed as their numbers: a `Display` for each of eight types would be longer.
ghost use Rattle.std.specs.Prelude.{Some};
ghost use Rattle.zone_listing.specs.Listing.{number_or_dash, current_line, scope_line, symbol_line, reference_line};

use std::fmt;
use tables::id::{ReferenceId, ScopeId, SymbolId};
use tables::row::{ReferenceRow, ScopeRow, SymbolRow};

/// A number, or `-` where there is none.
#[derive(Clone, Copy)]
struct NumberOrDash(Option<u32>);

impl fmt::Display for NumberOrDash {
    ghost output = { λ x. Some (number_or_dash x.0) };

    fn fmt<W: fmt::Write>(&self, f: &mut fmt::Formatter<W>) -> fmt::Result {
        match self.0 {
            Some(number) => write!(f, "{number}"),
            None => write!(f, "-"),
        }
    }
}

/// The current scope.
#[derive(Clone, Copy)]
pub struct CurrentLine(pub ScopeId);

/// A row of a table, with its id.
#[derive(Clone, Copy)]
pub struct RowLine<I, R> {
    pub id: I,
    pub row: R,
}

impl fmt::Display for CurrentLine {
    ghost output = { λ x. Some (current_line x) };

    fn fmt<W: fmt::Write>(&self, f: &mut fmt::Formatter<W>) -> fmt::Result {
        write!(f, "current {}", self.0.0)
    }
}

impl fmt::Display for RowLine<ScopeId, ScopeRow> {
    ghost output = { λ x. Some (scope_line x) };

    fn fmt<W: fmt::Write>(&self, f: &mut fmt::Formatter<W>) -> fmt::Result {
        let row = self.row;
        let parent = NumberOrDash(row.parent.map(|parent| parent.0));
        write!(
            f,
            "scope {} parent {} node {} flags {}",
            self.id.0, parent, row.node.0, row.flags.0
        )
    }
}

impl fmt::Display for RowLine<SymbolId, SymbolRow> {
    ghost output = { λ x. Some (symbol_line x) };

    fn fmt<W: fmt::Write>(&self, f: &mut fmt::Formatter<W>) -> fmt::Result {
        let row = self.row;
        write!(
            f,
            "symbol {} name {} start {} end {} flags {} scope {} node {}",
            self.id.0, row.name.0, row.start, row.end, row.flags.0, row.scope.0, row.node.0
        )
    }
}

impl fmt::Display for RowLine<ReferenceId, ReferenceRow> {
    ghost output = { λ x. Some (reference_line x) };

    fn fmt<W: fmt::Write>(&self, f: &mut fmt::Formatter<W>) -> fmt::Result {
        let row = self.row;
        let symbol = NumberOrDash(row.symbol.map(|symbol| symbol.0));
        write!(
            f,
            "reference {} node {} flags {} symbol {}",
            self.id.0, row.node.0, row.flags.0, symbol
        )
    }
}
