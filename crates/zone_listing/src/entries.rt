//! The lines of bindings and of lists. An index counts from 0.
// Ids and flags are printed as their numbers, as in `rows`.
ghost use Rattle.std.specs.Prelude.{Some};
ghost use Rattle.zone_listing.specs.Listing.{table_word, pair_line, redeclaration_line, conflict_line, pending_line, resolved_line, root_line};

use std::fmt;
use stores::key::ScopeAndName;
use tables::id::{Name, ReferenceId, SymbolId};
use tables::row::{Conflict, Redeclaration, ResolvedReference, UnresolvedReference};

/// The tables that lead from a scope and a name to a symbol.
#[derive(Clone, Copy)]
pub enum PairTable {
    Bindings,
    Hoisting,
}

#[derive(Clone, Copy)]
pub struct PairLine {
    pub table: PairTable,
    pub key: ScopeAndName,
    pub symbol: SymbolId,
}

/// An entry of a list, with its index in the list: for redeclarations and resolved references, the list of the symbol.
#[derive(Clone, Copy)]
pub struct EntryLine<T> {
    pub index: usize,
    pub entry: T,
}

/// `index` counts the entries of the name.
#[derive(Clone, Copy)]
pub struct RootLine {
    pub name: Name,
    pub index: usize,
    pub reference: ReferenceId,
}

impl fmt::Display for PairTable {
    ghost output = { λ x. Some (table_word x) };

    fn fmt<W: fmt::Write>(&self, f: &mut fmt::Formatter<W>) -> fmt::Result {
        match self {
            PairTable::Bindings => write!(f, "binding"),
            PairTable::Hoisting => write!(f, "hoisting"),
        }
    }
}

impl fmt::Display for PairLine {
    ghost output = { λ x. Some (pair_line x) };

    fn fmt<W: fmt::Write>(&self, f: &mut fmt::Formatter<W>) -> fmt::Result {
        write!(
            f,
            "{} {} {} {}",
            self.table, self.key.scope.0, self.key.name.0, self.symbol.0
        )
    }
}

impl fmt::Display for EntryLine<Redeclaration> {
    ghost output = { λ x. Some (redeclaration_line x) };

    fn fmt<W: fmt::Write>(&self, f: &mut fmt::Formatter<W>) -> fmt::Result {
        let entry = self.entry;
        write!(
            f,
            "redeclaration {} {} start {} end {} node {} flags {}",
            entry.symbol.0, self.index, entry.start, entry.end, entry.node.0, entry.flags.0
        )
    }
}

impl fmt::Display for EntryLine<Conflict> {
    ghost output = { λ x. Some (conflict_line x) };

    fn fmt<W: fmt::Write>(&self, f: &mut fmt::Formatter<W>) -> fmt::Result {
        let entry = self.entry;
        write!(
            f,
            "conflict {} name {} first {} {} second {} {}",
            self.index,
            entry.name.0,
            entry.first_start,
            entry.first_end,
            entry.second_start,
            entry.second_end
        )
    }
}

impl fmt::Display for EntryLine<UnresolvedReference> {
    ghost output = { λ x. Some (pending_line x) };

    fn fmt<W: fmt::Write>(&self, f: &mut fmt::Formatter<W>) -> fmt::Result {
        let entry = self.entry;
        write!(
            f,
            "pending {} name {} reference {} scope {}",
            self.index, entry.name.0, entry.reference.0, entry.scope.0
        )
    }
}

impl fmt::Display for EntryLine<ResolvedReference> {
    ghost output = { λ x. Some (resolved_line x) };

    fn fmt<W: fmt::Write>(&self, f: &mut fmt::Formatter<W>) -> fmt::Result {
        let entry = self.entry;
        write!(
            f,
            "resolved {} {} reference {}",
            entry.symbol.0, self.index, entry.reference.0
        )
    }
}

impl fmt::Display for RootLine {
    ghost output = { λ x. Some (root_line x) };

    fn fmt<W: fmt::Write>(&self, f: &mut fmt::Formatter<W>) -> fmt::Result {
        write!(
            f,
            "root {} {} reference {}",
            self.name.0, self.index, self.reference.0
        )
    }
}
