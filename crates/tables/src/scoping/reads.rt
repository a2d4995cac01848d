ghost use Rattle.std.specs.Prelude.{◌≡◌, ◌≤◌, length, slice_index_or};
ghost use Rattle.std.specs.List.{slice_get};
ghost use Rattle.tables.specs.Contents.{row_answer, declaration_answer, has_redeclaration};
ghost use Rattle.tables.specs.EmptyRows.{no_scope, no_symbol, no_reference};
ghost use Rattle.tables.specs.Limits.{most_scopes, most_symbols, most_references, most_redeclarations, most_conflicts};
ghost use Rattle.tables.specs.Trees.{Tree};
ghost use Rattle.tables.specs.Reading.{if_there, span_ends, symbol_ends};

use super::Scoping;
use crate::id::{ReferenceId, ScopeId, SymbolId};
use crate::limits::{
    MOST_CONFLICTS, MOST_HOISTED, MOST_REDECLARATIONS, MOST_SYMBOLS, REDECLARATIONS_AT_ONCE,
};
use crate::owned::OwnedRow;
use crate::refusal::Refusal;
use crate::row::{
    Conflict, Redeclaration, ReferenceRow, ResolvedReference, RootReference, ScopeRow, SymbolRow,
    UnresolvedReference,
};
use crate::span::Span;

fn row_at<T: Copy>(rows: &[T], number: u32) -> Option<T>
    ensures { result ≡ slice_get rows.now number }
{
    rows.get(number as usize).copied()
}

impl Scoping {
    pub fn scopes(&self) -> &[ScopeRow]
        ensures rows { result.now ≡ self.now.scopes }
        ensures few { length self.now.scopes ≤ most_scopes }
        ensures tree { Tree self.now.scopes }
    {
        self.scopes.as_slice()
    }

    pub fn symbols(&self) -> &[SymbolRow]
        ensures rows { result.now ≡ self.now.symbols }
        ensures few { length self.now.symbols ≤ most_symbols }
    {
        self.symbols.as_slice()
    }

    pub fn references(&self) -> &[ReferenceRow]
        ensures rows { result.now ≡ self.now.references }
        ensures few { length self.now.references ≤ most_references }
    {
        self.references.as_slice()
    }

    /// The pending references, in order.
    pub fn pending(&self) -> &[UnresolvedReference]
        ensures rows { result.now ≡ self.now.pending }
        ensures few { length self.now.pending ≤ most_references }
    {
        self.pending.as_slice()
    }

    /// The resolved references of all symbols, in order.
    pub fn resolved(&self) -> &[ResolvedReference]
        ensures rows { result.now ≡ self.now.resolved }
        ensures few { length self.now.resolved ≤ most_references }
    {
        self.resolved.as_slice()
    }

    /// The references of all root unresolved lists, in order.
    pub fn root(&self) -> &[RootReference]
        ensures rows { result.now ≡ self.now.root }
        ensures few { length self.now.root ≤ most_references }
    {
        self.root.as_slice()
    }

    pub fn redeclarations(&self) -> &[Redeclaration]
        ensures rows { result.now ≡ self.now.redeclarations }
        ensures few { length self.now.redeclarations ≤ most_redeclarations }
    {
        self.redeclarations.as_slice()
    }

    pub fn conflicts(&self) -> &[Conflict]
        ensures rows { result.now ≡ self.now.conflicts }
        ensures few { length self.now.conflicts ≤ most_conflicts }
    {
        self.conflicts.as_slice()
    }

    pub fn scope(&self, id: ScopeId) -> Result<ScopeRow, Refusal>
        ensures row { result ≡ row_answer (slice_get self.now.scopes id.0) }
        ensures tree { Tree self.now.scopes }
    {
        row_at(self.scopes(), id.0).ok_or(Refusal::Absent)
    }

    pub fn symbol(&self, id: SymbolId) -> Result<SymbolRow, Refusal>
        ensures row { result ≡ row_answer (slice_get self.now.symbols id.0) }
        ensures few { length self.now.symbols ≤ most_symbols }
    {
        row_at(self.symbols(), id.0).ok_or(Refusal::Absent)
    }

    pub fn reference(&self, id: ReferenceId) -> Result<ReferenceRow, Refusal>
        ensures row { result ≡ row_answer (slice_get self.now.references id.0) }
        ensures few { length self.now.references ≤ most_references }
    {
        row_at(self.references(), id.0).ok_or(Refusal::Absent)
    }

    /// The symbol's span.
    pub fn symbol_span(&self, id: SymbolId) -> Result<Span, Refusal>
        ensures { span_ends result ≡ if_there (slice_get self.now.symbols id.0) symbol_ends }
    {
        let row = self.symbol(id)?;
        Span::new(row.start, row.end).ok_or(Refusal::Absent)
    }

    // The machine reads an absent row as a default one, so that no call requires that an id is there.

    /// The scope, or the default row if it is absent.
    pub fn scope_or_empty(&self, id: ScopeId) -> ScopeRow
        ensures row { result ≡ slice_index_or self.now.scopes id.0 no_scope }
        ensures tree { Tree self.now.scopes }
    {
        row_at(self.scopes(), id.0).unwrap_or_default()
    }

    /// The symbol, or the default row if it is absent.
    pub fn symbol_or_empty(&self, id: SymbolId) -> SymbolRow
        ensures { result ≡ slice_index_or self.now.symbols id.0 no_symbol }
    {
        row_at(self.symbols(), id.0).unwrap_or_default()
    }

    /// The reference, or the default row if it is absent.
    pub fn reference_or_empty(&self, id: ReferenceId) -> ReferenceRow
        ensures { result ≡ slice_index_or self.now.references id.0 no_reference }
    {
        row_at(self.references(), id.0).unwrap_or_default()
    }

    /// Whether the symbol was declared more than once.
    pub fn has_redeclaration(&self, symbol: SymbolId) -> bool
        ensures { result ≡ has_redeclaration symbol.0 self.now.redeclarations }
    {
        self.redeclarations().iter().any(|row| row.is_of(symbol))
    }

    /// Whether there is room for a declaration that may write to so many scopes, beside so many hoisted variables.
    pub fn check_declaration(&self, scopes: usize, hoisted: usize) -> Result<(), Refusal>
        ensures { result ≡ declaration_answer self.now scopes hoisted }
    {
        if self.symbols().len() >= MOST_SYMBOLS
            || self.redeclarations().len() > MOST_REDECLARATIONS - REDECLARATIONS_AT_ONCE
            || scopes > MOST_CONFLICTS
            || self.conflicts().len() > MOST_CONFLICTS - scopes
            || hoisted > MOST_HOISTED - scopes
        {
            return Err(Refusal::DeclarationsFull);
        }
        Ok(())
    }
}
