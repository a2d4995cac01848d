ghost use Rattle.std.specs.Prelude.{◌≡◌, ◌≤◌, cond, [], length, take, IfOk, slice_set};
ghost use Rattle.tables.specs.Ids.{the_symbol, the_reference};
ghost use Rattle.tables.specs.Contents.{empty, pushed, push_answer, set_answer, scope_answer, scopes_added, with_scopes, with_symbols, with_references, with_pending, with_resolved, with_root, with_redeclarations, with_conflicts, flagged};
ghost use Rattle.tables.specs.Limits.{most_symbols, most_references, most_redeclarations, most_conflicts};
ghost use Rattle.tables.specs.declared.refusal.Refusal.TheVariants.{DeclarationsFull, ReferencesFull};

use super::Scoping;
use crate::flags::ScopeFlags;
use crate::id::{ReferenceId, ScopeId, SymbolId};
use crate::refusal::Refusal;
use crate::row::{
    Conflict, Redeclaration, ReferenceRow, ResolvedReference, RootReference, ScopeRow, SymbolRow,
    UnresolvedReference,
};
use crate::rows::Rows;
use std::alloc::{AllocError, Global};

impl Scoping {
    /// Takes the memory for all rows. No later call takes any.
    pub fn reserve(heap: Global) -> Result<Scoping, AllocError>
        ensures { IfOk result (λ t. t ≡ empty) }
    {
        let scopes = Rows::reserve(heap)?;
        let symbols = Rows::reserve(heap)?;
        let references = Rows::reserve(heap)?;
        let pending = Rows::reserve(heap)?;
        let resolved = Rows::reserve(heap)?;
        let root = Rows::reserve(heap)?;
        let redeclarations = Rows::reserve(heap)?;
        let conflicts = Rows::reserve(heap)?;
        Ok(Scoping {
            scopes,
            symbols,
            references,
            pending,
            resolved,
            root,
            redeclarations,
            conflicts,
        })
    }

    pub fn clear(&mut self)
        ensures { self.new ≡ empty }
    {
        self.scopes.clear();
        self.symbols.clear();
        self.references.clear();
        self.pending.clear();
        self.resolved.clear();
        self.root.clear();
        self.redeclarations.clear();
        self.conflicts.clear();
    }

    // One name for each table, since it fixes the refusal and the type of the id; what they share is `Rows`.
    // Ids and places are cast where they meet: a method for each type of id would be longer.

    /// A scope more, whose parent is there.
    pub fn add_scope(&mut self, row: ScopeRow) -> Result<ScopeId, Refusal>
        ensures answer { result ≡ scope_answer self.old.scopes row }
        ensures after { self.new ≡ with_scopes self.old (scopes_added self.old.scopes row) }
    {
        let count = self.scopes().len();
        if row.parent.is_some_and(|parent| parent.0 as usize >= count) {
            return Err(Refusal::NoSuchScope);
        }
        let number = self.scopes.push(row, Refusal::ScopesFull)?;
        Ok(ScopeId(number as u32))
    }

    pub fn set_scope_flags(&mut self, id: ScopeId, flags: ScopeFlags) -> Result<(), Refusal>
        ensures answer { result ≡ set_answer self.old.scopes id.0 }
        ensures after { self.new ≡ with_scopes self.old (flagged self.old.scopes id.0 flags) }
    {
        let row = self.scope_or_empty(id);
        self.scopes.put(id.0 as usize, ScopeRow { flags, ..row })
    }

    pub fn add_symbol(&mut self, row: SymbolRow) -> Result<SymbolId, Refusal>
        ensures answer { result ≡ push_answer most_symbols self.old.symbols the_symbol DeclarationsFull }
        ensures after { self.new ≡ with_symbols self.old (pushed most_symbols self.old.symbols row) }
    {
        let number = self.symbols.push(row, Refusal::DeclarationsFull)?;
        Ok(SymbolId(number as u32))
    }

    pub fn set_symbol(&mut self, id: SymbolId, row: SymbolRow) -> Result<(), Refusal>
        ensures answer { result ≡ set_answer self.old.symbols id.0 }
        ensures after { self.new ≡ with_symbols self.old (slice_set self.old.symbols id.0 row) }
    {
        self.symbols.put(id.0 as usize, row)
    }

    pub fn add_reference(&mut self, row: ReferenceRow) -> Result<ReferenceId, Refusal>
        ensures answer { result ≡ push_answer most_references self.old.references the_reference ReferencesFull }
        ensures after { self.new ≡ with_references self.old (pushed most_references self.old.references row) }
    {
        let number = self.references.push(row, Refusal::ReferencesFull)?;
        Ok(ReferenceId(number as u32))
    }

    pub fn set_reference(&mut self, id: ReferenceId, row: ReferenceRow) -> Result<(), Refusal>
        ensures answer { result ≡ set_answer self.old.references id.0 }
        ensures after { self.new ≡ with_references self.old (slice_set self.old.references id.0 row) }
    {
        self.references.put(id.0 as usize, row)
    }

    pub fn add_pending(&mut self, row: UnresolvedReference) -> Result<(), Refusal>
        ensures answer { result ≡ push_answer most_references self.old.pending (λ _. tt) ReferencesFull }
        ensures after { self.new ≡ with_pending self.old (pushed most_references self.old.pending row) }
    {
        self.pending.push(row, Refusal::ReferencesFull)?;
        Ok(())
    }

    pub fn set_pending(&mut self, k: usize, row: UnresolvedReference) -> Result<(), Refusal>
        ensures answer { result ≡ set_answer self.old.pending k }
        ensures after { self.new ≡ with_pending self.old (slice_set self.old.pending k row) }
        ensures few { length self.new.pending ≤ most_references }
    {
        self.pending.put(k, row)
    }

    /// Keeps the first n pending entries.
    pub fn cut_pending(&mut self, n: usize)
        ensures { self.new ≡ with_pending self.old (take n self.old.pending) }
    {
        self.pending.truncate(n);
    }

    pub fn add_resolved(&mut self, row: ResolvedReference) -> Result<(), Refusal>
        ensures answer { result ≡ push_answer most_references self.old.resolved (λ _. tt) ReferencesFull }
        ensures after { self.new ≡ with_resolved self.old (pushed most_references self.old.resolved row) }
    {
        self.resolved.push(row, Refusal::ReferencesFull)?;
        Ok(())
    }

    pub fn add_root(&mut self, row: RootReference) -> Result<(), Refusal>
        ensures answer { result ≡ push_answer most_references self.old.root (λ _. tt) ReferencesFull }
        ensures after { self.new ≡ with_root self.old (pushed most_references self.old.root row) }
    {
        self.root.push(row, Refusal::ReferencesFull)?;
        Ok(())
    }

    pub fn add_redeclaration(&mut self, row: Redeclaration) -> Result<(), Refusal>
        ensures answer { result ≡ push_answer most_redeclarations self.old.redeclarations (λ _. tt) DeclarationsFull }
        ensures after { self.new ≡ with_redeclarations self.old (pushed most_redeclarations self.old.redeclarations row) }
    {
        self.redeclarations.push(row, Refusal::DeclarationsFull)?;
        Ok(())
    }

    pub fn add_conflict(&mut self, row: Conflict) -> Result<(), Refusal>
        ensures answer { result ≡ push_answer most_conflicts self.old.conflicts (λ _. tt) DeclarationsFull }
        ensures after { self.new ≡ with_conflicts self.old (pushed most_conflicts self.old.conflicts row) }
    {
        self.conflicts.push(row, Refusal::DeclarationsFull)?;
        Ok(())
    }
}
