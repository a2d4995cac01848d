//! What can be read of a builder. An id or a place in a list that leads to nothing is refused as absent.
ghost use Rattle.std.specs.Prelude.{◌≡◌, ◌≤◌, length, Ok};
ghost use Rattle.std.specs.List.{slice_get};
ghost use Rattle.tables.specs.Contents.{row_answer};
ghost use Rattle.tables.specs.Limits.{most_scopes, most_symbols, most_references, most_conflicts};
ghost use Rattle.tables.specs.Trees.{Tree};
ghost use Rattle.tables.specs.Picked.{redeclarations_of, resolved_of, root_of};
ghost use Rattle.tables.specs.Reading.{if_there, span_ends, symbol_ends};
ghost use Rattle.model.specs.Basics.{maybe, the_name};
ghost use Rattle.model.specs.Scopes.{chain};
ghost use Rattle.model.specs.Declaring.{binding, hoisted};
ghost use Rattle.lookup.specs.Seeking.{first_binding};
ghost use Rattle.builder.specs.State.{view};
ghost use Rattle.builder.specs.Reading.{symbol_at};

use super::SemanticBuilder;
use lookup::search::binding_in;
use stores::key::ScopeAndName;
use stores::store::Store;
use tables::entry::entry_at;
use tables::id::{Name, ReferenceId, ScopeId, SymbolId};
use tables::owned::{count_of, row_of};
use tables::refusal::Refusal;
use tables::row::{
    Conflict, Redeclaration, ReferenceRow, ScopeRow, SymbolRow, UnresolvedReference,
};
use tables::span::Span;

impl<B: Store<ScopeAndName>, H: Store<ScopeAndName>, R: Store<Name>> SemanticBuilder<B, H, R> {
    // A count and a read for each table: they are the builder's interface, and each is a line over the table's slice.

    pub fn current_scope(&self) -> ScopeId
        ensures { result.0 ≡ (view self.now).current }
    {
        self.current
    }

    pub fn scope_count(&self) -> usize
        ensures count { result ≡ length (view self.now).scopes }
        ensures few { result ≤ most_scopes }
    {
        self.names.scoping.scopes().len()
    }

    pub fn scope(&self, id: ScopeId) -> Result<ScopeRow, Refusal>
        ensures row { result ≡ row_answer (slice_get (view self.now).scopes id.0) }
        ensures tree { Tree (view self.now).scopes }
    {
        self.names.scoping.scope(id)
    }

    pub fn symbol_count(&self) -> usize
        ensures count { result ≡ length (view self.now).names.symbols }
        ensures few { result ≤ most_symbols }
    {
        self.names.scoping.symbols().len()
    }

    pub fn symbol(&self, id: SymbolId) -> Result<SymbolRow, Refusal>
        ensures { result ≡ row_answer (slice_get (view self.now).names.symbols id.0) }
    {
        self.names.scoping.symbol(id)
    }

    pub fn symbol_span(&self, id: SymbolId) -> Result<Span, Refusal>
        ensures { span_ends result ≡ if_there (slice_get (view self.now).names.symbols id.0) symbol_ends }
    {
        self.names.scoping.symbol_span(id)
    }

    pub fn reference_count(&self) -> usize
        ensures count { result ≡ length (view self.now).uses.references }
        ensures few { result ≤ most_references }
    {
        self.names.scoping.references().len()
    }

    pub fn reference(&self, id: ReferenceId) -> Result<ReferenceRow, Refusal>
        ensures { result ≡ row_answer (slice_get (view self.now).uses.references id.0) }
    {
        self.names.scoping.reference(id)
    }

    // Three reads of names, and four of a symbol's lists: each refuses an id that is absent by the read of its row, and then asks one store or list.

    /// The symbol that the name is bound to in the scope.
    pub fn binding(&self, scope: ScopeId, name: Name) -> Result<Option<SymbolId>, Refusal>
        ensures { result ≡ if_there (slice_get (view self.now).scopes scope.0) (λ _. Ok (symbol_at (binding (view self.now).names scope.0 name.0))) }
    {
        self.scope(scope)?;
        Ok(binding_in(&self.names.bindings, scope, name))
    }

    /// The symbol of the name's hoisted variable in the scope.
    pub fn hoisted_variable(&self, scope: ScopeId, name: Name) -> Result<Option<SymbolId>, Refusal>
        ensures { result ≡ if_there (slice_get (view self.now).scopes scope.0) (λ _. Ok (symbol_at (hoisted (view self.now).names scope.0 name.0))) }
    {
        self.scope(scope)?;
        Ok(binding_in(&self.names.hoisting, scope, name))
    }

    /// The first binding of the name in the scope or an ancestor, whatever its symbol.
    pub fn find_binding(&self, scope: ScopeId, name: Name) -> Result<Option<SymbolId>, Refusal>
        ensures { result ≡ if_there (slice_get (view self.now).scopes scope.0) (λ _. Ok (symbol_at (first_binding (view self.now).names.bindings name.0 (chain (view self.now).scopes scope.0)))) }
    {
        self.scope(scope)?;
        Ok(self.names.find_binding(scope, name))
    }

    pub fn conflict_count(&self) -> usize
        ensures count { result ≡ length (view self.now).names.conflicts }
        ensures few { result ≤ most_conflicts }
    {
        self.names.scoping.conflicts().len()
    }

    pub fn conflict(&self, k: usize) -> Result<Conflict, Refusal>
        ensures { result ≡ row_answer (slice_get (view self.now).names.conflicts k) }
    {
        entry_at(self.names.scoping.conflicts(), k)
    }

    pub fn pending_count(&self) -> usize
        ensures count { result ≡ length (view self.now).uses.pending }
        ensures few { result ≤ most_references }
    {
        self.names.scoping.pending().len()
    }

    pub fn pending(&self, k: usize) -> Result<UnresolvedReference, Refusal>
        ensures { result ≡ row_answer (slice_get (view self.now).uses.pending k) }
    {
        entry_at(self.names.scoping.pending(), k)
    }

    /// How many declarations of the symbol are written down: none if it was declared once.
    pub fn redeclaration_count(&self, symbol: SymbolId) -> Result<usize, Refusal>
        ensures { result ≡ if_there (slice_get (view self.now).names.symbols symbol.0) (λ _. Ok (length (redeclarations_of symbol.0 (view self.now).names.redeclarations))) }
    {
        self.symbol(symbol)?;
        Ok(count_of(self.names.scoping.redeclarations(), symbol))
    }

    pub fn redeclaration(&self, symbol: SymbolId, k: usize) -> Result<Redeclaration, Refusal>
        ensures { result ≡ if_there (slice_get (view self.now).names.symbols symbol.0) (λ _. row_answer (slice_get (redeclarations_of symbol.0 (view self.now).names.redeclarations) k)) }
    {
        self.symbol(symbol)?;
        let row = row_of(self.names.scoping.redeclarations(), symbol, k);
        row.ok_or(Refusal::Absent)
    }

    /// How many references were resolved to the symbol.
    pub fn resolved_count(&self, symbol: SymbolId) -> Result<usize, Refusal>
        ensures { result ≡ if_there (slice_get (view self.now).names.symbols symbol.0) (λ _. Ok (length (resolved_of symbol.0 (view self.now).uses.resolved))) }
    {
        self.symbol(symbol)?;
        Ok(count_of(self.names.scoping.resolved(), symbol))
    }

    pub fn resolved(&self, symbol: SymbolId, k: usize) -> Result<ReferenceId, Refusal>
        ensures { result ≡ if_there (slice_get (view self.now).names.symbols symbol.0) (λ _. if_there (slice_get (resolved_of symbol.0 (view self.now).uses.resolved) k) (λ e. Ok e.reference)) }
    {
        self.symbol(symbol)?;
        let row = row_of(self.names.scoping.resolved(), symbol, k);
        row.map(|row| row.reference).ok_or(Refusal::Absent)
    }

    /// How many references the root unresolved list of the name has.
    pub fn root_unresolved_count(&self, name: Name) -> usize
        ensures { result ≡ maybe ((view self.now).uses.roots.get (the_name name.0)) 0 (λ list. length (root_of list (view self.now).uses.root)) }
    {
        let list = self.roots.get(name);
        list.map_or(0, |list| count_of(self.names.scoping.root(), list))
    }

    pub fn root_unresolved(&self, name: Name, k: usize) -> Result<ReferenceId, Refusal>
        ensures { result ≡ if_there ((view self.now).uses.roots.get (the_name name.0)) (λ list. if_there (slice_get (root_of list (view self.now).uses.root) k) (λ e. Ok e.reference)) }
    {
        let list = self.roots.get(name).ok_or(Refusal::Absent)?;
        let row = row_of(self.names.scoping.root(), list, k);
        row.map(|row| row.reference).ok_or(Refusal::Absent)
    }
}
