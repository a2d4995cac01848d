//! The six calls. Each tests all that may refuse it before it writes.
ghost use Rattle.std.specs.Prelude.{◌≡◌, ◌+◌, if◌then◌else◌, Ok, Err, nat_le};
ghost use Rattle.tables.specs.declared.refusal.Refusal.TheVariants.{UnlistedBits, StoreFull};
ghost use Rattle.stores.specs.Pairs.{least_capacity};
ghost use Rattle.builder.specs.State.{view};

use super::SemanticBuilder;
use super::made::start;
use declaring::dispatch::{declare_by_manner, reach_of};
use kinds::checked::Checked;
use lookup::name_tables::NameTables;
use model::call::{Counts, Declaration, NewReference, NewScope};
use model::setting::Setting;
use resolving::resolve::{resolve_all, resolve_from};
use session::binding::Binding;
use stores::key::{Key, ScopeAndName};
use stores::store::{LEAST_CAPACITY, Store};
use tables::flags::{FlagSet, ScopeFlags};
use tables::id::{Name, ReferenceId, ScopeId, SymbolId};
use tables::refusal::Refusal;
use tables::row::{ReferenceRow, ScopeRow, UnresolvedReference};

/// Refuses flags that are not all listed.
fn check_listed<F: FlagSet>(flags: F) -> Result<(), Refusal>
    ensures { result ≡ (if nat_le (F.number flags) F.ALL_BITS then Ok tt else Err UnlistedBits) }
{
    if flags.is_listed() {
        Ok(())
    } else {
        Err(Refusal::UnlistedBits)
    }
}

/// Refuses if a store may lack places for so many pairs more.
fn check_places<K: Key, S: Store<K>>(store: &S, more: usize) -> Result<(), Refusal>
    ensures { result ≡ (if nat_le ((S.PairSet.pairs store.now).size + more) least_capacity then Ok tt else Err StoreFull) }
{
    if store.count().saturating_add(more) <= LEAST_CAPACITY {
        Ok(())
    } else {
        Err(Refusal::StoreFull)
    }
}

#[tactic(auto, unfolding(crate::proofs::Opened::calls_opened))]
impl<B: Store<ScopeAndName>, H: Store<ScopeAndName>, R: Store<Name>> Binding
    for SemanticBuilder<B, H, R> {
    ghost state = { view };

    fn restart(&mut self, setting: Setting) {
        start(&mut self.names, &mut self.roots, setting);
        self.setting = setting;
        self.current = ScopeId::ROOT;
    }

    fn enter_scope(&mut self, scope: NewScope) -> Result<ScopeId, Refusal> {
        check_listed(scope.flags)?;
        let scoping = &mut self.names.scoping;
        let here = scoping.scope_or_empty(self.current);
        let strict = here.flags.intersection(ScopeFlags::STRICT_MODE);
        self.current = scoping.add_scope(ScopeRow {
            parent: Some(self.current),
            node: scope.node,
            flags: scope.flags.union(strict),
        })?;
        Ok(self.current)
    }

    fn leave_scope(&mut self) -> Result<ScopeId, Refusal> {
        if self.current == ScopeId::ROOT {
            return Err(Refusal::AtRoot);
        }
        let scoping = &mut self.names.scoping;
        let left = scoping.scope_or_empty(self.current);
        let parent = left.parent.unwrap_or(ScopeId::ROOT);
        let handed = left.flags.intersection(ScopeFlags::DIRECT_EVAL);
        let flags = scoping.scope_or_empty(parent).flags.union(handed);
        let _ = scoping.set_scope_flags(parent, flags);
        self.current = parent;
        Ok(parent)
    }

    fn bind(&mut self, declaration: Declaration) -> Result<SymbolId, Refusal> {
        let checked = Checked::try_from(declaration)?;
        let names = &mut self.names;
        let reach = reach_of(&names.scoping, self.current, checked);
        names
            .scoping
            .check_declaration(reach, names.hoisting.count())?;
        check_places(&names.bindings, 1)?;
        let typescript = self.setting.is_typescript();
        Ok(declare_by_manner(names, self.current, typescript, checked))
    }

    fn declare_reference(&mut self, reference: NewReference) -> Result<ReferenceId, Refusal> {
        check_listed(reference.flags)?;
        let scoping = &mut self.names.scoping;
        if reference.scope.0 as usize >= scoping.scopes().len() {
            return Err(Refusal::NoSuchScope);
        }
        let id = scoping.add_reference(ReferenceRow {
            node: reference.node,
            flags: reference.flags,
            symbol: None,
        })?;
        let _ = scoping.add_pending(UnresolvedReference {
            name: reference.name,
            reference: id,
            scope: reference.scope,
        });
        Ok(id)
    }

    fn resolve_references_for_current_scope(&mut self, start: u32) -> Result<Counts, Refusal> {
        let start = start as usize;
        let count = self.names.scoping.pending().len();
        if self.current == ScopeId::ROOT && start != count {
            return Err(Refusal::AtRoot);
        }
        if start > count {
            return Err(Refusal::StartPastPending);
        }
        check_places(&self.roots, count - start)?;
        let NameTables {
            scoping,
            bindings,
            ..
        } = &mut self.names;
        Ok(resolve_from(scoping, bindings, &mut self.roots, self.current, start))
    }

    fn resolve_all_references(&mut self) -> Result<Counts, Refusal> {
        check_places(&self.roots, self.names.scoping.pending().len())?;
        let NameTables {
            scoping,
            bindings,
            ..
        } = &mut self.names;
        Ok(resolve_all(scoping, bindings, &mut self.roots))
    }
}
