//! A checked declaration, each in its manner.
ghost use Rattle.std.specs.Prelude.{◌≡◌, ◌+◌, ◌≤◌};
ghost use Rattle.tables.specs.Limits.{most_hoisted};
ghost use Rattle.model.specs.Scopes.{is_var, is_strict};
ghost use Rattle.model.specs.Declaring.{declare};
ghost use Rattle.model.specs.View.{beside_names};
ghost use Rattle.kinds.specs.Checking.{tells_of, manner_of, reach_of};
ghost use Rattle.lookup.specs.NamesIn.{names_in, declared_in};
ghost use Rattle.declaring.specs.Fitting.{Fits};

use crate::declare::{declare_shadow_symbol, declare_symbol_on_scope};
use crate::hoist::{declare_moved_out, declare_var};
use kinds::binder::Binder;
use kinds::checked::Checked;
use kinds::kind::Kind;
use lookup::chain::{conditional_or_self, is_strict, is_var, passed_count};
use lookup::name_tables::NameTables;
use model::manner::Manner;
use stores::key::ScopeAndName;
use stores::store::Store;
use tables::id::{ScopeId, SymbolId};
use tables::scoping::Scoping;

/// Declares in the manner of the declaration, and answers its symbol.
#[tactic(auto, unfolding(model::specs::Declaring::declare))]
pub fn declare_by_manner<B: Store<ScopeAndName>, H: Store<ScopeAndName>>(
    names: &mut NameTables<B, H>,
    current: ScopeId,
    typescript: bool,
    declaration: Checked,
) -> SymbolId
    requires fits { Fits (names_in B.PairSet.pairs H.PairSet.pairs names.old) (reach_of declaration names.old.scoping.scopes current.0) }
    requires hoisted { (H.PairSet.pairs names.old.hoisting).size + reach_of declaration names.old.scoping.scopes current.0 ≤ most_hoisted }
    ensures names { let rows = names.old.scoping.scopes in declared_in B.PairSet.pairs H.PairSet.pairs names.new result ≡ declare (manner_of declaration typescript (is_strict rows current.0) (is_var rows current.0)) (tells_of declaration typescript (is_strict rows current.0)) rows current.0 (names_in B.PairSet.pairs H.PairSet.pairs names.old) }
    ensures rest { beside_names names.new.scoping ≡ beside_names names.old.scoping }
{
    let strict = is_strict(&names.scoping, current);
    let var = is_var(&names.scoping, current);
    let d = declaration.told(typescript, strict);
    // A match and no closure: each manner reaches other scopes.
    match declaration.manner(typescript, strict, var) {
        Manner::Here => declare_symbol_on_scope(names, current, d),
        Manner::Hoisted => declare_var(names, current, d),
        Manner::MovedOut => declare_moved_out(names, current, d),
        Manner::Shadow => declare_shadow_symbol(names, current, d),
        Manner::Conditional => {
            let scope = conditional_or_self(&names.scoping, current);
            declare_symbol_on_scope(names, scope, d)
        }
    }
}

/// How many scopes a declaration may write to: for a `var` those that it passes, and its target.
pub fn reach_of(scoping: &Scoping, current: ScopeId, declaration: Checked) -> usize
    ensures { result ≡ reach_of declaration scoping.now.scopes current.0 }
{
    // One kind walks; no other reaches beyond its scope.
    match declaration.kind {
        Kind::Var => passed_count(scoping, current) + 1,
        _ => 1,
    }
}
