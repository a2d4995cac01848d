//! Declarations that reach beyond their scope: `var`, and functions in blocks.
ghost use Rattle.std.specs.Prelude.{◌≡◌, ◌+◌, ◌<◌, ◌≤◌, length};
ghost use Rattle.tables.specs.Limits.{most_redeclarations, most_conflicts};
ghost use Rattle.stores.specs.Pairs.{least_capacity};
ghost use Rattle.model.specs.Scopes.{passed};
ghost use Rattle.model.specs.Declaring.{scan, declare_var, declare_moved_out, hoist_all};
ghost use Rattle.model.specs.View.{beside_names};
ghost use Rattle.kinds.specs.Telling.{plain};
ghost use Rattle.lookup.specs.NamesIn.{names_in, declared_in};
ghost use Rattle.declaring.specs.Fitting.{Fits};
ghost use Rattle.declaring.specs.Scan.{stepped, stepping};

use crate::declare::{
    add_symbol_redeclaration, check_redeclaration, declare_symbol_on_scope, move_binding,
};
use kinds::told::Told;
use lookup::ancestors::ancestors_from;
use lookup::chain::{is_var, parent, var_scope};
use lookup::name_tables::NameTables;
use lookup::search::binding_in;
use stores::key::ScopeAndName;
use stores::store::Store;
use tables::flags::{FlagSet, SymbolFlags};
use tables::id::{Name, ScopeId, SymbolId};

/// Looks at one scope on the way of a var: a value symbol is declared once more, and its binding moves to the target if that lacks the name.
#[tactic(auto, unfolding(model::specs::Declaring::complain, model::specs::Declaring::add_symbol_redeclaration))]
fn scan_scope<B: Store<ScopeAndName>, H: Store<ScopeAndName>>(
    names: &mut NameTables<B, H>,
    at: ScopeId,
    to: ScopeId,
    d: Told,
) -> Option<SymbolId>
    requires redeclarations { length names.old.scoping.redeclarations + 2 ≤ most_redeclarations }
    requires conflicts { length names.old.scoping.conflicts < most_conflicts }
    requires room { (B.PairSet.pairs names.old.bindings).size < least_capacity }
    ensures names { stepping (names_in B.PairSet.pairs H.PairSet.pairs names.new) result ≡ stepped (plain d) to.0 (names_in B.PairSet.pairs H.PairSet.pairs names.old) at.0 }
    ensures rest { beside_names names.new.scoping ≡ beside_names names.old.scoping }
{
    let symbol = check_redeclaration(names, at, d)?;
    if !names
        .scoping
        .symbol_or_empty(symbol)
        .flags
        .intersects(SymbolFlags::BY_VALUE)
    {
        return None;
    }
    add_symbol_redeclaration(names, symbol, d);
    move_binding(names, at, to, d.name, symbol);
    Some(symbol)
}

/// Gives each scope on the way of a var a hoisted variable.
#[tactic(auto, unfolding(model::specs::Declaring::hoist_all, model::specs::Scopes::passed))]
fn hoist_passed<B: Store<ScopeAndName>, H: Store<ScopeAndName>>(
    names: &mut NameTables<B, H>,
    from: ScopeId,
    name: Name,
    symbol: SymbolId,
)
    requires { (H.PairSet.pairs names.old.hoisting).size + length (passed names.old.scoping.scopes from.0) ≤ least_capacity }
    ensures names { names_in B.PairSet.pairs H.PairSet.pairs names.new ≡ hoist_all (names_in B.PairSet.pairs H.PairSet.pairs names.old) (passed names.old.scoping.scopes from.0) name.0 symbol.0 }
    ensures rest { beside_names names.new.scoping ≡ beside_names names.old.scoping }
{
    let NameTables {
        scoping,
        hoisting,
        ..
    } = names;
    for at in ancestors_from(scoping, from) {
        if is_var(scoping, at) {
            return;
        }
        let _ = hoisting.insert(ScopeAndName { scope: at, name }, symbol.0);
    }
}

/// Looks for a value symbol on the way of a var, and else declares the name on the target.
fn scan_passed<B: Store<ScopeAndName>, H: Store<ScopeAndName>>(
    names: &mut NameTables<B, H>,
    from: ScopeId,
    to: ScopeId,
    d: Told,
) -> SymbolId
    requires { Fits (names_in B.PairSet.pairs H.PairSet.pairs names.old) (length (passed names.old.scoping.scopes from.0) + 1) }
    ensures names { declared_in B.PairSet.pairs H.PairSet.pairs names.new result ≡ scan (plain d) to.0 (names_in B.PairSet.pairs H.PairSet.pairs names.old) (passed names.old.scoping.scopes from.0) }
    ensures rest { beside_names names.new.scoping ≡ beside_names names.old.scoping }
{
    // Each scope is written to, so no iterator can lend the tables meanwhile.
    let mut next = Some(from);
    while let Some(at) = next
        && !is_var(&names.scoping, at)
    {
        if let Some(symbol) = scan_scope(names, at, to, d) {
            return symbol;
        }
        next = parent(&names.scoping, at);
    }
    declare_symbol_on_scope(names, to, d)
}

/// Declares a `var`: on the way to its nearest var scope or there, with a hoisted variable for each scope on the way.
#[tactic(auto, using(crate::proofs::Scans::scan_hoists), unfolding(model::specs::Declaring::declare_var))]
pub(crate) fn declare_var<B: Store<ScopeAndName>, H: Store<ScopeAndName>>(
    names: &mut NameTables<B, H>,
    current: ScopeId,
    d: Told,
) -> SymbolId
    requires fits { Fits (names_in B.PairSet.pairs H.PairSet.pairs names.old) (length (passed names.old.scoping.scopes current.0) + 1) }
    requires hoisted { (H.PairSet.pairs names.old.hoisting).size + length (passed names.old.scoping.scopes current.0) ≤ least_capacity }
    ensures names { declared_in B.PairSet.pairs H.PairSet.pairs names.new result ≡ declare_var (plain d) names.old.scoping.scopes current.0 (names_in B.PairSet.pairs H.PairSet.pairs names.old) }
    ensures rest { beside_names names.new.scoping ≡ beside_names names.old.scoping }
{
    let to = var_scope(&names.scoping, current);
    let symbol = scan_passed(names, current, to, d);
    hoist_passed(names, current, d.name, symbol);
    symbol
}

/// Declares a function in a block, and moves it to the nearest var scope unless that has the name.
#[tactic(auto, unfolding(model::specs::Declaring::declare_moved_out))]
pub(crate) fn declare_moved_out<B: Store<ScopeAndName>, H: Store<ScopeAndName>>(
    names: &mut NameTables<B, H>,
    current: ScopeId,
    d: Told,
) -> SymbolId
    requires fits { Fits (names_in B.PairSet.pairs H.PairSet.pairs names.old) 1 }
    requires hoisted { (H.PairSet.pairs names.old.hoisting).size < least_capacity }
    ensures names { declared_in B.PairSet.pairs H.PairSet.pairs names.new result ≡ declare_moved_out (plain d) names.old.scoping.scopes current.0 (names_in B.PairSet.pairs H.PairSet.pairs names.old) }
    ensures rest { beside_names names.new.scoping ≡ beside_names names.old.scoping }
{
    let to = var_scope(&names.scoping, current);
    let symbol = declare_symbol_on_scope(names, current, d);
    let name = d.name;
    if binding_in(&names.bindings, to, name).is_some() {
        return symbol;
    }
    move_binding(names, current, to, name, symbol);
    let key = ScopeAndName {
        scope: current,
        name,
    };
    let _ = names.hoisting.insert(key, symbol.0);
    symbol
}
