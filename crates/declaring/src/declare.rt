//! Declarations on one scope.
// Each function says what becomes of the names and, apart, that all else is as it was: one word for either.
ghost use Rattle.std.specs.Prelude.{◌≡◌, ◌+◌, ◌<◌, ◌≤◌, length};
ghost use Rattle.tables.specs.Limits.{most_symbols, most_redeclarations, most_conflicts};
ghost use Rattle.stores.specs.Keys.{same_scope_and_name};
ghost use Rattle.stores.specs.Pairs.{Pairs, drop_pair, least_capacity};
ghost use Rattle.model.specs.Basics.{maybe, place, symbol_number};
ghost use Rattle.model.specs.Declaring.{found, complain, add_symbol_redeclaration, unite, declare_shadow_symbol, declare_symbol_on_scope, move_binding};
ghost use Rattle.model.specs.View.{names_of, beside_names};
ghost use Rattle.kinds.specs.Telling.{plain};
ghost use Rattle.lookup.specs.NamesIn.{names_in, declared_in};
ghost use Rattle.declaring.specs.Fitting.{Fits};

use kinds::told::Told;
use kinds::told::rows::first_declaration;
use lookup::name_tables::NameTables;
use lookup::search::binding_in;
use stores::key::ScopeAndName;
use stores::store::Store;
use tables::flags::{FlagSet, SymbolFlags};
use tables::id::{Name, ScopeId, SymbolId};
use tables::row::SymbolRow;
use tables::scoping::Scoping;

/// The symbol beside which a name is declared: its binding in the scope, else its hoisted variable, and never a function expression.
#[tactic(auto, unfolding(model::specs::Declaring::found))]
pub fn found_symbol<B: Store<ScopeAndName>, H: Store<ScopeAndName>>(
    scoping: &Scoping,
    bindings: &B,
    hoisting: &H,
    scope: ScopeId,
    name: Name,
) -> Option<SymbolId>
    ensures { symbol_number result ≡ found (names_of scoping.now (B.PairSet.pairs bindings.now) (H.PairSet.pairs hoisting.now)) scope.0 name.0 }
{
    let bound = binding_in(bindings, scope, name);
    let symbol = bound.or_else(|| binding_in(hoisting, scope, name))?;
    let flags = scoping.symbol_or_empty(symbol).flags;
    (!flags.intersects(SymbolFlags::FUNCTION_EXPRESSION)).then_some(symbol)
}

/// Writes a conflict if the symbol has a flag that the declaration excludes.
#[tactic(auto, unfolding(model::specs::Declaring::complain))]
fn complain_of<B: Store<ScopeAndName>, H: Store<ScopeAndName>>(
    names: &mut NameTables<B, H>,
    symbol: SymbolId,
    d: Told,
)
    requires { length names.old.scoping.conflicts < most_conflicts }
    ensures names { names_in B.PairSet.pairs H.PairSet.pairs names.new ≡ complain (plain d) (names_in B.PairSet.pairs H.PairSet.pairs names.old) symbol.0 }
    ensures rest { beside_names names.new.scoping ≡ beside_names names.old.scoping }
{
    let row = names.scoping.symbol_or_empty(symbol);
    if row.flags.intersects(d.excludes) {
        let _ = names.scoping.add_conflict(d.conflict_with(row));
    }
}

/// Looks up the symbol beside which the name is declared, and writes a conflict if the two may not stand side by side.
pub(crate) fn check_redeclaration<B: Store<ScopeAndName>, H: Store<ScopeAndName>>(
    names: &mut NameTables<B, H>,
    scope: ScopeId,
    d: Told,
) -> Option<SymbolId>
    requires { length names.old.scoping.conflicts < most_conflicts }
    ensures answer { symbol_number result ≡ found (names_in B.PairSet.pairs H.PairSet.pairs names.old) scope.0 d.name.0 }
    ensures names { names_in B.PairSet.pairs H.PairSet.pairs names.new ≡ maybe (symbol_number result) (names_in B.PairSet.pairs H.PairSet.pairs names.old) (complain (plain d) (names_in B.PairSet.pairs H.PairSet.pairs names.old)) }
    ensures rest { beside_names names.new.scoping ≡ beside_names names.old.scoping }
{
    let symbol = found_symbol(
        &names.scoping,
        &names.bindings,
        &names.hoisting,
        scope,
        d.name,
    )?;
    complain_of(names, symbol, d);
    Some(symbol)
}

/// Writes down one more declaration of a symbol. The first time the symbol itself is written down too, as it is then.
#[tactic(auto, unfolding(model::specs::Declaring::add_symbol_redeclaration))]
pub(crate) fn add_symbol_redeclaration<B: Store<ScopeAndName>, H: Store<ScopeAndName>>(
    names: &mut NameTables<B, H>,
    symbol: SymbolId,
    d: Told,
)
    requires { length names.old.scoping.redeclarations + 2 ≤ most_redeclarations }
    ensures names { names_in B.PairSet.pairs H.PairSet.pairs names.new ≡ add_symbol_redeclaration (plain d) (names_in B.PairSet.pairs H.PairSet.pairs names.old) symbol.0 }
    ensures rest { beside_names names.new.scoping ≡ beside_names names.old.scoping }
{
    if !names.scoping.has_redeclaration(symbol) {
        let own = first_declaration(symbol, names.scoping.symbol_or_empty(symbol));
        let _ = names.scoping.add_redeclaration(own);
    }
    let _ = names.scoping.add_redeclaration(d.new_declaration(symbol));
}

/// Gives a symbol the flags of one more declaration.
#[tactic(auto, unfolding(model::specs::Declaring::unite))]
pub fn union_symbol_flags(scoping: &mut Scoping, symbol: SymbolId, d: Told)
    ensures names { (b h : Pairs ScopeAndName) → names_of scoping.new b h ≡ unite (plain d) (names_of scoping.old b h) symbol.0 }
    ensures rest { beside_names scoping.new ≡ beside_names scoping.old }
{
    let row = scoping.symbol_or_empty(symbol);
    let flags = row.flags.union(d.includes);
    let _ = scoping.set_symbol(symbol, SymbolRow { flags, ..row });
}

/// Makes a new symbol and binds it in the scope, over any other.
#[tactic(auto, unfolding(model::specs::Declaring::declare_shadow_symbol))]
pub(crate) fn declare_shadow_symbol<B: Store<ScopeAndName>, H: Store<ScopeAndName>>(
    names: &mut NameTables<B, H>,
    scope: ScopeId,
    d: Told,
) -> SymbolId
    requires symbols { length names.old.scoping.symbols < most_symbols }
    requires room { (B.PairSet.pairs names.old.bindings).size < least_capacity }
    ensures names { declared_in B.PairSet.pairs H.PairSet.pairs names.new result ≡ declare_shadow_symbol (plain d) (names_in B.PairSet.pairs H.PairSet.pairs names.old) scope.0 }
    ensures rest { beside_names names.new.scoping ≡ beside_names names.old.scoping }
{
    let Ok(symbol) = names.scoping.add_symbol(d.new_symbol(scope)) else {
        unreachable()
    };
    let key = ScopeAndName {
        scope,
        name: d.name,
    };
    let _ = names.bindings.insert(key, symbol.0);
    symbol
}

/// Declares the symbol that is found once more, or makes a new one.
#[tactic(auto, unfolding(model::specs::Declaring::declare_symbol_on_scope, model::specs::Declaring::complain))]
pub(crate) fn declare_symbol_on_scope<B: Store<ScopeAndName>, H: Store<ScopeAndName>>(
    names: &mut NameTables<B, H>,
    scope: ScopeId,
    d: Told,
) -> SymbolId
    requires { Fits (names_in B.PairSet.pairs H.PairSet.pairs names.old) 1 }
    ensures names { declared_in B.PairSet.pairs H.PairSet.pairs names.new result ≡ declare_symbol_on_scope (plain d) (names_in B.PairSet.pairs H.PairSet.pairs names.old) scope.0 }
    ensures rest { beside_names names.new.scoping ≡ beside_names names.old.scoping }
{
    match check_redeclaration(names, scope, d) {
        Some(symbol) => {
            add_symbol_redeclaration(names, symbol, d);
            union_symbol_flags(&mut names.scoping, symbol, d);
            symbol
        }
        None => declare_shadow_symbol(names, scope, d),
    }
}

/// Moves the binding of a name from one scope to another, unless that has the name; the symbol's scope follows.
#[tactic(auto, unfolding(model::specs::Declaring::move_binding))]
pub(crate) fn move_binding<B: Store<ScopeAndName>, H: Store<ScopeAndName>>(
    names: &mut NameTables<B, H>,
    from: ScopeId,
    to: ScopeId,
    name: Name,
    symbol: SymbolId,
)
    requires room { (drop_pair same_scope_and_name (B.PairSet.pairs names.old.bindings) (place from.0 name.0)).size < least_capacity }
    ensures names { names_in B.PairSet.pairs H.PairSet.pairs names.new ≡ move_binding (names_in B.PairSet.pairs H.PairSet.pairs names.old) from.0 to.0 name.0 symbol.0 }
    ensures rest { beside_names names.new.scoping ≡ beside_names names.old.scoping }
{
    let target = ScopeAndName { scope: to, name };
    if names.bindings.get(target).is_some() {
        return;
    }
    names.bindings.remove(ScopeAndName { scope: from, name });
    let _ = names.bindings.insert(target, symbol.0);
    let row = names.scoping.symbol_or_empty(symbol);
    let _ = names
        .scoping
        .set_symbol(symbol, SymbolRow { scope: to, ..row });
}
