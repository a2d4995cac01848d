//! How a reference finds its symbol along its lookup chain.
// Name and flags are apart: they come from two rows, and the definitions take them so.
ghost use Rattle.std.specs.Prelude.{◌≡◌};
ghost use Rattle.stores.specs.Pairs.{no_pairs};
ghost use Rattle.model.specs.Basics.{place, symbol_number};
ghost use Rattle.model.specs.Scopes.{chain, is_below};
ghost use Rattle.model.specs.Resolving.{can_resolve, resolved_flags, of_arguments, ends_at, serves, serving_in};
ghost use Rattle.lookup.specs.NamesIn.{names_in};
ghost use Rattle.lookup.specs.Seeking.{bound_names, seek, first_binding};

use crate::ancestors::ancestors_from;
use crate::name_tables::NameTables;
use crate::sought::Sought;
use stores::key::ScopeAndName;
use stores::store::Store;
use tables::flags::{FlagSet, ReferenceFlags, ScopeFlags, SymbolFlags};
use tables::id::{Name, ScopeId, SymbolId};
use tables::scoping::Scoping;

/// The uses for which the name `arguments` is that of the nearest function with `arguments` of its own.
const ARGUMENTS_USES: ReferenceFlags = ReferenceFlags(
    ReferenceFlags::VALUE.0 | ReferenceFlags::VALUE_AS_TYPE.0,
);

/// Whether a reference of these flags can resolve to a symbol of those.
pub fn can_resolve(reference: ReferenceFlags, symbol: SymbolFlags) -> bool
    ensures { result ≡ can_resolve reference.0 symbol.0 }
{
    if reference.intersects(ReferenceFlags::NAMESPACE)
        && !reference.intersects(ReferenceFlags::VALUE_AS_TYPE)
        && !symbol.intersects(SymbolFlags::BY_NAMESPACE)
    {
        return false;
    }
    (reference.intersects(ReferenceFlags::VALUE) && symbol.intersects(SymbolFlags::BY_VALUE))
        || (reference.intersects(ReferenceFlags::TYPE) && symbol.intersects(SymbolFlags::BY_TYPE))
        || (reference.intersects(ReferenceFlags::VALUE_AS_TYPE)
            && symbol.intersects(SymbolFlags::BY_VALUE_AS_TYPE))
}

/// The flags of a reference once it is resolved to a symbol.
pub fn resolved_flags(reference: ReferenceFlags, symbol: SymbolFlags) -> ReferenceFlags
    ensures { result.0 ≡ resolved_flags reference.0 symbol.0 }
{
    if reference.intersects(ReferenceFlags::VALUE) && symbol.intersects(SymbolFlags::BY_VALUE) {
        return reference.difference(ReferenceFlags::TYPE);
    }
    if reference.intersects(ReferenceFlags::NAMESPACE)
        && reference.intersects(ReferenceFlags::READ)
    {
        return reference.difference(ReferenceFlags::TYPE);
    }
    ReferenceFlags::TYPE
}

/// Whether the reference is to the `arguments` of a function.
pub fn is_of_arguments(name: Name, flags: ReferenceFlags) -> bool
    ensures { result ≡ of_arguments name.0 flags.0 }
{
    name == Name::ARGUMENTS && flags.intersects(ARGUMENTS_USES)
}

/// The symbol that the name is bound to in the scope.
pub fn binding_in<B: Store<ScopeAndName>>(
    bindings: &B,
    scope: ScopeId,
    name: Name,
) -> Option<SymbolId>
    ensures { symbol_number result ≡ (B.PairSet.pairs bindings.now).get (place scope.0 name.0) }
{
    bindings.get(ScopeAndName { scope, name }).map(SymbolId)
}

/// Whether the lookup chain of the reference ends with the scope.
pub fn ends_at(scoping: &Scoping, name: Name, flags: ReferenceFlags, scope: ScopeId) -> bool
    ensures { result ≡ ends_at scoping.now.scopes name.0 flags.0 scope.0 }
{
    let scope_flags = scoping.scope_or_empty(scope).flags;
    is_of_arguments(name, flags)
        && scope_flags.intersects(ScopeFlags::FUNCTION)
        && !scope_flags.intersects(ScopeFlags::ARROW)
}

/// Whether a scope is another or below it.
pub fn scope_is_descendant_of(scoping: &Scoping, scope: ScopeId, here: ScopeId) -> bool
    ensures { result ≡ is_below scoping.now.scopes here.0 scope.0 }
{
    ancestors_from(scoping, scope).any(|at| at == here)
}

/// Whether the symbol serves the reference: the name of a function expression is no `arguments`.
pub fn serves(scoping: &Scoping, name: Name, flags: ReferenceFlags, symbol: SymbolId) -> bool
    ensures { result ≡ serves (bound_names scoping.now.symbols no_pairs) name.0 flags.0 symbol.0 }
{
    let symbol_flags = scoping.symbol_or_empty(symbol).flags;
    can_resolve(flags, symbol_flags)
        && !(is_of_arguments(name, flags)
            && symbol_flags.intersects(SymbolFlags::FUNCTION_EXPRESSION))
}

/// The symbol that the name is bound to in the scope, if it serves.
pub fn serving_in<B: Store<ScopeAndName>>(
    scoping: &Scoping,
    bindings: &B,
    name: Name,
    flags: ReferenceFlags,
    scope: ScopeId,
) -> Option<SymbolId>
    ensures { symbol_number result ≡ serving_in (bound_names scoping.now.symbols (B.PairSet.pairs bindings.now)) name.0 flags.0 scope.0 }
{
    let symbol = binding_in(bindings, scope, name)?;
    serves(scoping, name, flags, symbol).then_some(symbol)
}

/// Searches the lookup chain of a reference from a scope on, up to another if one is given.
pub fn search_chain<B: Store<ScopeAndName>>(
    scoping: &Scoping,
    bindings: &B,
    name: Name,
    flags: ReferenceFlags,
    from: ScopeId,
    upto: Option<ScopeId>,
) -> Sought
    ensures { result ≡ seek scoping.now.scopes (bound_names scoping.now.symbols (B.PairSet.pairs bindings.now)) name.0 flags.0 upto (chain scoping.now.scopes from.0) }
{
    for at in ancestors_from(scoping, from) {
        if let Some(symbol) = serving_in(scoping, bindings, name, flags, at) {
            return Sought::Found(symbol);
        }
        if ends_at(scoping, name, flags, at) {
            return Sought::Ended;
        }
        if upto == Some(at) {
            return Sought::Passed;
        }
    }
    Sought::Passed
}

/// The first binding of the name in a scope or an ancestor, whatever its symbol.
pub fn find_binding<B: Store<ScopeAndName>>(
    scoping: &Scoping,
    bindings: &B,
    scope: ScopeId,
    name: Name,
) -> Option<SymbolId>
    ensures { symbol_number result ≡ first_binding (B.PairSet.pairs bindings.now) name.0 (chain scoping.now.scopes scope.0) }
{
    for at in ancestors_from(scoping, scope) {
        if let Some(symbol) = binding_in(bindings, at, name) {
            return Some(symbol);
        }
    }
    None
}

// The same of tables and stores that stand together.
impl<B: Store<ScopeAndName>, H: Store<ScopeAndName>> NameTables<B, H> {
    /// Whether the symbol serves the reference.
    pub fn serves(&self, name: Name, flags: ReferenceFlags, symbol: SymbolId) -> bool
        ensures { result ≡ serves (names_in B.PairSet.pairs H.PairSet.pairs self.now) name.0 flags.0 symbol.0 }
    {
        serves(&self.scoping, name, flags, symbol)
    }

    /// The symbol that the name is bound to in the scope, if it serves.
    pub fn serving_in(&self, name: Name, flags: ReferenceFlags, scope: ScopeId) -> Option<SymbolId>
        ensures { symbol_number result ≡ serving_in (names_in B.PairSet.pairs H.PairSet.pairs self.now) name.0 flags.0 scope.0 }
    {
        serving_in(&self.scoping, &self.bindings, name, flags, scope)
    }

    /// Searches the lookup chain of a reference from a scope on, up to another if one is given.
    pub fn search_chain(
        &self,
        name: Name,
        flags: ReferenceFlags,
        from: ScopeId,
        upto: Option<ScopeId>,
    ) -> Sought
        ensures { result ≡ seek self.now.scoping.scopes (names_in B.PairSet.pairs H.PairSet.pairs self.now) name.0 flags.0 upto (chain self.now.scoping.scopes from.0) }
    {
        search_chain(&self.scoping, &self.bindings, name, flags, from, upto)
    }

    /// The first binding of the name in a scope or an ancestor, whatever its symbol.
    pub fn find_binding(&self, scope: ScopeId, name: Name) -> Option<SymbolId>
        ensures { symbol_number result ≡ first_binding (B.PairSet.pairs self.now.bindings) name.0 (chain self.now.scoping.scopes scope.0) }
    {
        find_binding(&self.scoping, &self.bindings, scope, name)
    }
}
