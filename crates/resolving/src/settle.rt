//! What becomes of one pending reference.
#![tactic(auto, unfolding(model::specs::Resolving::settle))]

ghost use Rattle.std.specs.Prelude.{◌≡◌, ◌<◌, length};
ghost use Rattle.tables.specs.Limits.{most_references};
ghost use Rattle.stores.specs.Pairs.{Pairs, least_capacity, no_pairs};
ghost use Rattle.model.specs.Resolving.{list_number, with_list, settle, resolve_to, list_at_root};
ghost use Rattle.model.specs.View.{names_of, uses_of, beside_uses};
ghost use Rattle.resolving.specs.Fates.{fate_meant, fate_in, symbols_of, HasRoomForOne, Settled};

use crate::fate::{EndOfScope, Fate};
use lookup::search::{resolved_flags, scope_is_descendant_of, search_chain};
use lookup::sought::Sought;
use stores::key::ScopeAndName;
use stores::store::Store;
use tables::id::{Name, SymbolId};
use tables::row::{ReferenceRow, ResolvedReference, RootReference, UnresolvedReference};
use tables::scoping::Scoping;

/// What becomes of a pending entry. One from elsewhere is not looked up at the end of a scope.
pub fn fate_of<B: Store<ScopeAndName>>(
    scoping: &Scoping,
    bindings: &B,
    end: Option<EndOfScope>,
    entry: UnresolvedReference,
) -> Fate
    ensures { (h : Pairs ScopeAndName) → fate_meant result ≡ fate_in end scoping.now.scopes (names_of scoping.now (B.PairSet.pairs bindings.now) h) (uses_of scoping.now no_pairs) entry }
{
    if end.is_some_and(|end| !scope_is_descendant_of(scoping, entry.scope, end.scope)) {
        return Fate::Stay(entry.scope);
    }
    let flags = scoping.reference_or_empty(entry.reference).flags;
    let last = end.map(|end| end.scope);
    match search_chain(scoping, bindings, entry.name, flags, entry.scope, last) {
        Sought::Found(symbol) => Fate::Resolve(symbol),
        Sought::Ended => Fate::ListAtRoot,
        Sought::Passed => end.map_or(Fate::ListAtRoot, |end| Fate::Stay(end.parent)),
    }
}

/// The number of a name's root unresolved list: a new list has the next number.
fn list_number<R: Store<Name>>(roots: &mut R, name: Name) -> u32
    requires { (R.PairSet.pairs roots.old).size < least_capacity }
    ensures answer { result ≡ list_number (R.PairSet.pairs roots.old) name.0 }
    ensures after { R.PairSet.pairs roots.new ≡ with_list (R.PairSet.pairs roots.old) name.0 }
{
    if let Some(list) = roots.get(name) {
        return list;
    }
    let list = roots.count() as u32;
    let _ = roots.insert(name, list);
    list
}

/// Resolves a reference to a symbol.
fn resolve_reference(scoping: &mut Scoping, entry: UnresolvedReference, symbol: SymbolId)
    requires { length scoping.old.resolved < most_references }
    ensures after { uses_of scoping.new no_pairs ≡ settle (symbols_of scoping.old) (uses_of scoping.old no_pairs) entry (resolve_to symbol.0) }
    ensures rest { beside_uses scoping.new ≡ beside_uses scoping.old }
{
    let row = scoping.reference_or_empty(entry.reference);
    let flags = resolved_flags(row.flags, scoping.symbol_or_empty(symbol).flags);
    let _ = scoping.set_reference(
        entry.reference,
        ReferenceRow {
            flags,
            symbol: Some(symbol),
            ..row
        },
    );
    let _ = scoping.add_resolved(ResolvedReference {
        symbol,
        reference: entry.reference,
    });
}

/// Puts a reference into the root unresolved list of its name.
fn list_at_root<R: Store<Name>>(scoping: &mut Scoping, roots: &mut R, entry: UnresolvedReference)
    requires room { length scoping.old.root < most_references }
    requires places { (R.PairSet.pairs roots.old).size < least_capacity }
    ensures after { uses_of scoping.new (R.PairSet.pairs roots.new) ≡ settle (symbols_of scoping.old) (uses_of scoping.old (R.PairSet.pairs roots.old)) entry list_at_root }
    ensures rest { beside_uses scoping.new ≡ beside_uses scoping.old }
{
    let list = list_number(roots, entry.name);
    let _ = scoping.add_root(RootReference {
        list,
        reference: entry.reference,
    });
}

/// Resolves, lists or keeps an entry. One that is kept goes to the place `kept` of the pending list.
/// Answers the place for the next one.
pub(crate) fn settle_entry<R: Store<Name>>(
    scoping: &mut Scoping,
    roots: &mut R,
    entry: UnresolvedReference,
    fate: Fate,
    kept: usize,
) -> usize
    requires there { kept < length scoping.old.pending }
    requires room { HasRoomForOne (uses_of scoping.old (R.PairSet.pairs roots.old)) }
    ensures { Settled scoping.old (R.PairSet.pairs roots.old) scoping.new (R.PairSet.pairs roots.new) entry fate kept result }
{
    // A match and no closures: each outcome writes to another list.
    match fate {
        Fate::Resolve(symbol) => {
            resolve_reference(scoping, entry, symbol);
            kept
        }
        Fate::ListAtRoot => {
            list_at_root(scoping, roots, entry);
            kept
        }
        Fate::Stay(scope) => {
            let _ = scoping.set_pending(kept, UnresolvedReference { scope, ..entry });
            kept + 1
        }
    }
}
