//! Resolving the pending references, at the end of a scope and at the end of the program.
#![tactic(auto, unfolding(model::specs::Resolving::resolve_here, model::specs::Resolving::resolve_end))]

ghost use Rattle.std.specs.Prelude.{◌≡◌};
ghost use Rattle.stores.specs.Pairs.{Pairs};
ghost use Rattle.model.specs.Resolving.{resolve_here, resolve_end};
ghost use Rattle.model.specs.Calls.{counted};
ghost use Rattle.model.specs.declared.call.Granted.TheVariants.{Counted};
ghost use Rattle.model.specs.View.{names_of, uses_of, beside_uses};
ghost use Rattle.resolving.specs.Fates.{resolve_by, HasRoom};

use crate::fate::EndOfScope;
use crate::settle::{fate_of, settle_entry};
use lookup::chain::parent;
use model::call::Counts;
use stores::key::ScopeAndName;
use stores::store::Store;
use tables::id::{Name, ScopeId};
use tables::scoping::Scoping;

/// Settles the pending entries from `start` on, and keeps those that stay, in order.
fn settle_pending<B: Store<ScopeAndName>, R: Store<Name>>(
    scoping: &mut Scoping,
    bindings: &B,
    roots: &mut R,
    end: Option<EndOfScope>,
    start: usize,
) -> Counts
    requires { HasRoom (uses_of scoping.old (R.PairSet.pairs roots.old)) start }
    ensures answer { Counted result ≡ counted (uses_of scoping.old (R.PairSet.pairs roots.old)) (uses_of scoping.new (R.PairSet.pairs roots.new)) }
    ensures after { (h : Pairs ScopeAndName) → uses_of scoping.new (R.PairSet.pairs roots.new) ≡ resolve_by end scoping.old.scopes (names_of scoping.old (B.PairSet.pairs bindings.now) h) start (uses_of scoping.old (R.PairSet.pairs roots.old)) }
    ensures rest { beside_uses scoping.new ≡ beside_uses scoping.old }
{
    let resolved = scoping.resolved().len();
    let root = scoping.root().len();
    let count = scoping.pending().len();
    let mut next = start;
    // By index, since what stays is written over the front of the list.
    for k in start..count {
        let entry = scoping.pending()[k];
        let fate = fate_of(scoping, bindings, end, entry);
        next = settle_entry(scoping, roots, entry, fate, next);
    }
    scoping.cut_pending(next);
    Counts {
        resolved: (scoping.resolved().len() - resolved) as u32,
        root: (scoping.root().len() - root) as u32,
        pending: scoping.pending().len() as u32,
    }
}

/// Resolves, root-lists or defers the pending references from `start` on, at the end of the current scope.
pub fn resolve_from<B: Store<ScopeAndName>, R: Store<Name>>(
    scoping: &mut Scoping,
    bindings: &B,
    roots: &mut R,
    current: ScopeId,
    start: usize,
) -> Counts
    requires { HasRoom (uses_of scoping.old (R.PairSet.pairs roots.old)) start }
    ensures answer { Counted result ≡ counted (uses_of scoping.old (R.PairSet.pairs roots.old)) (uses_of scoping.new (R.PairSet.pairs roots.new)) }
    ensures after { (h : Pairs ScopeAndName) → uses_of scoping.new (R.PairSet.pairs roots.new) ≡ resolve_here scoping.old.scopes current.0 (names_of scoping.old (B.PairSet.pairs bindings.now) h) start (uses_of scoping.old (R.PairSet.pairs roots.old)) }
    ensures rest { beside_uses scoping.new ≡ beside_uses scoping.old }
{
    let end = EndOfScope {
        scope: current,
        parent: parent(scoping, current).unwrap_or(ScopeId::ROOT),
    };
    settle_pending(scoping, bindings, roots, Some(end), start)
}

/// Resolves or root-lists all pending references, at the end of the program.
pub fn resolve_all<B: Store<ScopeAndName>, R: Store<Name>>(
    scoping: &mut Scoping,
    bindings: &B,
    roots: &mut R,
) -> Counts
    requires { HasRoom (uses_of scoping.old (R.PairSet.pairs roots.old)) 0 }
    ensures answer { Counted result ≡ counted (uses_of scoping.old (R.PairSet.pairs roots.old)) (uses_of scoping.new (R.PairSet.pairs roots.new)) }
    ensures after { (h : Pairs ScopeAndName) → uses_of scoping.new (R.PairSet.pairs roots.new) ≡ resolve_end scoping.old.scopes (names_of scoping.old (B.PairSet.pairs bindings.now) h) (uses_of scoping.old (R.PairSet.pairs roots.old)) }
    ensures rest { beside_uses scoping.new ≡ beside_uses scoping.old }
{
    settle_pending(scoping, bindings, roots, None, 0)
}
