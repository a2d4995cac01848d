//! A scope and its ancestors, one after the other.
ghost use Rattle.std.specs.Prelude.{◌≡◌};
ghost use Rattle.std.specs.Iterator.{YieldsFirstBy, item_count};
ghost use Rattle.model.specs.Scopes.{chain};
ghost use Rattle.lookup.specs.Ancestry.{ancestors_left};

use crate::chain::parent;
use tables::id::ScopeId;
use tables::scoping::Scoping;

/// Which scope a walk comes to next: this one, or the parent of one that it has passed. So a parent is read only if it is asked for.
#[derive(Clone, Copy)]
enum Walk {
    At(ScopeId),
    Past(ScopeId),
}

/// The scopes that are left of a walk to the root.
#[derive(Drop)]
pub struct Ancestors<'a> {
    scoping: &'a Scoping,
    walk: Walk,
}

/// A scope and its ancestors, up to the root.
pub fn ancestors_from(scoping: &Scoping, from: ScopeId) -> Ancestors<'_>
    ensures { ancestors_left result ≡ chain scoping.now.scopes from.0 }
{
    Ancestors {
        scoping,
        walk: Walk::At(from),
    }
}

impl Iterator for Ancestors<'_> {
    type Item = ScopeId;

    ghost next_gives = { YieldsFirstBy (λ s. s.0) ancestors_left };

    ghost remaining = { item_count ancestors_left };

    #[tactic(auto, using(model::proofs::Chains::chain_on))]
    fn next(&mut self) -> Option<ScopeId> {
        // For the fact alone that the rows are a tree.
        let _rows = self.scoping.scopes();
        let here = match self.walk {
            Walk::At(scope) => scope,
            Walk::Past(scope) => parent(self.scoping, scope)?,
        };
        self.walk = Walk::Past(here);
        Some(here)
    }
}
