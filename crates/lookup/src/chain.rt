//! Walks along a scope and its ancestors.
ghost use Rattle.std.specs.Prelude.{◌≡◌, length};
ghost use Rattle.tables.specs.Flags.{meets};
ghost use Rattle.tables.specs.Trees.{Tree};
ghost use Rattle.model.specs.Basics.{scope_number};
ghost use Rattle.model.specs.Scopes.{parent_of, flags_in, is_var, is_strict, target, passed, conditional_scope};

use crate::ancestors::ancestors_from;
use tables::flags::{FlagSet, ScopeFlags};
use tables::id::ScopeId;
use tables::scoping::Scoping;

pub fn parent(scoping: &Scoping, scope: ScopeId) -> Option<ScopeId>
    ensures parent { scope_number result ≡ parent_of scoping.now.scopes scope.0 }
    ensures tree { Tree scoping.now.scopes }
{
    scoping.scope_or_empty(scope).parent
}

/// Whether the scope has a flag of the set.
fn has_flag(scoping: &Scoping, scope: ScopeId, set: ScopeFlags) -> bool
    ensures flag { result ≡ meets (flags_in scoping.now.scopes scope.0) set.0 }
    ensures tree { Tree scoping.now.scopes }
{
    scoping.scope_or_empty(scope).flags.intersects(set)
}

pub fn is_var(scoping: &Scoping, scope: ScopeId) -> bool
    ensures var { result ≡ is_var scoping.now.scopes scope.0 }
    ensures tree { Tree scoping.now.scopes }
{
    has_flag(scoping, scope, ScopeFlags::VAR)
}

pub fn is_strict(scoping: &Scoping, scope: ScopeId) -> bool
    ensures { result ≡ is_strict scoping.now.scopes scope.0 }
{
    has_flag(scoping, scope, ScopeFlags::STRICT_MODE)
}

/// The nearest var scope.
pub fn var_scope(scoping: &Scoping, from: ScopeId) -> ScopeId
    ensures { result.0 ≡ target scoping.now.scopes from.0 }
{
    ancestors_from(scoping, from)
        .find(|scope| is_var(scoping, *scope))
        .unwrap_or(ScopeId::ROOT)
}

/// How many scopes a var passes on the way to its nearest var scope.
pub fn passed_count(scoping: &Scoping, from: ScopeId) -> usize
    ensures { result ≡ length (passed scoping.now.scopes from.0) }
{
    ancestors_from(scoping, from)
        .take_while(|scope| !is_var(scoping, *scope))
        .count()
}

/// The nearest conditional type, or the scope itself.
pub fn conditional_or_self(scoping: &Scoping, from: ScopeId) -> ScopeId
    ensures { result.0 ≡ conditional_scope scoping.now.scopes from.0 }
{
    ancestors_from(scoping, from)
        .find(|scope| has_flag(scoping, *scope, ScopeFlags::TS_CONDITIONAL))
        .unwrap_or(from)
}
