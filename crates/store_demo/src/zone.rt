//! The bindings of a zone: scopes with names of their own and names that many scopes use.
use stores::key::ScopeAndName;
use tables::id::{Name, ScopeId};

pub const BINDINGS: u32 = 512;

const SCOPES: u32 = 256;

const SHARED_NAMES: u32 = 16;

/// The name that only this scope declares.
fn own_name(scope: u32) -> Name {
    Name(SHARED_NAMES.wrapping_add(scope))
}

/// The k-th binding: each scope declares a name of its own and one that others declare too.
pub fn binding(k: u32) -> ScopeAndName {
    let scope = k / 2 % SCOPES;
    let name = if k % 2 == 0 {
        own_name(scope)
    } else {
        Name(scope % SHARED_NAMES)
    };
    ScopeAndName {
        scope: ScopeId(scope),
        name,
    }
}

/// A key that has no binding: the own name of a scope, asked for in one of the two scopes before it.
pub fn absent(k: u32) -> ScopeAndName {
    let scope = k / 2 % SCOPES;
    ScopeAndName {
        scope: ScopeId((scope + SCOPES - 1 - k % 2) % SCOPES),
        name: own_name(scope),
    }
}

/// A key that is bound for a short while.
pub fn passing(k: u32) -> ScopeAndName {
    ScopeAndName {
        scope: ScopeId(k % SCOPES),
        name: Name(SHARED_NAMES.wrapping_add(SCOPES).wrapping_add(k)),
    }
}
