//! What holds of keys and of sets of pairs, as the contracts of small functions.
ghost use Rattle.std.specs.Prelude.{◌≡◌};
ghost use Rattle.stores.specs.Counting.{CountingStands};
ghost use Rattle.stores.specs.Keys.{same_scope_and_name, same_name, IsEquality};

use crate::key::{Key, ScopeAndName};
use tables::id::Name;

/// The size of a set of pairs is the number of its keys, whatever is put and dropped.
pub fn counting_stands<K: Key>() -> u8
    ensures { CountingStands K.eq }
{
    0
}

/// Keys of either type are the same, by `==`, exactly if they are equal.
pub fn sameness_is_equality() -> u8
    ensures by_scope_and_name { (x y : ScopeAndName) → ⟦<ScopeAndName as PartialEq>⟧.eq x y ≡ same_scope_and_name x y }
    ensures by_name { (x y : Name) → ⟦<Name as PartialEq>⟧.eq x y ≡ same_name x y }
    ensures scopes_and_names { IsEquality same_scope_and_name }
    ensures names { IsEquality same_name }
{
    0
}
