//! Rows that are listed under an owner: a symbol, or the number of a root unresolved list.
ghost use Rattle.std.specs.Prelude.{◌≡◌, ℕ, length, nat_eq};
ghost use Rattle.std.specs.List.{slice_get};
ghost use Rattle.tables.specs.Picked.{owned};

use crate::id::SymbolId;
use crate::row::{Redeclaration, ResolvedReference, RootReference};

pub trait OwnedRow: Copy {
    type Owner: Copy;

    /// The number of the row's owner.
    ghost owner: { Self → ℕ };

    ghost number: { Self.Owner → ℕ };

    fn is_of(&self, one: Self::Owner) -> bool
        ensures { result ≡ nat_eq (owner self.now) (number one) };
}

impl OwnedRow for Redeclaration {
    type Owner = SymbolId;

    ghost owner = { λ e. e.symbol.0 };

    ghost number = { λ s. s.0 };

    fn is_of(&self, owner: SymbolId) -> bool {
        self.symbol == owner
    }
}

impl OwnedRow for ResolvedReference {
    type Owner = SymbolId;

    ghost owner = { λ e. e.symbol.0 };

    ghost number = { λ s. s.0 };

    fn is_of(&self, owner: SymbolId) -> bool {
        self.symbol == owner
    }
}

impl OwnedRow for RootReference {
    type Owner = u32;

    ghost owner = { λ e. e.list };

    ghost number = { λ n. n };

    fn is_of(&self, owner: u32) -> bool {
        self.list == owner
    }
}

/// How many rows the owner has.
pub fn count_of<T: OwnedRow>(rows: &[T], owner: T::Owner) -> usize
    ensures { result ≡ length (owned T.OwnedRow.owner (T.OwnedRow.number owner) rows.now) }
{
    let mut count = 0;
    for row in rows {
        if row.is_of(owner) {
            count += 1;
        }
    }
    count
}

/// The k-th row of the owner.
pub fn row_of<T: OwnedRow>(rows: &[T], owner: T::Owner, k: usize) -> Option<T>
    ensures { result ≡ slice_get (owned T.OwnedRow.owner (T.OwnedRow.number owner) rows.now) k }
{
    let mut ahead = k;
    for row in rows {
        if row.is_of(owner) {
            if ahead == 0 {
                return Some(*row);
            }
            ahead -= 1;
        }
    }
    None
}
