//! The memory of a store, which is lent to it.
ghost use Rattle.std.specs.Prelude.{◌≡◌, ◌≤◌, length, if◌then◌else◌, Ok, Err, nat_lt};
ghost use Rattle.std.specs.Result.{result_map_both};
ghost use Rattle.tables.specs.declared.refusal.Refusal.TheVariants.{StoreFull};
ghost use Rattle.stores.specs.Pairs.{least_capacity};

use crate::store::LEAST_CAPACITY;
use tables::refusal::Refusal;

/// As many places as every store has, or more.
#[derive(Drop)]
pub struct Places<'a, T> {
    pub lent: &'a mut [T],
    ghost enough: { least_capacity ≤ length lent.now },
}

impl<'a, T> Places<'a, T> {
    /// Whether the places are enough for a store. They are only looked at, so a refusal leaves them as they are.
    pub fn check(places: &[T]) -> Result<(), Refusal>
        ensures { result ≡ (if nat_lt (length places.now) least_capacity then Err StoreFull else Ok tt) }
    {
        if places.len() < LEAST_CAPACITY {
            Err(Refusal::StoreFull)
        } else {
            Ok(())
        }
    }

    /// Refused exactly if `check` refuses.
    pub fn new(lent: &'a mut [T]) -> Result<Places<'a, T>, Refusal>
        ensures { result_map_both (λ p. p.lent.now) (λ e. e) result ≡ (if nat_lt (length lent.old) least_capacity then Err StoreFull else Ok lent.old) }
    {
        Self::check(lent)?;
        Ok(Places { lent })
    }
}
