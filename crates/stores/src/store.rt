//! What every store promises: it means a set of pairs, and each method is an equation on that set.
ghost use Rattle.std.specs.Prelude.{◌≡◌, ℕ, if◌then◌else◌, Ok, Err};
ghost use Rattle.tables.specs.declared.refusal.Refusal.TheVariants.{StoreFull};
ghost use Rattle.stores.specs.Pairs.{Pairs, no_pairs, put, drop_pair, full, Bounds};

use crate::key::Key;
use tables::refusal::Refusal;

/// Every store has places for so many pairs at least.
pub const LEAST_CAPACITY: usize = 512;

/// The meaning of a store, apart from its methods.
pub trait PairSet<K: Key> {
    /// The pairs that it holds.
    ghost pairs: { Self → Pairs K };

    /// How many pairs it can hold.
    ghost capacity: { Self → ℕ };

    /// At least 512 pairs find a place, and no more are held than find one.
    ghost bounds: { (s : Self) → Bounds (pairs s).size (capacity s) };
}

/// A number for each of some keys.
pub trait Store<K: Key>: PairSet<K> {
    fn get(&self, key: K) -> Option<u32>
        ensures { result ≡ (Self.PairSet.pairs self.now).get key };

    fn count(&self) -> usize
        ensures { result ≡ (Self.PairSet.pairs self.now).size };

    /// Refused exactly if the key is new and no place is left.
    fn insert(&mut self, key: K, number: u32) -> Result<(), Refusal>
        ensures answer { result ≡ (if full (Self.PairSet.pairs self.old) (Self.PairSet.capacity self.old) key then Err StoreFull else Ok tt) }
        ensures after { Self.PairSet.pairs self.new ≡ (if full (Self.PairSet.pairs self.old) (Self.PairSet.capacity self.old) key then Self.PairSet.pairs self.old else put K.eq (Self.PairSet.pairs self.old) key number) }
        ensures places { Self.PairSet.capacity self.new ≡ Self.PairSet.capacity self.old };

    fn remove(&mut self, key: K)
        ensures after { Self.PairSet.pairs self.new ≡ drop_pair K.eq (Self.PairSet.pairs self.old) key }
        ensures places { Self.PairSet.capacity self.new ≡ Self.PairSet.capacity self.old };

    fn clear(&mut self)
        ensures after { Self.PairSet.pairs self.new ≡ no_pairs }
        ensures places { Self.PairSet.capacity self.new ≡ Self.PairSet.capacity self.old };
}
