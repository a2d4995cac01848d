//! How a hashed store is made.
ghost use Rattle.std.specs.Prelude.{◌≡◌, length};
ghost use Rattle.stores.specs.Pairs.{no_pairs};
ghost use Rattle.hash_store.specs.Meaning.{pairs_of, capacity_of};

use super::HashStore;
use crate::slot::Slot;
use stores::key::Key;
use stores::places::Places;

impl<'a, K: Key> HashStore<'a, K> {
    /// A store with no pairs; what the slots held is lost.
    pub fn new(places: Places<'a, Slot<K>>) -> HashStore<'a, K>
        ensures empty { pairs_of K.eq K.Key.hash result ≡ no_pairs }
        ensures places { capacity_of result ≡ length places.entry.lent.now }
    {
        let slots = places.lent;
        slots.fill(Slot::Empty);
        HashStore { slots, count: 0 }
    }
}
