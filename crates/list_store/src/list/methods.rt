//! A list store keeps a store's promises.
ghost use Rattle.std.specs.Prelude.{◌≡◌, position, take};
ghost use Rattle.list_store.specs.Meaning.{pairs_of, capacity_of};

use super::ListStore;
use crate::entry::Entry;
use stores::key::Key;
use stores::store::{PairSet, Store};
use tables::refusal::Refusal;

impl<'a, K: Key> ListStore<'a, K> {
    /// The place of the pair of `key`.
    fn place(&self, key: K) -> Option<usize>
        ensures { result ≡ position (λ x. K.eq key x.key) (take self.now.count self.now.entries.now) }
    {
        self.entries[..self.count]
            .iter()
            .position(|entry| key == entry.key)
    }
}

impl<'a, K: Key> PairSet<K> for ListStore<'a, K> {
    ghost pairs = { pairs_of K.eq };

    ghost capacity = { capacity_of };

    ghost bounds = { λ s. record { enough = s.enough; within = s.within } };
}

impl<'a, K: Key> Store<K> for ListStore<'a, K> {
    fn get(&self, key: K) -> Option<u32> {
        let i = self.place(key)?;
        Some(self.entries[i].number)
    }

    fn count(&self) -> usize {
        self.count
    }

    fn insert(&mut self, key: K, number: u32) -> Result<(), Refusal> {
        if let Some(i) = self.place(key) {
            self.entries[i].number = number;
        } else if self.count == self.entries.len() {
            return Err(Refusal::StoreFull);
        } else {
            self.entries[self.count] = Entry { key, number };
            self.count += 1;
        }
        Ok(())
    }

    fn remove(&mut self, key: K) {
        if let Some(i) = self.place(key) {
            let end = self.count;
            self.count -= 1;
            // The pairs behind it come up again, in their order.
            self.entries.copy_within(i + 1..end, i);
        }
    }

    fn clear(&mut self) {
        self.count = 0;
    }
}
