//! A hashed store keeps a store's promises.
ghost use Rattle.std.specs.Prelude.{◌≡◌, ℕ, ◌%◌, ◌<◌, true, false, length, IfSome, MatchOption, slice_index_or};
ghost use Rattle.hash_store.specs.declared.slot.Slot.TheVariants.{Empty, Deleted};
ghost use Rattle.hash_store.specs.Meaning.{pairs_of, capacity_of};
ghost use Rattle.hash_store.specs.Slots.{is_full, matches, spot, steps, bounded, Unpassed, Nearer};

use super::HashStore;
use crate::probe::{behind, distance};
use crate::slot::Slot;
use stores::key::Key;
use stores::store::{PairSet, Store};
use tables::refusal::Refusal;

impl<'a, K: Key> HashStore<'a, K> {
    /// The slot that holds the pair of `key`.
    fn place(&self, key: K) -> Option<usize>
        ensures within { IfSome result (λ i. i < length self.now.slots.now) }
        ensures place { MatchOption result ((j : ℕ) → matches K.eq (K.Key.hash key) key (slice_index_or self.now.slots.now j Empty) ≡ false) (λ i. matches K.eq (K.Key.hash key) key (slice_index_or self.now.slots.now i Empty) ≡ true) }
    {
        let n = self.slots.len();
        let hash = key.hash_number();
        let home = hash as usize % n;
        let slots = &*self.slots;
        // No chain: its adapters would read each slot twice, and every look-up goes through here.
        let mut at = home;
        for _step in 0..n {
            let slot = &slots[at];
            if slot.is_empty() {
                return None;
            }
            if slot.holds(key, hash) {
                return Some(at);
            }
            at = behind(at, 1, n);
        }
        None
    }

    /// The first slot from the home of `hash` on that a new pair can take.
    fn room(&self, hash: u32) -> Option<usize>
        ensures within { IfSome result (λ i. i < length self.now.slots.now) }
        ensures free { IfSome result (λ i. is_full (slice_index_or self.now.slots.now i Empty) ≡ false) }
        ensures way { MatchOption result ((j : ℕ) → j < length self.now.slots.now → is_full (slice_index_or self.now.slots.now j Empty) ≡ true) (λ i. (t : ℕ) → t < steps (length self.now.slots.now) (hash % length self.now.slots.now) i → is_full (slice_index_or self.now.slots.now (spot (length self.now.slots.now) (hash % length self.now.slots.now) t) Empty) ≡ true) }
    {
        let slots = &*self.slots;
        let mut at = hash as usize % slots.len();
        for _turn in 0..slots.len() {
            if !slots[at].is_full() {
                return Some(at);
            }
            at = behind(at, 1, slots.len());
        }
        None
    }

    /// The first slot behind `hole` whose pair may move there, which brings it nearer to its home.
    fn filler(&self, hole: usize) -> Option<usize>
        requires { hole < length self.now.slots.now }
        ensures within { IfSome result (λ i. i < length self.now.slots.now) }
        ensures full { IfSome result (λ i. is_full (slice_index_or self.now.slots.now i Empty) ≡ true) }
        ensures nearer { MatchOption result (Unpassed self.now.slots.now hole) (λ i. Nearer self.now.slots.now hole i) }
    {
        let n = self.slots.len();
        // No chain: a pair may move if it is `step` places from its home, so each adapter would carry the step beside the place.
        let mut at = behind(hole, 1, n);
        for step in 1..n {
            match self.slots[at] {
                Slot::Empty => return None,
                Slot::Deleted => {}
                Slot::Full { hash, .. } => {
                    if step <= distance(hash as usize % n, at, n) {
                        return Some(at);
                    }
                }
            }
            at = behind(at, 1, n);
        }
        None
    }

    /// Moves a pair into the hole that a removed one left, then one into the hole that this leaves, until a hole can stay empty.
    fn close(&mut self, start: usize)
        requires within { start < length self.old.slots.now }
        requires hole { slice_index_or self.old.slots.now start Empty ≡ Deleted }
        ensures after { pairs_of K.eq K.Key.hash self.new ≡ pairs_of K.eq K.Key.hash self.old }
        ensures places { capacity_of self.new ≡ capacity_of self.old }
    {
        let mut hole = start;
        while let Some(at) = self.filler(hole) {
            self.slots.swap(at, hole);
            hole = at;
        }
        self.slots[hole] = Slot::Empty;
    }
}

impl<'a, K: Key> PairSet<K> for HashStore<'a, K> {
    ghost pairs = { pairs_of K.eq K.Key.hash };

    ghost capacity = { capacity_of };

    ghost bounds = { λ s. record { enough = s.enough; within = bounded s.count s.slots.now s.counted } };
}

impl<'a, K: Key> Store<K> for HashStore<'a, K> {
    fn get(&self, key: K) -> Option<u32> {
        let i = self.place(key)?;
        match self.slots[i] {
            Slot::Full { number, .. } => Some(number),
            _ => None,
        }
    }

    fn count(&self) -> usize {
        self.count
    }

    fn insert(&mut self, key: K, number: u32) -> Result<(), Refusal> {
        let hash = key.hash_number();
        if let Some(i) = self.place(key) {
            self.slots[i] = Slot::Full { key, hash, number };
        } else {
            let free = self.room(hash).ok_or(Refusal::StoreFull)?;
            self.slots[free] = Slot::Full { key, hash, number };
            self.count += 1;
        }
        Ok(())
    }

    fn remove(&mut self, key: K) {
        if let Some(i) = self.place(key) {
            self.slots[i] = Slot::Deleted;
            self.count -= 1;
            self.close(i);
        }
    }

    fn clear(&mut self) {
        // A store with no pairs is clear already, whatever its slots are.
        if self.count == 0 {
            return;
        }
        self.slots.fill(Slot::Empty);
        self.count = 0;
    }
}
