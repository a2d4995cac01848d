//! The hashed store.
ghost use Rattle.std.specs.Prelude.{◌≡◌, ◌≤◌, length};
ghost use Rattle.stores.specs.Pairs.{least_capacity};
ghost use Rattle.hash_store.specs.Slots.{taken, Settled, Unlike};

use crate::slot::Slot;
use stores::key::Key;

mod made;
mod methods;

/// Slots in a ring, of which `count` are full. A pair lies in the slot that its hash number names, or in a later one, with no empty slot between.
#[derive(Drop)]
pub struct HashStore<'a, K: Key> {
    slots: &'a mut [Slot<K>],
    // A count beside the slots and no map: the memory is lent, and no store takes any.
    count: usize,
    ghost enough: { least_capacity ≤ length slots.now },
    ghost counted: { count ≡ taken slots.now },
    ghost settled: { Settled slots.now },
    ghost different: { Unlike K.eq slots.now },
}
