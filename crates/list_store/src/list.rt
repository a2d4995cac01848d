//! The list store.
ghost use Rattle.std.specs.Prelude.{◌≤◌, length};
ghost use Rattle.stores.specs.Pairs.{least_capacity};
ghost use Rattle.list_store.specs.Found.{Apart};

use crate::entry::Entry;
use stores::key::Key;

mod made;
mod methods;

/// The first `count` places hold the pairs, in order of arrival.
#[derive(Drop)]
pub struct ListStore<'a, K: Key> {
    entries: &'a mut [Entry<K>],
    // A count beside the places and no `Vec`: the memory is lent, and no store takes any.
    count: usize,
    ghost enough: { least_capacity ≤ length entries.now },
    ghost within: { count ≤ length entries.now },
    ghost different: { Apart K.eq entries.now count },
}
