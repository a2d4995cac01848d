//! How a list store is made.
ghost use Rattle.std.specs.Prelude.{◌≡◌, length};
ghost use Rattle.stores.specs.Pairs.{no_pairs};
ghost use Rattle.list_store.specs.Meaning.{pairs_of, capacity_of};

use super::ListStore;
use crate::entry::Entry;
use stores::key::Key;
use stores::places::Places;

impl<'a, K: Key> ListStore<'a, K> {
    /// A store with no pairs; what the places held is lost.
    // What makers of stores have in common is `Places`; each fills in a struct of its own.
    pub fn new(places: Places<'a, Entry<K>>) -> ListStore<'a, K>
        ensures empty { pairs_of K.eq result ≡ no_pairs }
        ensures places { capacity_of result ≡ length places.entry.lent.now }
    {
        ListStore {
            entries: places.lent,
            count: 0,
        }
    }
}
