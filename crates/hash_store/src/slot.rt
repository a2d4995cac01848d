//! A place of a hashed store.
ghost use Rattle.std.specs.Prelude.{◌≡◌};
ghost use Rattle.hash_store.specs.Slots.{is_empty, is_full, matches};

use stores::key::Key;

/// `Deleted` held a pair a moment ago: a search goes on behind it.
#[derive(Clone, Copy, Default)]
pub enum Slot<K> {
    #[default]
    Empty,
    Deleted,
    Full { key: K, hash: u32, number: u32 },
}

impl<K: Key> Slot<K> {
    pub(crate) fn is_empty(&self) -> bool
        ensures { result ≡ is_empty self.now }
    {
        matches!(*self, Slot::Empty)
    }

    pub(crate) fn is_full(&self) -> bool
        ensures { result ≡ is_full self.now }
    {
        matches!(*self, Slot::Full { .. })
    }

    /// Whether it holds the pair of `key`, whose hash number is `hash`.
    pub(crate) fn holds(&self, key: K, hash: u32) -> bool
        ensures { result ≡ matches K.eq hash key self.now }
    {
        matches!(*self, Slot::Full { key: kept, hash: kept_hash, .. } if hash == kept_hash && key == kept)
    }
}
