//! Any store, if it could be made, and each store over memory that is lent.
ghost use Rattle.std.specs.Prelude.{◌≡◌, length, if◌then◌else◌, None, Ok, Err, nat_lt};
ghost use Rattle.std.specs.Result.{result_map_both};
ghost use Rattle.tables.specs.declared.refusal.Refusal.TheVariants.{StoreFull};
ghost use Rattle.stores.specs.Pairs.{least_capacity};
ghost use Rattle.store_demo.specs.Answered.{answers};

use crate::exercise::{Answers, exercise};
use hash_store::hash::HashStore;
use hash_store::slot::Slot;
use list_store::entry::Entry;
use list_store::list::ListStore;
use stores::key::Key;
use stores::places::Places;
use stores::store::Store;
use tables::refusal::Refusal;

/// Exercises the store.
pub fn exercised<K: Key, S: Store<K> + Drop>(
    made: Result<S, Refusal>,
    kept: K,
    removed: K,
) -> Result<Answers, Refusal>
    ensures { result ≡ result_map_both (λ _. answers K.eq kept removed) (λ e. e) made }
{
    let mut store = made?;
    exercise(&mut store, kept, removed)
}

/// Asks the store for the number of a key.
pub fn asked<K: Key, S: Store<K> + Drop>(
    made: Result<S, Refusal>,
    key: K,
) -> Result<Option<u32>, Refusal>
    ensures { result ≡ result_map_both (λ s. (S.PairSet.pairs s).get key) (λ e. e) made }
{
    let store = made?;
    Ok(store.get(key))
}

pub fn in_list<K: Key>(entries: &mut [Entry<K>], kept: K, removed: K) -> Result<Answers, Refusal>
    ensures { result ≡ (if nat_lt (length entries.old) least_capacity then Err StoreFull else Ok (answers K.eq kept removed)) }
{
    let places = Places::new(entries)?;
    exercised(Ok(ListStore::new(places)), kept, removed)
}

pub fn in_slots<K: Key>(slots: &mut [Slot<K>], kept: K, removed: K) -> Result<Answers, Refusal>
    ensures { result ≡ (if nat_lt (length slots.old) least_capacity then Err StoreFull else Ok (answers K.eq kept removed)) }
{
    let places = Places::new(slots)?;
    exercised(Ok(HashStore::new(places)), kept, removed)
}

/// Asks a fresh store.
pub fn asked_list<K: Key>(entries: &mut [Entry<K>], key: K) -> Result<Option<u32>, Refusal>
    ensures { result ≡ (if nat_lt (length entries.old) least_capacity then Err StoreFull else Ok None) }
{
    let places = Places::new(entries)?;
    asked(Ok(ListStore::new(places)), key)
}

/// Asks a fresh store.
pub fn asked_slots<K: Key>(slots: &mut [Slot<K>], key: K) -> Result<Option<u32>, Refusal>
    ensures { result ≡ (if nat_lt (length slots.old) least_capacity then Err StoreFull else Ok None) }
{
    let store = HashStore::new(Places::new(slots)?);
    asked(Ok(store), key)
}
