//! The memory that is lent to the stores.
use crate::no_memory::NoMemory;
use crate::report::report;
use hash_store::hash::HashStore;
use hash_store::slot::Slot;
use list_store::entry::Entry;
use list_store::list::ListStore;
use model::call::Call;
use model::setting::Setting;
use std::alloc::Global;
use stores::places::Places;
use stores::store::LEAST_CAPACITY;

/// How many slots each hashed store is lent: four times as many as it may come to hold.
const SLOTS: usize = 2048;

/// How many entries each list store is lent.
const ENTRIES: usize = LEAST_CAPACITY;

// The arrays are long enough for their stores, so no `unwrap` below can fail.

// Two functions and no trait over both memories: it would need a store type for each key and lifetime.

/// Runs the list over hashed stores.
pub fn report_hashed(heap: Global, setting: Setting, calls: &[Call]) -> Result<String, NoMemory> {
    let mut bindings = [Slot::default(); SLOTS];
    let mut hoisting = [Slot::default(); SLOTS];
    let mut roots = [Slot::default(); SLOTS];
    report(
        heap,
        setting,
        calls,
        HashStore::new(Places::new(&mut bindings).unwrap()),
        HashStore::new(Places::new(&mut hoisting).unwrap()),
        HashStore::new(Places::new(&mut roots).unwrap()),
    )
}

/// Runs the list over list stores.
pub fn report_listed(heap: Global, setting: Setting, calls: &[Call]) -> Result<String, NoMemory> {
    let mut bindings = [Entry::default(); ENTRIES];
    let mut hoisting = [Entry::default(); ENTRIES];
    let mut roots = [Entry::default(); ENTRIES];
    report(
        heap,
        setting,
        calls,
        ListStore::new(Places::new(&mut bindings).unwrap()),
        ListStore::new(Places::new(&mut hoisting).unwrap()),
        ListStore::new(Places::new(&mut roots).unwrap()),
    )
}
