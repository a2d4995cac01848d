//! How many slots a look-up reads.
use crate::zone::{BINDINGS, absent, binding};
use hash_store::slot::Slot;
use stores::key::{Key, ScopeAndName};

/// The sum and the most of several look-ups.
#[derive(Clone, Copy, Default)]
pub struct Looks {
    pub total: usize,
    pub worst: usize,
}

impl Looks {
    fn with(self, reads: usize) -> Looks {
        Looks {
            total: self.total.saturating_add(reads),
            worst: self.worst.max(reads),
        }
    }
}

/// How many slots are read until the key or an empty slot is met.
fn reads(slots: &[Slot<ScopeAndName>], key: ScopeAndName) -> usize {
    let n = slots.len();
    if n == 0 {
        return 0;
    }
    let home = key.hash_number() as usize % n;
    slots[home..]
        .iter()
        .chain(&slots[..home])
        .position(|slot| match *slot {
            Slot::Empty => true,
            Slot::Deleted => false,
            Slot::Full { key: kept, .. } => key == kept,
        })
        .map_or(n, |step| step.saturating_add(1))
}

fn of_zone<F: Fn(u32) -> ScopeAndName>(slots: &[Slot<ScopeAndName>], key: F) -> Looks
    requires { F.IsAlwaysCallable key }
{
    let mut looks = Looks::default();
    for k in 0..BINDINGS {
        looks = looks.with(reads(slots, key(k)));
    }
    looks
}

pub fn of_bindings(slots: &[Slot<ScopeAndName>]) -> Looks {
    of_zone(slots, binding)
}

pub fn of_absent(slots: &[Slot<ScopeAndName>]) -> Looks {
    of_zone(slots, absent)
}

/// How many slots are neither empty nor full.
pub fn deleted(slots: &[Slot<ScopeAndName>]) -> usize {
    slots
        .iter()
        .filter(|slot| matches!(**slot, Slot::Deleted))
        .count()
}
