//! Both stores at both types of keys, and how many slots a look-up in the hashed store reads.
#![tactic(auto)]

use crate::exercise::Answers;
use crate::looks::{Looks, deleted, of_absent, of_bindings};
use crate::over::{asked_list, asked_slots, in_list, in_slots};
use crate::zone::{BINDINGS, binding, passing};
use hash_store::hash::HashStore;
use hash_store::slot::Slot;
use list_store::entry::Entry;
use std::io;
use stores::key::ScopeAndName;
use stores::places::Places;
use stores::store::{LEAST_CAPACITY, Store};
use tables::id::{Name, ScopeId};
use tables::refusal::Refusal;

mod exercise;
mod looks;
mod over;
mod zone;

const ENTRIES: usize = LEAST_CAPACITY;

const TOO_FEW: usize = LEAST_CAPACITY - 1;

const SLOTS: usize = 1024;

const MORE_SLOTS: usize = 2048;

/// How often bindings are removed and inserted again.
const ROUNDS: u32 = 5000;

/// Bindings that lie this far apart are removed one after another.
const STRIDE: u32 = 37;

/// Binds the zone in a hashed store over the slots, and then unbinds and binds again for some rounds.
fn bind_zone(slots: &mut [Slot<ScopeAndName>], rounds: u32) -> Result<(), Refusal> {
    let mut store = HashStore::new(Places::new(slots)?);
    for k in 0..BINDINGS {
        store.insert(binding(k), k)?;
    }
    for round in 0..rounds {
        let k = round.wrapping_mul(STRIDE) % BINDINGS;
        store.remove(binding(k));
        store.insert(passing(round), k)?;
        store.insert(binding(k), k)?;
        store.remove(passing(round));
    }
    Ok(())
}

fn show_answers(rt: HostRuntime, what: &str, res: Result<Answers, Refusal>) -> io::Result<()> {
    match res {
        Ok(answers) => {
            let count = answers.count;
            match (answers.kept, answers.removed) {
                (Some(number), None) => println!(rt;
                    "{what}: kept {number}, removed none, count {count}"
                ),
                (_, _) => println!(rt; "{what}: other answers"),
            }
        }
        Err(refusal) => println!(rt; "{what}: refused {}", refusal.number()),
    }
}

fn show_asked(rt: HostRuntime, what: &str, res: Result<Option<u32>, Refusal>) -> io::Result<()> {
    match res {
        Ok(Some(number)) => println!(rt; "{what}: {number}"),
        Ok(None) => println!(rt; "{what}: none"),
        Err(refusal) => println!(rt; "{what}: refused {}", refusal.number()),
    }
}

fn show_looks(rt: HostRuntime, what: &str, looks: Looks) -> io::Result<()> {
    let each = BINDINGS as usize;
    let whole = looks.total / each;
    let tenths = looks.total % each * 10 / each;
    let hundredths = looks.total % each * 100 / each % 10;
    let worst = looks.worst;
    println!(rt; "  {what}: average {whole}.{tenths}{hundredths}, worst {worst}")
}

fn show_zone(rt: HostRuntime, slots: &mut [Slot<ScopeAndName>], rounds: u32) -> io::Result<()> {
    let places = slots.len();
    match bind_zone(slots, rounds) {
        Ok(()) => {
            let left = deleted(slots);
            println!(rt;
                "{BINDINGS} bindings in {places} slots after {rounds} rounds, {left} slots deleted"
            )?;
            show_looks(rt, "present", of_bindings(slots))?;
            show_looks(rt, "absent", of_absent(slots))
        }
        Err(refusal) => println!(rt; "refused {}", refusal.number()),
    }
}

fn main(rt: HostRuntime) -> io::Result<()> {
    let a = ScopeAndName {
        scope: ScopeId(1),
        name: Name(7),
    };
    let b = ScopeAndName {
        scope: ScopeId(1),
        name: Name(8),
    };
    let mut entries = [Entry::default(); ENTRIES];
    show_answers(
        rt,
        "list store, scope and name",
        in_list(&mut entries, a, b),
    )?;
    let mut named = [Entry::default(); ENTRIES];
    show_answers(
        rt,
        "list store, name",
        in_list(&mut named, Name(7), Name(8)),
    )?;
    let mut slots = [Slot::default(); SLOTS];
    show_answers(
        rt,
        "hashed store, scope and name",
        in_slots(&mut slots, a, b),
    )?;
    let mut name_slots = [Slot::default(); SLOTS];
    show_answers(
        rt,
        "hashed store, name",
        in_slots(&mut name_slots, Name(7), Name(8)),
    )?;
    show_asked(rt, "list store, fresh", asked_list(&mut entries, a))?;
    show_asked(rt, "hashed store, fresh", asked_slots(&mut slots, a))?;
    let mut few_slots = [Slot::default(); TOO_FEW];
    show_asked(
        rt,
        "hashed store, too few slots",
        asked_slots(&mut few_slots, a),
    )?;
    show_zone(rt, &mut slots, 0)?;
    show_zone(rt, &mut slots, ROUNDS)?;
    let mut more_slots = [Slot::default(); MORE_SLOTS];
    show_zone(rt, &mut more_slots, 0)?;
    show_zone(rt, &mut more_slots, ROUNDS)
}
