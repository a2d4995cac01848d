//! A function above any store, proved from the promise alone.
ghost use Rattle.std.specs.Prelude.{◌≡◌, Ok};
ghost use Rattle.store_demo.specs.Exercise.{exercised};
ghost use Rattle.store_demo.specs.Answered.{answers};

use stores::key::Key;
use stores::store::Store;
use tables::refusal::Refusal;

/// What a store answers after the exercise.
#[derive(Clone, Copy)]
pub struct Answers {
    pub kept: Option<u32>,
    pub removed: Option<u32>,
    pub count: usize,
}

/// Inserts two keys into the cleared store, removes the second, and asks for both.
pub fn exercise<K: Key, S: Store<K>>(store: &mut S, kept: K, removed: K) -> Result<Answers, Refusal>
    ensures answer { result ≡ Ok (answers K.eq kept removed) }
    ensures after { S.PairSet.pairs store.new ≡ exercised K.eq kept removed }
    ensures places { S.PairSet.capacity store.new ≡ S.PairSet.capacity store.old }
{
    store.clear();
    store.insert(kept, 1)?;
    store.insert(removed, 2)?;
    store.remove(removed);
    Ok(Answers {
        kept: store.get(kept),
        removed: store.get(removed),
        count: store.count(),
    })
}
