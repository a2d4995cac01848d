ghost use Rattle.std.specs.Prelude.{◌≡◌, ◌<◌, ◌≤◌, [], length, take, IfOk, slice_set};
ghost use Rattle.tables.specs.Contents.{pushed, push_answer, set_answer};

use super::Rows;
use crate::refusal::Refusal;
use std::alloc::{AllocError, Global};

impl<T: Copy, const N: usize> Rows<T, N> {
    pub(crate) fn reserve(heap: Global) -> Result<Rows<T, N>, AllocError>
        ensures { IfOk result (λ t. t ≡ []) }
    {
        let items = Vec::with_capacity(heap, N)?;
        Ok(Rows { items })
    }

    pub(crate) fn as_slice(&self) -> &[T]
        ensures rows { result.now ≡ self.now }
        ensures few { length self.now ≤ N }
    {
        self.items.as_slice()
    }

    /// Adds a row, and answers its number; refused with `full` if there is no room.
    pub(crate) fn push(&mut self, row: T, full: Refusal) -> Result<usize, Refusal>
        ensures answer { result ≡ push_answer N self.old (λ n. n) full }
        ensures after { self.new ≡ pushed N self.old row }
        ensures number { IfOk result (λ n. n < N) }
    {
        let number = self.items.len();
        if number >= N {
            return Err(full);
        }
        self.items.push_reserved(row);
        Ok(number)
    }

    /// Writes the i-th row, if it is there.
    pub(crate) fn put(&mut self, i: usize, row: T) -> Result<(), Refusal>
        ensures answer { result ≡ set_answer self.old i }
        ensures after { self.new ≡ slice_set self.old i row }
        ensures few { length self.new ≤ N }
    {
        *self.items.get_mut(i).ok_or(Refusal::Absent)? = row;
        Ok(())
    }

    pub(crate) fn clear(&mut self)
        ensures { self.new ≡ [] }
    {
        self.items.clear();
    }

    pub(crate) fn truncate(&mut self, n: usize)
        ensures { self.new ≡ take n self.old }
    {
        self.items.truncate(n);
    }
}
