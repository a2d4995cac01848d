//! The entries of a table by their places.
ghost use Rattle.std.specs.Prelude.{◌≡◌};
ghost use Rattle.std.specs.List.{slice_get};
ghost use Rattle.tables.specs.Contents.{row_answer};

use crate::refusal::Refusal;

/// The k-th entry of a table, or the refusal.
pub fn entry_at<T: Copy>(entries: &[T], k: usize) -> Result<T, Refusal>
    ensures { result ≡ row_answer (slice_get entries.now k) }
{
    entries.get(k).copied().ok_or(Refusal::Absent)
}
