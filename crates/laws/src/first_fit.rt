ghost use Rattle.laws.specs.FirstFit.{FirstFit, PlacedByACall};

/// In every call after every list of calls, a pending reference is resolved to the first binding of its lookup chain that serves it,
/// root-listed if none does, or deferred if none did so far; and nothing is left undone.
pub fn first_fit_stands() -> u8
    ensures { FirstFit }
{
    0
}

/// Each reference in a resolved list or a root list was put there by one of the calls, which did so by the first binding that serves.
pub fn placed_by_a_call() -> u8
    ensures { PlacedByACall }
{
    0
}
