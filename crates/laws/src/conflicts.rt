ghost use Rattle.laws.specs.Conflicts.{ConflictsExactly};

/// Which symbol a declaration comes upon, and what it then writes: a conflict exactly if the symbol has a flag that the declaration excludes,
/// and the redeclarations; or a new symbol. No other call, and no refused one, writes any.
pub fn conflicts_stand() -> u8
    ensures { ConflictsExactly }
{
    0
}
