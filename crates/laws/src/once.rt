ghost use Rattle.laws.specs.OnceLaw.{Once, CountsRight};

/// After every list of calls each accepted reference is in exactly one list, once: the pending list, the resolved list of a symbol,
/// or the root unresolved list of the name that its call gave.
pub fn once_stands() -> u8
    ensures { Once }
{
    0
}

/// A resolving call answers by how much the resolved lists and the root unresolved lists have grown, and how many are pending.
pub fn counts_stand() -> u8
    ensures { CountsRight }
{
    0
}
