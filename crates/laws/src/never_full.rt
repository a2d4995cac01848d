ghost use Rattle.laws.specs.NeverFull.{NeverFull};

/// After every list of calls no store holds more than its least capacity, and each call that is not refused finds room for its keys.
pub fn never_full_stands() -> u8
    ensures { NeverFull }
{
    0
}
