ghost use Rattle.laws.specs.LongerRuns.{LongerFromShorter};

/// One call more takes the machine on by that call, and adds its answer to the answers before.
pub fn longer_from_shorter() -> u8
    ensures { LongerFromShorter }
{
    0
}
