//! When a call is refused, and why.
ghost use Rattle.laws.specs.Refused.{RefusedExactly};

/// Every call of every run is refused exactly if the condition of a refusal holds, with the first such, and then changes nothing.
pub fn refusals_stand() -> u8
    ensures { RefusedExactly }
{
    0
}
