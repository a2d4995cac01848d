//! What the definitions say of some texts, as the contract of a small function.
ghost use Rattle.zone_text.specs.Examples.{Examples};

/// Good and bad lines are read as the format has them.
pub fn examples_stand() -> u8
    ensures { Examples }
{
    0
}
