//! The flag arithmetic in words.
ghost use Rattle.laws.specs.Words.{FlagsInWords};

/// What a reference can resolve to, which flags it has afterwards, what a declaration gives its symbol and what it may not stand beside.
pub fn flags_stand_in_words() -> u8
    ensures { FlagsInWords }
{
    0
}
