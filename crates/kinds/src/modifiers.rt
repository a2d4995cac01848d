//! The modifiers of declarations.
ghost use Rattle.std.specs.Prelude.{◌≡◌, ◌==◌};
ghost use Rattle.tables.specs.Flags.{less};
ghost use Rattle.kinds.specs.AllModifiers.{all_modifiers};

use tables::flags::FlagSet;

/// The modifiers of a declaration.
#[derive(Clone, Copy, PartialEq, Eq, Default)]
pub struct Modifiers(pub u8);

impl FlagSet for Modifiers {
    ghost number = { λ x. x.0 };

    ghost ALL_BITS = { all_modifiers };

    const ALL_BITS: u32 = Self::ALL.0 as u32;

    fn bits(self) -> u32 {
        u32::from(self.0)
    }
}

impl Modifiers {
    pub const NONE: Modifiers = Modifiers(0);
    /// `declare`.
    pub const DECLARE: Modifiers = Modifiers(1 << 0);
    /// An async function or a generator.
    pub const ASYNC: Modifiers = Modifiers(1 << 1);
    /// A function that is the body of an `if`.
    pub const IF_BODY: Modifiers = Modifiers(1 << 2);
    /// Parameters that have to be unique, or are not simple.
    pub const UNIQUE: Modifiers = Modifiers(1 << 3);
    /// All modifiers that are listed.
    pub const ALL: Modifiers = Modifiers((1 << 4) - 1);

    /// Whether the set has all of them.
    pub fn is_within(self, set: Modifiers) -> bool
        ensures { result ≡ (less self.0 set.0 == 0) }
    {
        self.0 - (self.0 & set.0) == 0
    }
}
