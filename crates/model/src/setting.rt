//! The setting of a builder.
ghost use Rattle.std.specs.Prelude.{◌≡◌, ◌<◌, ◌≤◌, MatchResult};
ghost use Rattle.tables.specs.Flags.{meets};
ghost use Rattle.model.specs.Kinds.{TypeScript, StrictRoot};
ghost use Rattle.tables.specs.declared.refusal.Refusal.TheVariants.{UnlistedBits};

use tables::refusal::Refusal;

/// The setting of a builder, whose bits are listed.
// Bits and no two bools, with a reader of a line for each: the machine starts from the bits.
#[derive(Clone, Copy, PartialEq, Eq)]
pub struct Setting {
    bits: u8,
    ghost listed: { bits ≤ 3 },
}

impl Setting {
    /// Scripts are TypeScript.
    pub const TYPESCRIPT: u8 = 1 << 0;
    /// The root is in strict mode.
    pub const STRICT_ROOT: u8 = 1 << 1;
    /// All bits that are listed.
    pub const ALL: u8 = Self::TYPESCRIPT | Self::STRICT_ROOT;

    pub fn is_typescript(&self) -> bool
        ensures { result ≡ meets self.now.bits TypeScript }
    {
        self.bits & Self::TYPESCRIPT != 0
    }

    pub fn is_strict_root(&self) -> bool
        ensures { result ≡ meets self.now.bits StrictRoot }
    {
        self.bits & Self::STRICT_ROOT != 0
    }

    pub fn bits(&self) -> u8
        ensures { result ≡ self.now.bits }
    {
        self.bits
    }
}

/// The setting of these bits, unless some are not listed.
impl TryFrom<u8> for Setting {
    type Error = Refusal;

    ghost try_from_gives = { λ bits r. MatchResult r (λ s. (bits ≤ 3) × (s.bits ≡ bits)) (λ e. (3 < bits) × (e ≡ UnlistedBits)) };

    fn try_from(bits: u8) -> Result<Setting, Refusal> {
        if bits <= Self::ALL {
            Ok(Setting { bits })
        } else {
            Err(Refusal::UnlistedBits)
        }
    }
}
