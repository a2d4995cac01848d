//! The flags of scopes, symbols and references, and the sets that are made of them.
ghost use Rattle.std.specs.Prelude.{◌≡◌, ℕ, bit_and, bit_or, nat_le};
ghost use Rattle.tables.specs.Flags.{meets, less, all_scope_flags, all_symbol_flags, all_reference_flags};

/// A set of flags of one kind, kept as bits.
// What makes a set (union, intersection, difference) stands at each type: over all widths it takes a trait of words with laws for `|`, `&` and `-`.
pub trait FlagSet: Copy {
    /// Its bits, as a number.
    ghost number: { Self → ℕ };

    /// The number of all flags that are listed.
    ghost ALL_BITS: { ℕ };

    const ALL_BITS: u32;

    fn bits(self) -> u32
        ensures { result ≡ number self };

    /// Whether it has a flag of the set.
    fn intersects(self, set: Self) -> bool
        ensures { result ≡ meets (number self) (number set) }
    {
        self.bits() & set.bits() != 0
    }

    /// Whether all its bits are listed.
    fn is_listed(self) -> bool
        ensures { result ≡ nat_le (number self) ALL_BITS }
    {
        self.bits() <= Self::ALL_BITS
    }
}

/// The flags of a scope.
#[derive(Clone, Copy, PartialEq, Eq, Default)]
pub struct ScopeFlags(pub u16);

/// The flags of a symbol.
#[derive(Clone, Copy, PartialEq, Eq, Default)]
pub struct SymbolFlags(pub u32);

/// The flags of a reference.
#[derive(Clone, Copy, PartialEq, Eq, Default)]
pub struct ReferenceFlags(pub u8);

impl FlagSet for ScopeFlags {
    ghost number = { λ x. x.0 };

    ghost ALL_BITS = { all_scope_flags };

    const ALL_BITS: u32 = Self::ALL.0 as u32;

    fn bits(self) -> u32 {
        u32::from(self.0)
    }
}

impl FlagSet for SymbolFlags {
    ghost number = { λ x. x.0 };

    ghost ALL_BITS = { all_symbol_flags };

    const ALL_BITS: u32 = Self::ALL.0;

    fn bits(self) -> u32 {
        self.0
    }
}

impl FlagSet for ReferenceFlags {
    ghost number = { λ x. x.0 };

    ghost ALL_BITS = { all_reference_flags };

    const ALL_BITS: u32 = Self::ALL.0 as u32;

    fn bits(self) -> u32 {
        u32::from(self.0)
    }
}

impl ScopeFlags {
    pub const NONE: ScopeFlags = ScopeFlags(0);

    pub const STRICT_MODE: ScopeFlags = ScopeFlags(1 << 0);

    pub const TOP: ScopeFlags = ScopeFlags(1 << 1);

    pub const FUNCTION: ScopeFlags = ScopeFlags(1 << 2);

    pub const ARROW: ScopeFlags = ScopeFlags(1 << 3);

    pub const CLASS_STATIC_BLOCK: ScopeFlags = ScopeFlags(1 << 4);

    pub const TS_MODULE_BLOCK: ScopeFlags = ScopeFlags(1 << 5);

    pub const CONSTRUCTOR: ScopeFlags = ScopeFlags(1 << 6);

    pub const GET_ACCESSOR: ScopeFlags = ScopeFlags(1 << 7);

    pub const SET_ACCESSOR: ScopeFlags = ScopeFlags(1 << 8);

    pub const CATCH_CLAUSE: ScopeFlags = ScopeFlags(1 << 9);

    pub const DIRECT_EVAL: ScopeFlags = ScopeFlags(1 << 10);

    pub const TS_CONDITIONAL: ScopeFlags = ScopeFlags(1 << 11);
    /// All flags that are listed.
    pub const ALL: ScopeFlags = ScopeFlags((1 << 12) - 1);
    /// The scopes that hold the names of `var`.
    pub const VAR: ScopeFlags = ScopeFlags(
        Self::TOP.0 | Self::FUNCTION.0 | Self::CLASS_STATIC_BLOCK.0 | Self::TS_MODULE_BLOCK.0,
    );

    pub fn union(self, other: ScopeFlags) -> ScopeFlags
        ensures { result.0 ≡ bit_or self.0 other.0 }
    {
        ScopeFlags(self.0 | other.0)
    }

    pub fn intersection(self, other: ScopeFlags) -> ScopeFlags
        ensures { result.0 ≡ bit_and self.0 other.0 }
    {
        ScopeFlags(self.0 & other.0)
    }
}

impl SymbolFlags {
    pub const NONE: SymbolFlags = SymbolFlags(0);

    pub const FUNCTION_SCOPED_VARIABLE: SymbolFlags = SymbolFlags(1 << 0);

    pub const BLOCK_SCOPED_VARIABLE: SymbolFlags = SymbolFlags(1 << 1);

    pub const CONST_VARIABLE: SymbolFlags = SymbolFlags(1 << 2);

    pub const CLASS: SymbolFlags = SymbolFlags(1 << 3);

    pub const CATCH_VARIABLE: SymbolFlags = SymbolFlags(1 << 4);

    pub const FUNCTION: SymbolFlags = SymbolFlags(1 << 5);

    pub const FUNCTION_EXPRESSION: SymbolFlags = SymbolFlags(1 << 6);

    pub const ASYNC_OR_GENERATOR: SymbolFlags = SymbolFlags(1 << 7);

    pub const IMPORT: SymbolFlags = SymbolFlags(1 << 8);

    pub const TYPE_IMPORT: SymbolFlags = SymbolFlags(1 << 9);

    pub const TYPE_ALIAS: SymbolFlags = SymbolFlags(1 << 10);

    pub const INTERFACE: SymbolFlags = SymbolFlags(1 << 11);

    pub const REGULAR_ENUM: SymbolFlags = SymbolFlags(1 << 12);

    pub const CONST_ENUM: SymbolFlags = SymbolFlags(1 << 13);

    pub const ENUM_MEMBER: SymbolFlags = SymbolFlags(1 << 14);

    pub const TYPE_PARAMETER: SymbolFlags = SymbolFlags(1 << 15);

    pub const AMBIENT: SymbolFlags = SymbolFlags(1 << 16);
    /// All flags that are listed.
    pub const ALL: SymbolFlags = SymbolFlags((1 << 17) - 1);
    /// What has a value.
    pub const VALUE: SymbolFlags = SymbolFlags(
        Self::FUNCTION_SCOPED_VARIABLE.0
            | Self::BLOCK_SCOPED_VARIABLE.0
            | Self::CLASS.0
            | Self::FUNCTION.0
            | Self::REGULAR_ENUM.0
            | Self::CONST_ENUM.0
            | Self::ENUM_MEMBER.0,
    );
    /// What is a type.
    pub const TYPE: SymbolFlags = SymbolFlags(
        Self::CLASS.0
            | Self::TYPE_ALIAS.0
            | Self::INTERFACE.0
            | Self::REGULAR_ENUM.0
            | Self::CONST_ENUM.0
            | Self::ENUM_MEMBER.0
            | Self::TYPE_PARAMETER.0,
    );
    /// What a reference to a value can resolve to.
    pub const BY_VALUE: SymbolFlags = SymbolFlags(Self::VALUE.0 | Self::IMPORT.0);
    /// What a reference to a type can resolve to.
    pub const BY_TYPE: SymbolFlags = SymbolFlags(
        Self::TYPE.0 | Self::IMPORT.0 | Self::TYPE_IMPORT.0,
    );
    /// What a reference by `typeof` can resolve to.
    pub const BY_VALUE_AS_TYPE: SymbolFlags = SymbolFlags(
        Self::VALUE.0 | Self::IMPORT.0 | Self::TYPE_IMPORT.0,
    );
    /// What the front of a qualified name can resolve to.
    pub const BY_NAMESPACE: SymbolFlags = SymbolFlags(
        Self::IMPORT.0 | Self::TYPE_IMPORT.0 | Self::REGULAR_ENUM.0 | Self::CONST_ENUM.0,
    );

    pub fn union(self, other: SymbolFlags) -> SymbolFlags
        ensures { result.0 ≡ bit_or self.0 other.0 }
    {
        SymbolFlags(self.0 | other.0)
    }

    /// Its flags that the set lacks.
    pub fn difference(self, set: SymbolFlags) -> SymbolFlags
        ensures { result.0 ≡ less self.0 set.0 }
    {
        SymbolFlags(self.0 - (self.0 & set.0))
    }
}

impl ReferenceFlags {
    pub const READ: ReferenceFlags = ReferenceFlags(1 << 0);

    pub const WRITE: ReferenceFlags = ReferenceFlags(1 << 1);

    pub const TYPE: ReferenceFlags = ReferenceFlags(1 << 2);

    pub const VALUE_AS_TYPE: ReferenceFlags = ReferenceFlags(1 << 3);

    pub const NAMESPACE: ReferenceFlags = ReferenceFlags(1 << 4);
    /// All flags that are listed.
    pub const ALL: ReferenceFlags = ReferenceFlags((1 << 5) - 1);
    /// A reference to a value reads or writes it.
    pub const VALUE: ReferenceFlags = ReferenceFlags(Self::READ.0 | Self::WRITE.0);

    /// Its flags that the set lacks.
    pub fn difference(self, set: ReferenceFlags) -> ReferenceFlags
        ensures { result.0 ≡ less self.0 set.0 }
    {
        ReferenceFlags(self.0 - (self.0 & set.0))
    }
}
