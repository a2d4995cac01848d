//! The number of each kind of declaration, and its row: what it takes, gives and excludes.
ghost use Rattle.std.specs.Prelude.{◌≡◌};
ghost use Rattle.std.specs.Option.{ok_or};
ghost use Rattle.tables.specs.declared.refusal.Refusal.TheVariants.{UnknownKind};
ghost use Rattle.model.specs.Kinds.{kind_row};
ghost use Rattle.kinds.specs.KindNumbers.{kind_of, number_of};
ghost use Rattle.kinds.specs.Telling.{plain_row};

use super::Kind;
use crate::modifiers::Modifiers;
use tables::flags::SymbolFlags;
use tables::refusal::Refusal;

/// What a kind takes, gives and excludes.
#[derive(Clone, Copy)]
pub struct KindRow {
    /// The modifiers that the kind takes.
    pub modifiers: Modifiers,
    /// The flags that the kind gives, whatever its modifiers.
    pub includes: SymbolFlags,
    /// The flags beside which the kind may not stand, but for what depends on more than the kind.
    pub excludes: SymbolFlags,
}

const FUNCTION_MODIFIERS: Modifiers = Modifiers(
    Modifiers::DECLARE.0 | Modifiers::ASYNC.0 | Modifiers::IF_BODY.0,
);

// Flags beside which a kind may not stand.

const VALUE_OR_TYPE: SymbolFlags = SymbolFlags(SymbolFlags::VALUE.0 | SymbolFlags::TYPE.0);

const BESIDE_VAR: SymbolFlags = SymbolFlags(
    SymbolFlags::VALUE.0 - SymbolFlags::FUNCTION_SCOPED_VARIABLE.0 - SymbolFlags::FUNCTION.0,
);

const BESIDE_CLASS: SymbolFlags = SymbolFlags(
    VALUE_OR_TYPE.0 - SymbolFlags::INTERFACE.0 - SymbolFlags::FUNCTION.0,
);

const BESIDE_FUNCTION: SymbolFlags = SymbolFlags(
    SymbolFlags::VALUE.0 - SymbolFlags::FUNCTION.0 - SymbolFlags::CLASS.0,
);

const BESIDE_IMPORT: SymbolFlags = SymbolFlags(SymbolFlags::IMPORT.0 | SymbolFlags::TYPE_IMPORT.0);

const BESIDE_INTERFACE: SymbolFlags = SymbolFlags(
    SymbolFlags::TYPE.0 - SymbolFlags::INTERFACE.0 - SymbolFlags::CLASS.0,
);

const BESIDE_ENUM: SymbolFlags = SymbolFlags(VALUE_OR_TYPE.0 - SymbolFlags::REGULAR_ENUM.0);

const BESIDE_CONST_ENUM: SymbolFlags = SymbolFlags(VALUE_OR_TYPE.0 - SymbolFlags::CONST_ENUM.0);

const BESIDE_TYPE_PARAMETER: SymbolFlags = SymbolFlags(
    SymbolFlags::TYPE.0 - SymbolFlags::TYPE_PARAMETER.0,
);

// Flags of kinds that have several.

const CONST_FLAGS: SymbolFlags = SymbolFlags(
    SymbolFlags::BLOCK_SCOPED_VARIABLE.0 | SymbolFlags::CONST_VARIABLE.0,
);

const FUNCTION_EXPRESSION_FLAGS: SymbolFlags = SymbolFlags(
    SymbolFlags::FUNCTION.0 | SymbolFlags::FUNCTION_EXPRESSION.0,
);

const CATCH_NAME_FLAGS: SymbolFlags = SymbolFlags(
    SymbolFlags::FUNCTION_SCOPED_VARIABLE.0 | SymbolFlags::CATCH_VARIABLE.0,
);

const CATCH_PATTERN_FLAGS: SymbolFlags = SymbolFlags(
    SymbolFlags::BLOCK_SCOPED_VARIABLE.0 | SymbolFlags::CATCH_VARIABLE.0,
);

/// The kind of this number, counted from 1.
impl TryFrom<u8> for Kind {
    type Error = Refusal;

    ghost try_from_gives = { λ number result. result ≡ ok_or (kind_of number) UnknownKind };

    fn try_from(number: u8) -> Result<Kind, Refusal> {
        match number {
            1 => Ok(Kind::Var),
            2 => Ok(Kind::Let),
            3 => Ok(Kind::Const),
            4 => Ok(Kind::Class),
            5 => Ok(Kind::Function),
            6 => Ok(Kind::FunctionExpression),
            7 => Ok(Kind::Parameter),
            8 => Ok(Kind::CatchName),
            9 => Ok(Kind::CatchPattern),
            10 => Ok(Kind::Import),
            11 => Ok(Kind::TypeImport),
            12 => Ok(Kind::TypeAlias),
            13 => Ok(Kind::Interface),
            14 => Ok(Kind::Enum),
            15 => Ok(Kind::ConstEnum),
            16 => Ok(Kind::EnumMember),
            17 => Ok(Kind::TypeParameter),
            18 => Ok(Kind::Infer),
            _ => Err(Refusal::UnknownKind),
        }
    }
}

fn row(modifiers: Modifiers, includes: SymbolFlags, excludes: SymbolFlags) -> KindRow
    ensures { result ≡ record { modifiers = modifiers; includes = includes; excludes = excludes } }
{
    KindRow {
        modifiers,
        includes,
        excludes,
    }
}

impl Kind {
    pub fn row(self) -> KindRow
        ensures { plain_row result ≡ kind_row (number_of self) }
    {
        match self {
            Kind::Var => row(
                Modifiers::DECLARE,
                SymbolFlags::FUNCTION_SCOPED_VARIABLE,
                BESIDE_VAR,
            ),
            Kind::Let => row(
                Modifiers::DECLARE,
                SymbolFlags::BLOCK_SCOPED_VARIABLE,
                SymbolFlags::VALUE,
            ),
            Kind::Const => row(Modifiers::DECLARE, CONST_FLAGS, SymbolFlags::VALUE),
            Kind::Class => row(Modifiers::DECLARE, SymbolFlags::CLASS, BESIDE_CLASS),
            Kind::Function => row(FUNCTION_MODIFIERS, SymbolFlags::FUNCTION, BESIDE_FUNCTION),
            Kind::FunctionExpression => row(
                Modifiers::ASYNC,
                FUNCTION_EXPRESSION_FLAGS,
                BESIDE_FUNCTION,
            ),
            Kind::Parameter => row(
                Modifiers::UNIQUE,
                SymbolFlags::FUNCTION_SCOPED_VARIABLE,
                BESIDE_VAR,
            ),
            Kind::CatchName => row(Modifiers::NONE, CATCH_NAME_FLAGS, SymbolFlags::NONE),
            Kind::CatchPattern => row(Modifiers::NONE, CATCH_PATTERN_FLAGS, SymbolFlags::VALUE),
            Kind::Import => row(Modifiers::NONE, SymbolFlags::IMPORT, BESIDE_IMPORT),
            Kind::TypeImport => row(Modifiers::NONE, SymbolFlags::TYPE_IMPORT, BESIDE_IMPORT),
            Kind::TypeAlias => row(
                Modifiers::DECLARE,
                SymbolFlags::TYPE_ALIAS,
                SymbolFlags::TYPE,
            ),
            Kind::Interface => row(Modifiers::DECLARE, SymbolFlags::INTERFACE, BESIDE_INTERFACE),
            Kind::Enum => row(Modifiers::DECLARE, SymbolFlags::REGULAR_ENUM, BESIDE_ENUM),
            Kind::ConstEnum => row(
                Modifiers::DECLARE,
                SymbolFlags::CONST_ENUM,
                BESIDE_CONST_ENUM,
            ),
            Kind::EnumMember => row(Modifiers::NONE, SymbolFlags::ENUM_MEMBER, VALUE_OR_TYPE),
            Kind::TypeParameter | Kind::Infer => row(
                Modifiers::NONE,
                SymbolFlags::TYPE_PARAMETER,
                BESIDE_TYPE_PARAMETER,
            ),
        }
    }
}
