//! The kinds of declaration.

pub mod table;

#[derive(Clone, Copy)]
pub enum Kind {
    Var,
    Let,
    Const,
    Class,
    Function,
    FunctionExpression,
    Parameter,
    /// The name of a catch clause.
    CatchName,
    /// A name in the pattern of a catch clause.
    CatchPattern,
    Import,
    TypeImport,
    TypeAlias,
    Interface,
    Enum,
    ConstEnum,
    EnumMember,
    TypeParameter,
    /// `infer` in a conditional type.
    Infer,
}
