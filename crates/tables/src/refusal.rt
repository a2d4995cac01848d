//! Why a call is refused.
ghost use Rattle.std.specs.Prelude.{◌≡◌};
ghost use Rattle.tables.specs.Refusals.{number_of, layer_of};

/// Why a call is refused, by its number. A refused call changes nothing.
#[derive(Clone, Copy, PartialEq, Eq)]
pub enum Refusal {
    /// Flag or setting bits that are not listed.
    UnlistedBits = 1,
    /// A kind of declaration that is not listed.
    UnknownKind = 2,
    /// A modifier that this kind of declaration does not take.
    ModifierNotOfKind = 3,
    /// A span that ends before it starts.
    SpanReversed = 4,
    /// The scope of a reference is absent.
    NoSuchScope = 5,
    /// All scopes are taken.
    ScopesFull = 6,
    /// Too few symbols, redeclarations, conflicts or hoisted variables are left for the declaration.
    DeclarationsFull = 7,
    /// All references are taken.
    ReferencesFull = 8,
    /// The root cannot be left, and nothing can be deferred from it.
    AtRoot = 9,
    /// The start lies behind the end of the pending list.
    StartPastPending = 10,
    /// The id or entry that is read is absent.
    Absent = 11,
    /// A store holds its capacity, or was given too few places.
    StoreFull = 12,
}

/// The part that refuses.
#[derive(Clone, Copy, PartialEq, Eq)]
pub enum Layer {
    Builder,
    Table,
    Store,
}

impl Refusal {
    pub fn number(self) -> u8
        ensures { result ≡ number_of self }
    {
        self as u8
    }

    pub fn layer(self) -> Layer
        ensures { result ≡ layer_of self }
    {
        match self {
            Refusal::NoSuchScope
            | Refusal::ScopesFull
            | Refusal::DeclarationsFull
            | Refusal::ReferencesFull
            | Refusal::Absent => Layer::Table,
            Refusal::StoreFull => Layer::Store,
            Refusal::UnlistedBits
            | Refusal::UnknownKind
            | Refusal::ModifierNotOfKind
            | Refusal::SpanReversed
            | Refusal::AtRoot
            | Refusal::StartPastPending => Layer::Builder,
        }
    }
}
