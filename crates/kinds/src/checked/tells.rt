ghost use Rattle.std.specs.Prelude.{◌≡◌};
ghost use Rattle.model.specs.Kinds.{includes, excludes};
ghost use Rattle.kinds.specs.KindNumbers.{number_of};
ghost use Rattle.kinds.specs.Checking.{Checks, tells_of, manner_of};

use super::Checked;
use crate::binder::Binder;
use crate::kind::Kind;
use crate::modifiers::Modifiers;
use crate::told::Told;
use model::call::Declaration;
use model::manner::Manner;
use tables::flags::{FlagSet, SymbolFlags};
use tables::refusal::Refusal;
use tables::span::Span;

impl TryFrom<Declaration> for Checked {
    type Error = Refusal;

    ghost try_from_gives = { Checks };

    /// The declaration, unless its kind, modifiers or span refuse it.
    fn try_from(declaration: Declaration) -> Result<Checked, Refusal> {
        let kind = Kind::try_from(declaration.kind)?;
        let modifiers = Modifiers(declaration.modifiers);
        if !modifiers.is_within(kind.row().modifiers) {
            return Err(Refusal::ModifierNotOfKind);
        }
        // By `else`: after `ok_or(..)?` the case of no span stayed open, with search, grind and a lemma of its own.
        let Some(span) = Span::new(declaration.start, declaration.end) else {
            return Err(Refusal::SpanReversed);
        };
        Ok(Checked {
            kind,
            modifiers,
            name: declaration.name,
            span,
            node: declaration.node,
        })
    }
}

impl Checked {
    /// The flags that it gives its symbol.
    fn includes(&self) -> SymbolFlags
        ensures { result.0 ≡ includes (number_of self.now.kind) self.now.modifiers.0 }
    {
        let mut includes = self.kind.row().includes;
        if self.modifiers.intersects(Modifiers::DECLARE) {
            includes = includes.union(SymbolFlags::AMBIENT);
        }
        if self.modifiers.intersects(Modifiers::ASYNC) {
            includes = includes.union(SymbolFlags::ASYNC_OR_GENERATOR);
        }
        includes
    }

    /// The flags that it may not stand beside.
    fn excludes(&self, typescript: bool, strict: bool) -> SymbolFlags
        ensures { result.0 ≡ excludes (number_of self.now.kind) self.now.modifiers.0 typescript strict }
    {
        let excludes = self.kind.row().excludes;
        match self.kind {
            Kind::Function
                if !typescript && self.modifiers.intersects(Modifiers::IF_BODY) && !strict =>
                SymbolFlags::NONE,
            Kind::Function | Kind::FunctionExpression if !typescript => excludes.difference(
                SymbolFlags::FUNCTION_SCOPED_VARIABLE,
            ),
            Kind::Parameter if self.modifiers.intersects(Modifiers::UNIQUE) || strict =>
                excludes.union(SymbolFlags::FUNCTION_SCOPED_VARIABLE),
            _ => excludes,
        }
    }
}

impl Binder for Checked {
    ghost tells = { tells_of };

    ghost how = { manner_of };

    fn told(&self, typescript: bool, strict: bool) -> Told {
        Told {
            name: self.name,
            span: self.span,
            node: self.node,
            includes: self.includes(),
            excludes: self.excludes(typescript, strict),
        }
    }

    fn manner(&self, typescript: bool, strict: bool, var: bool) -> Manner {
        match self.kind {
            Kind::Var => Manner::Hoisted,
            Kind::CatchName => Manner::Shadow,
            Kind::Infer => Manner::Conditional,
            Kind::Function
                if !self.modifiers.intersects(Modifiers::ASYNC) && !typescript && !strict && !var =>
                Manner::MovedOut,
            _ => Manner::Here,
        }
    }
}
