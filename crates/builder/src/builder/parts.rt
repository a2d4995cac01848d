//! The tables and stores of a builder, for reading.
ghost use Rattle.std.specs.Prelude.{◌≡◌};

use super::SemanticBuilder;
use stores::key::ScopeAndName;
use stores::store::Store;
use tables::id::Name;
use tables::scoping::Scoping;

impl<B: Store<ScopeAndName>, H: Store<ScopeAndName>, R: Store<Name>> SemanticBuilder<B, H, R> {
    pub fn scoping(&self) -> &Scoping
        ensures { result.now ≡ self.now.names.scoping }
    {
        &self.names.scoping
    }

    pub fn bindings(&self) -> &B
        ensures { result.now ≡ self.now.names.bindings }
    {
        &self.names.bindings
    }

    pub fn hoisting(&self) -> &H
        ensures { result.now ≡ self.now.names.hoisting }
    {
        &self.names.hoisting
    }

    pub fn roots(&self) -> &R
        ensures { result.now ≡ self.now.roots }
    {
        &self.roots
    }
}
