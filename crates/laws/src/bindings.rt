ghost use Rattle.laws.specs.BindingsLaw.{Bindings};

/// After every list of calls each binding leads to a symbol of its name and its scope, and no symbol has two bindings.
pub fn bindings_stand() -> u8
    ensures { Bindings }
{
    0
}
