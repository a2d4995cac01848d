ghost use Rattle.laws.specs.GetIdentifierReference.{GetIdentifierReferenceLaw};

/// Where only values were declared under a name, a reference that reads or writes it finds its symbol as by ECMA-262's
/// GetIdentifierReference: in the first scope that binds the name, whatever is bound there.
pub fn values_are_looked_up_by_name() -> u8
    ensures { GetIdentifierReferenceLaw }
{
    0
}
