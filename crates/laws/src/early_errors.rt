ghost use Rattle.laws.specs.EarlyErrors.{EarlyErrors};

/// In a run that declares with var, let, const and class alone the conflict list is empty exactly if no scope has a name
/// lexically declared twice, or lexically declared and also var-declared in it or through it.
pub fn early_errors_stand() -> u8
    ensures { EarlyErrors }
{
    0
}
