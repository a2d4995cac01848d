//! What every declaration tells.
ghost use Rattle.std.specs.Prelude.{◌≡◌, Bool};
ghost use Rattle.model.specs.Declaring.{Told as PlainTold};
ghost use Rattle.model.specs.declared.manner.Manner.{Manner as TheManner};
ghost use Rattle.kinds.specs.Telling.{plain};

use crate::told::Told;
use model::manner::Manner;

/// A declaration tells its name, span, node, includes, excludes and manner: the same each time under one setting and strictness.
// Two bools and no struct: the setting gives one, the scope the other.
pub trait Binder {
    /// By whether scripts are TypeScript, and whether the scope is strict.
    ghost tells: { Self → Bool → Bool → PlainTold };

    /// And by whether the scope is a var scope.
    ghost how: { Self → Bool → Bool → Bool → TheManner };

    fn told(&self, typescript: bool, strict: bool) -> Told
        ensures { plain result ≡ tells self.now typescript strict };

    fn manner(&self, typescript: bool, strict: bool, var: bool) -> Manner
        ensures { result ≡ how self.now typescript strict var };
}
