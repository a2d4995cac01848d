//! One call as a value.
ghost use Rattle.std.specs.Prelude.{◌≡◌};
ghost use Rattle.model.specs.Calls.{builder_after, builder_answer};
ghost use Rattle.session.specs.Laws.{KeepsLaws};

use crate::binding::Binding;
use model::call::{Answer, Call, Granted};

/// Makes one call, and gives its answer as a value.
/// If the calls before it, from a fresh start, left the binder as they leave the reference machine, then so does this one, and the laws hold.
pub fn apply<T: Binding>(binder: &mut T, call: Call) -> Answer
    ensures answer { result ≡ builder_answer (T.Binding.state binder.old) call }
    ensures after { T.Binding.state binder.new ≡ builder_after (T.Binding.state binder.old) call }
    ensures lawful { KeepsLaws (T.Binding.state binder.old) call result (T.Binding.state binder.new) }
{
    dispatch(binder, call)
}

/// The method of the call.
// A match and no table of functions: each call has arguments and an answer of its own.
fn dispatch<T: Binding>(binder: &mut T, call: Call) -> Answer
    ensures answer { result ≡ builder_answer (T.Binding.state binder.old) call }
    ensures after { T.Binding.state binder.new ≡ builder_after (T.Binding.state binder.old) call }
{
    Ok(match call {
        Call::EnterScope(scope) => Granted::Scope(binder.enter_scope(scope)?),
        Call::LeaveScope => Granted::Scope(binder.leave_scope()?),
        Call::Bind(declaration) => Granted::Symbol(binder.bind(declaration)?),
        Call::DeclareReference(reference) => {
            Granted::Reference(binder.declare_reference(reference)?)
        }
        Call::ResolveReferences(start) => {
            Granted::Counted(binder.resolve_references_for_current_scope(start)?)
        }
        Call::ResolveAllReferences => Granted::Counted(binder.resolve_all_references()?),
    })
}
