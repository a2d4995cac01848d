//! A list of calls.
ghost use Rattle.std.specs.Prelude.{◌≡◌, IfOk, MatchResult};
ghost use Rattle.model.specs.State.{fresh};
ghost use Rattle.model.specs.Calls.{run as reference_run, answers as reference_answers};
ghost use Rattle.session.specs.Laws.{Ran};

use crate::apply::apply;
use crate::binding::Binding;
use model::call::{Answer, Call};
use model::setting::Setting;
use std::alloc::{AllocError, Global};

/// Restarts the binder under a setting, makes the calls one after the other, and gives their answers.
/// The memory for the answers is taken first: without it the binder is as it was, and no call is made.
pub fn run<T: Binding>(
    heap: Global,
    binder: &mut T,
    setting: Setting,
    calls: &[Call],
) -> Result<Vec<Answer>, AllocError>
    ensures answered { IfOk result (λ v. v.items ≡ reference_answers (fresh setting.bits) calls.now) }
    ensures after { MatchResult result (λ _. T.Binding.state binder.new ≡ reference_run (fresh setting.bits) calls.now) (λ _. binder.new ≡ binder.old) }
    ensures lawful { IfOk result (λ v. Ran setting.bits calls.now (T.Binding.state binder.new) v.items) }
{
    let mut answers = Vec::with_capacity(heap, calls.len())?;
    binder.restart(setting);
    for call in calls {
        answers.push_reserved(apply(binder, *call));
    }
    Ok(answers)
}
