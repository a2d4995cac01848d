//! What binds names, by the state of the reference machine that it stands for.
ghost use Rattle.std.specs.Prelude.{◌≡◌};
ghost use Rattle.model.specs.State.{Machine, fresh};
ghost use Rattle.model.specs.Calls.{builder_after, builder_answer};
ghost use Rattle.model.specs.declared.call.Call.TheVariants.{EnterScope, LeaveScope, Bind, DeclareReference, ResolveReferences, ResolveAllReferences};
ghost use Rattle.session.specs.Answers.{by_scope, by_symbol, by_reference, by_counts};

use model::call::{Counts, Declaration, NewReference, NewScope};
use model::setting::Setting;
use tables::id::{ReferenceId, ScopeId, SymbolId};
use tables::refusal::Refusal;

/// A binder of names. Each call does and answers what the reference machine does and answers, granted or refused.
pub trait Binding {
    /// The state of the machine that it stands for.
    ghost state: { Self → Machine };

    /// Starts anew under a setting, with the root alone.
    fn restart(&mut self, setting: Setting)
        ensures { state self.new ≡ fresh setting.bits };

    fn enter_scope(&mut self, scope: NewScope) -> Result<ScopeId, Refusal>
        ensures answer { by_scope result ≡ builder_answer (state self.old) (EnterScope scope) }
        ensures after { state self.new ≡ builder_after (state self.old) (EnterScope scope) };

    fn leave_scope(&mut self) -> Result<ScopeId, Refusal>
        ensures answer { by_scope result ≡ builder_answer (state self.old) LeaveScope }
        ensures after { state self.new ≡ builder_after (state self.old) LeaveScope };

    fn bind(&mut self, declaration: Declaration) -> Result<SymbolId, Refusal>
        ensures answer { by_symbol result ≡ builder_answer (state self.old) (Bind declaration) }
        ensures after { state self.new ≡ builder_after (state self.old) (Bind declaration) };

    fn declare_reference(&mut self, reference: NewReference) -> Result<ReferenceId, Refusal>
        ensures answer { by_reference result ≡ builder_answer (state self.old) (DeclareReference reference) }
        ensures after { state self.new ≡ builder_after (state self.old) (DeclareReference reference) };

    /// Resolves what can be resolved in the current scope, of the pending references from `start` on.
    fn resolve_references_for_current_scope(&mut self, start: u32) -> Result<Counts, Refusal>
        ensures answer { by_counts result ≡ builder_answer (state self.old) (ResolveReferences start) }
        ensures after { state self.new ≡ builder_after (state self.old) (ResolveReferences start) };

    fn resolve_all_references(&mut self) -> Result<Counts, Refusal>
        ensures answer { by_counts result ≡ builder_answer (state self.old) ResolveAllReferences }
        ensures after { state self.new ≡ builder_after (state self.old) ResolveAllReferences };
}
