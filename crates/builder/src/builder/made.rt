//! How a builder starts.
ghost use Rattle.std.specs.Prelude.{◌≡◌};
ghost use Rattle.model.specs.State.{fresh, root_row};
ghost use Rattle.model.specs.View.{machine_of};
ghost use Rattle.builder.specs.State.{view};

use super::SemanticBuilder;
use lookup::name_tables::NameTables;
use model::setting::Setting;
use stores::key::ScopeAndName;
use stores::store::Store;
use tables::flags::ScopeFlags;
use tables::id::{Name, NodeId, ScopeId};
use tables::row::ScopeRow;
use tables::scoping::Scoping;

/// The flags of the root.
fn root_flags(setting: Setting) -> ScopeFlags
    ensures { result ≡ (root_row setting.bits).flags }
{
    if setting.is_strict_root() {
        ScopeFlags::TOP.union(ScopeFlags::STRICT_MODE)
    } else {
        ScopeFlags::TOP
    }
}

/// Leaves the root alone in the tables, and nothing in the stores.
pub(super) fn start<B: Store<ScopeAndName>, H: Store<ScopeAndName>, R: Store<Name>>(
    names: &mut NameTables<B, H>,
    roots: &mut R,
    setting: Setting,
)
    ensures { machine_of setting.bits 0 names.new.scoping (B.PairSet.pairs names.new.bindings) (H.PairSet.pairs names.new.hoisting) (R.PairSet.pairs roots.new) ≡ fresh setting.bits }
{
    names.scoping.clear();
    let _ = names.scoping.add_scope(ScopeRow {
        parent: None,
        node: NodeId::ROOT,
        flags: root_flags(setting),
    });
    names.bindings.clear();
    names.hoisting.clear();
    roots.clear();
}

impl<B: Store<ScopeAndName>, H: Store<ScopeAndName>, R: Store<Name>> SemanticBuilder<B, H, R> {
    /// A builder over tables and three stores, which it clears, whatever they held.
    pub fn new(
        setting: Setting,
        scoping: Scoping,
        bindings: B,
        hoisting: H,
        mut roots: R,
    ) -> SemanticBuilder<B, H, R>
        ensures { view result ≡ fresh setting.bits }
    {
        let mut names = NameTables {
            scoping,
            bindings,
            hoisting,
        };
        start(&mut names, &mut roots, setting);
        SemanticBuilder {
            setting,
            current: ScopeId::ROOT,
            names,
            roots,
        }
    }
}
