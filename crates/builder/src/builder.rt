//! The builder over the row tables and any three stores.
ghost use Rattle.builder.specs.Kept.{Kept};

use lookup::name_tables::NameTables;
use model::setting::Setting;
use stores::key::ScopeAndName;
use stores::store::Store;
use tables::id::{Name, ScopeId};

mod calls;
mod made;
mod parts;
mod reads;

/// Binds names: bindings, hoisted variables and the numbers of root unresolved lists are in the stores, all else is in the tables.
// No `Model`: a machine's pairs are functions, which its value cannot hold, and clauses could not name the tables and stores that are handed out.
#[derive(Drop)]
pub struct SemanticBuilder<B: Store<ScopeAndName>, H: Store<ScopeAndName>, R: Store<Name>> {
    setting: Setting,
    current: ScopeId,
    names: NameTables<B, H>,
    roots: R,
    ghost kept: { Kept current.0 names.scoping },
}
