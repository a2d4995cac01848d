//! What a list of calls comes to, as text.
use crate::no_memory::NoMemory;
use crate::table_writer::write_tables;
use builder::builder::SemanticBuilder;
use model::call::Call;
use model::setting::Setting;
use session::run::run;
use std::alloc::Global;
use stores::key::ScopeAndName;
use stores::store::Store;
use tables::id::Name;
use tables::scoping::Scoping;
use zone_listing::answer::AnswerLine;

/// The answers, one to a line, and then the tables.
// The arguments of a run, as they are; nothing keeps them together.
pub fn report<B: Store<ScopeAndName> + Drop, H: Store<ScopeAndName> + Drop, R: Store<Name> + Drop>(
    heap: Global,
    setting: Setting,
    calls: &[Call],
    bindings: B,
    hoisting: H,
    roots: R,
) -> Result<String, NoMemory> {
    let scoping = Scoping::reserve(heap)?;
    let mut builder = SemanticBuilder::new(setting, scoping, bindings, hoisting, roots);
    let answers = run(heap, &mut builder, setting, calls)?;
    let mut out = String::new(heap);
    for answer in answers.iter() {
        let line = AnswerLine(*answer);
        writeln!(out, "{line}")?;
    }
    write_tables(&mut out, &builder, calls)?;
    Ok(out)
}
