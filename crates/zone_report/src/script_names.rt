//! The names that a list refers to.
use model::call::Call;
use stores::store::Store;
use tables::id::Name;

// A store answers by name, so the name of a number is sought among the calls.

/// The first name that some call refers to and whose root unresolved list has this number.
pub fn name_of_list<R: Store<Name>>(roots: &R, calls: &[Call], list: u32) -> Option<Name> {
    calls.iter().find_map(|call| match call {
        Call::DeclareReference(reference) if roots.get(reference.name) == Some(list) => Some(
            reference.name,
        ),
        _ => None,
    })
}
