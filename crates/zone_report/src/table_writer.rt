//! The tables of a binding, row by row.
use crate::no_memory::NoMemory;
use crate::script_names::name_of_list;
use builder::builder::SemanticBuilder;
use model::call::Call;
use std::fmt::Display;
use stores::key::ScopeAndName;
use stores::store::Store;
use tables::id::{Name, ReferenceId, ScopeId, SymbolId};
use tables::owned::OwnedRow;
use tables::scoping::Scoping;
use zone_listing::entries::{EntryLine, PairLine, PairTable, RootLine};
use zone_listing::rows::{CurrentLine, RowLine};

// A table's rows are few: its limit is far below 32 bits.
fn number(count: usize) -> u32 {
    u32::try_from(count).unwrap_or(u32::MAX)
}

/// The rows of a table, each with its id.
fn write_rows<I: Copy, T: Copy, F: Fn(u32) -> I>(
    out: &mut String,
    rows: &[T],
    id: F,
) -> Result<(), NoMemory>
where
    RowLine<I, T>: Display,
    requires { F.IsAlwaysCallable id }
{
    for (i, row) in rows.iter().copied().enumerate() {
        let id = id(number(i));
        let line = RowLine { id, row };
        writeln!(out, "{line}")?;
    }
    Ok(())
}

/// Bindings or hoisted variables. The store is asked for each scope and each symbol's name: the pair is there if it leads to that symbol.
fn write_pairs<S: Store<ScopeAndName>>(
    out: &mut String,
    scoping: &Scoping,
    table: PairTable,
    pairs: &S,
) -> Result<(), NoMemory> {
    // By number: of a scope nothing else is asked.
    for i in 0..scoping.scopes().len() {
        let scope = ScopeId(number(i));
        for (k, row) in scoping.symbols().iter().enumerate() {
            let symbol = SymbolId(number(k));
            let key = ScopeAndName {
                scope,
                name: row.name,
            };
            if pairs.get(key) == Some(symbol.0) {
                let line = PairLine { table, key, symbol };
                writeln!(out, "{line}")?;
            }
        }
    }
    Ok(())
}

/// The entries of each symbol in turn.
fn write_by_symbol<T: OwnedRow<Owner = SymbolId>>(
    out: &mut String,
    symbols: usize,
    entries: &[T],
) -> Result<(), NoMemory>
where
    EntryLine<T>: Display,
{
    // By number: of a symbol nothing else is asked.
    for i in 0..symbols {
        let symbol = SymbolId(number(i));
        let own = entries.iter().copied().filter(|entry| entry.is_of(symbol));
        for (index, entry) in own.enumerate() {
            let line = EntryLine { index, entry };
            writeln!(out, "{line}")?;
        }
    }
    Ok(())
}

/// The entries in order.
fn write_in_order<T: Copy>(out: &mut String, entries: &[T]) -> Result<(), NoMemory>
where
    EntryLine<T>: Display,
{
    for (index, entry) in entries.iter().copied().enumerate() {
        let line = EntryLine { index, entry };
        writeln!(out, "{line}")?;
    }
    Ok(())
}

/// The root unresolved lists. Their names stand in the store alone, which is asked for the names that the calls refer to.
fn write_roots<R: Store<Name>>(
    out: &mut String,
    scoping: &Scoping,
    roots: &R,
    calls: &[Call],
) -> Result<(), NoMemory> {
    // By number: a list has no row of its own.
    for list in 0..number(roots.count()) {
        let Some(name) = name_of_list(roots, calls, list) else {
            continue;
        };
        let own = scoping
            .root()
            .iter()
            .copied()
            .filter(|entry| entry.is_of(list));
        for (index, entry) in own.enumerate() {
            let line = RootLine {
                name,
                index,
                reference: entry.reference,
            };
            writeln!(out, "{line}")?;
        }
    }
    Ok(())
}

/// All tables, in the order of the format.
pub fn write_tables<B: Store<ScopeAndName>, H: Store<ScopeAndName>, R: Store<Name>>(
    out: &mut String,
    builder: &SemanticBuilder<B, H, R>,
    calls: &[Call],
) -> Result<(), NoMemory> {
    let scoping = builder.scoping();
    let symbols = scoping.symbols().len();
    let line = CurrentLine(builder.current_scope());
    writeln!(out, "{line}")?;
    write_rows(out, scoping.scopes(), ScopeId)?;
    write_rows(out, scoping.symbols(), SymbolId)?;
    write_rows(out, scoping.references(), ReferenceId)?;
    write_pairs(out, scoping, PairTable::Bindings, builder.bindings())?;
    write_pairs(out, scoping, PairTable::Hoisting, builder.hoisting())?;
    write_by_symbol(out, symbols, scoping.redeclarations())?;
    write_in_order(out, scoping.conflicts())?;
    write_in_order(out, scoping.pending())?;
    write_by_symbol(out, symbols, scoping.resolved())?;
    write_roots(out, scoping, builder.roots(), calls)
}
