//! What the shipped table of any role owes: it is printed as it is written, and names what the role's laws name.

use base_list::NamedList;
use std::alloc::Global;
use tab_law::LawBook;
use tab_print::print;
use tab_step::bind;
use tab_text::{NameList, parse};

/// Whether a table is printed as it is written.
pub fn is_printed_as_written(alloc: Global, text: &[u8]) -> bool {
    let Ok(table) = parse(alloc, text) else {
        return false;
    };
    match print(alloc, &table) {
        Ok(printed) => printed.as_slice() == text,
        Err(_) => false,
    }
}

/// Whether names are those of entries, in their order.
fn are_names_of<T: Drop>(names: &NameList, entries: &NamedList<T>) -> bool {
    let (names, entries) = (names.as_slice(), entries.as_slice());
    names.len() == entries.len()
        && names
            .iter()
            .zip(entries)
            .all(|(name, entry)| name.as_slice() == entry.name.as_slice())
}

/// Whether a table's kinds, guards and actions are those of the laws,
/// in the order of their first appearance, and it is bound to them.
pub fn has_the_names_of(alloc: Global, text: &[u8], laws: &LawBook) -> bool {
    let Ok(table) = parse(alloc, text) else {
        return false;
    };
    let are_same = are_names_of(table.kinds(), laws.kinds())
        && are_names_of(table.guards(), laws.guards())
        && are_names_of(table.actions(), laws.acts());
    are_same && bind(alloc, table, laws).is_ok()
}

/// Whether names are these.
fn are(names: &NameList, wanted: &[&'static str]) -> bool {
    let names = names.as_slice();
    names.len() == wanted.len()
        && names
            .iter()
            .zip(wanted)
            .all(|(name, wanted)| name.as_slice() == wanted.as_bytes())
}

/// Whether a table's states are these, by first appearance.
pub fn has_states(alloc: Global, text: &[u8], names: &[&'static str]) -> bool {
    match parse(alloc, text) {
        Ok(table) => are(table.states(), names),
        Err(_) => false,
    }
}
