//! A table bound to a book of laws.
ghost use Rattle.std.specs.Prelude.{◌≡◌, ◌≤◌, ◌<◌, [], length, map, All, Some};
ghost use Rattle.std.specs.Prelude.{None, IfOk, IfErr, IfSome, IfNone, OnOk, OnErr};
ghost use Rattle.std.specs.List.{slice_get, AllZip};
ghost use Rattle.base_list.specs.Named.{place_of};
ghost use Rattle.tab_text.specs.Contents.{IsRowOf};
ghost use Rattle.tab_step.specs.Moves.{name_at};
ghost use Rattle.tab_step.specs.Bind.{lacking, lacking_in, missing, IsPlacesOf, IsBoundTo, IsUnbound};

use crate::bound::{Bound, RowPlaces};
use base_list::{NamedList, Octets};
use std::alloc::{AllocError, Global};
use tab_law::LawBook;
use tab_text::{MAX_ROW_ACTIONS, NameList, Places, Row, Table};
use thiserror::Error;

/// Why a table isn't bound.
#[derive(Debug, Drop, Error)]
pub enum Unbound {
    /// A name of the table isn't registered: the first in text order, row by row its kind, its
    /// guards, its actions.
    #[error("a name of the table is not registered")]
    Missing(Octets),
    #[error("no memory")]
    NoMemory,
}

impl From<AllocError> for Unbound {
    ghost use Rattle.tab_step.specs.declared.binding.Unbound.TheVariants.{NoMemory};

    ghost from_gives = { λ _ u. u ≡ NoMemory };

    fn from(_error: AllocError) -> Unbound {
        Unbound::NoMemory
    }
}

// A book has room for the names of every table, and a chain for the actions of every row.
const _: () = prove!(tab_text::MAX_KINDS <= tab_law::MAX_KINDS);

const _: () = prove!(tab_text::MAX_GUARDS <= tab_law::MAX_GUARDS);

const _: () = prove!(tab_text::MAX_ACTIONS <= tab_law::MAX_ACTIONS);

const _: () = prove!(tab_text::MAX_ROW_ACTIONS <= tab_law::MAX_ROW_ACTIONS);

/// The place of a name of the table in a list of a book, or that name where it isn't there.
fn find_one<'a, T: Drop>(
    names: &'a NameList,
    number: u8,
    entries: &NamedList<T>,
) -> Result<u8, &'a [u8]>
    requires named { number < length names.now }
    requires small { length entries.now ≤ 256 }
    ensures ok { IfOk result (λ place. place_of (name_at names.now number) entries.now ≡ Some place) }
    ensures name { IfErr result (λ name. name.now ≡ name_at names.now number) }
    ensures none { OnErr result (place_of (name_at names.now number) entries.now ≡ None) }
{
    let name = names.as_slice()[number as usize].as_slice();
    match entries.find(name) {
        Some(place) => Ok(place as u8),
        None => Err(name),
    }
}

/// The places of several, or the first name that isn't there.
fn find_all<'a, T: Drop>(
    names: &'a NameList,
    numbers: &[u8],
    entries: &NamedList<T>,
) -> Result<Places, &'a [u8]>
    requires named { All (λ number. number < length names.now) numbers.now }
    requires few { length numbers.now ≤ MAX_ROW_ACTIONS }
    requires small { length entries.now ≤ 256 }
    ensures ok { IfOk result (λ places. map (λ number. place_of (name_at names.now number) entries.now) numbers.now
        ≡ map Some places) }
    ensures found { OnOk result (lacking entries.now (map (name_at names.now) numbers.now) ≡ []) }
    ensures err { IfErr result (λ name. slice_get (lacking entries.now (map (name_at names.now) numbers.now)) 0
        ≡ Some name.now) }
{
    let mut places = Places::new();
    for number in numbers {
        places.push(find_one(names, *number, entries)?);
    }
    Ok(places)
}

/// The places of a row's names, or the first name that isn't there.
fn find_row<'a>(table: &'a Table, row: &Row, book: &LawBook) -> Result<RowPlaces, &'a [u8]>
    requires { IsRowOf table.now row.now }
    ensures ok { IfOk result (λ places. IsPlacesOf book.now table.now row.now places) }
    ensures found { OnOk result (lacking_in book.now table.now row.now ≡ []) }
    ensures err { IfErr result (λ name. slice_get (lacking_in book.now table.now row.now) 0 ≡ Some name.now) }
{
    book.known();
    let kind = find_one(table.kinds(), row.kind, book.kinds())?;
    let guards = find_all(table.guards(), row.guards.as_slice(), book.guards())?;
    let actions = find_all(table.actions(), row.actions.as_slice(), book.acts())?;
    Ok(RowPlaces {
        kind,
        guards,
        actions,
    })
}

/// The first name of a table, in text order, that isn't in a book.
fn first_missing<'a>(table: &'a Table, book: &LawBook) -> Option<&'a [u8]>
    ensures none { IfNone result (missing book.now table.now ≡ []) }
    ensures some { IfSome result (λ name. slice_get (missing book.now table.now) 0 ≡ Some name.now) }
{
    for row in table.rows() {
        if let Err(name) = find_row(table, row, book) {
            return Some(name);
        }
    }
    None
}

/// The refusal of a name.
fn refuse(alloc: Global, name: &[u8]) -> Unbound
    ensures { IsUnbound (Some name.now) result }
{
    match Octets::from_slice(alloc, name) {
        Ok(octets) => Unbound::Missing(octets),
        Err(_) => Unbound::NoMemory,
    }
}

/// The places of the names of each row.
fn find_rows(alloc: Global, table: &Table, book: &LawBook) -> Result<Vec<RowPlaces>, AllocError>
    requires { missing book.now table.now ≡ [] }
    ensures { IfOk result (λ places. AllZip (IsPlacesOf book.now table.now) table.now.rows places.items) }
{
    let mut places = Vec::with_capacity(alloc, table.rows().len())?;
    for row in table.rows() {
        match find_row(table, row, book) {
            Ok(found) => places.push(found)?,
            Err(_) => unreachable!(),
        }
    }
    Ok(places)
}

/// Finds a table's names in a book.
pub fn bind(alloc: Global, table: Table, book: &LawBook) -> Result<Bound, Unbound>
    ensures table { IfOk result (λ bound. bound.table ≡ table) }
    ensures bound { IfOk result (λ bound. IsBoundTo bound book.now) }
    ensures found { OnOk result (missing book.now table ≡ []) }
    ensures err { IfErr result (λ unbound. IsUnbound (slice_get (missing book.now table) 0) unbound) }
{
    if let Some(name) = first_missing(&table, book) {
        return Err(refuse(alloc, name));
    }
    let places = find_rows(alloc, &table, book)?;
    Ok(Bound::new(table, places))
}
