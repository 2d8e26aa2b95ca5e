//! The first name of the tables that laws lack.
ghost use Rattle.std.specs.Prelude.{◌≡◌, ◌<◌, All, List, length, map, option_copied, slice_get};
ghost use Rattle.tab_law.specs.Books.{Laws};
ghost use Rattle.tab_step.specs.Bind.{lacking, lacking_in, missing};
ghost use Rattle.tab_step.specs.Moves.{name_at};
ghost use Rattle.tab_text.specs.Contents.{IsRowOf};
ghost use Rattle.bench_spec.specs.Opening.{unbound};
ghost use Rattle.bench_open.specs.Given.{config_of, first_of};

use crate::config::Config;
use base_list::NamedList;
use tab_law::LawBook;
use tab_text::{NameList, Row, Table};

/// The first of these names of a table that is not registered.
fn first_lacking<'a, T: Drop>(
    names: &'a NameList,
    numbers: &[u8],
    entries: &NamedList<T>,
) -> Option<&'a [u8]>
    requires { All (λ number. number < length names.now) numbers.now }
    ensures { option_copied result ≡ slice_get (lacking entries.now (map (name_at names.now) numbers.now)) 0 }
{
    for number in numbers {
        let name = names.as_slice()[*number as usize].as_slice();
        if entries.find(name).is_none() {
            return Some(name);
        }
    }
    None
}

/// The first name of a row that laws lack: its kind, its guards, its actions.
fn first_in_row<'a>(table: &'a Table, row: &Row, laws: &LawBook) -> Option<&'a [u8]>
    requires { IsRowOf table.now row.now }
    ensures { option_copied result ≡ slice_get (lacking_in laws.now table.now row.now) 0 }
{
    if let Some(name) = first_lacking(table.kinds(), &[row.kind], laws.kinds()) {
        return Some(name);
    }
    if let Some(name) = first_lacking(table.guards(), row.guards.as_slice(), laws.guards()) {
        return Some(name);
    }
    first_lacking(table.actions(), row.actions.as_slice(), laws.acts())
}

/// The first name of a table that laws lack, row by row.
fn first_in_table<'a>(table: &'a Table, laws: &LawBook) -> Option<&'a [u8]>
    ensures { option_copied result ≡ slice_get (missing laws.now table.now) 0 }
{
    for row in table.rows() {
        if let Some(name) = first_in_row(table, row, laws) {
            return Some(name);
        }
    }
    None
}

/// The first name of the tables that laws lack: of the peers' table, of the clients', of the servers'.
pub(crate) fn first_unbound<'a>(config: &'a Config, laws: &LawBook) -> Option<&'a [u8]>
    ensures { (books : List Laws) → first_of books ≡ laws.now
        → option_copied result ≡ slice_get (unbound (config_of config.now books)) 0 }
{
    if let Some(name) = first_in_table(&config.peer, laws) {
        return Some(name);
    }
    if let Some(name) = first_in_table(&config.client, laws) {
        return Some(name);
    }
    first_in_table(&config.server, laws)
}
