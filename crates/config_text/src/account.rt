//! An account of a node's book.
ghost use Rattle.serde_json.specs.View.{view};
ghost use Rattle.config_text.specs.Accounts.{account_at, account_of};
ghost use Rattle.config_text.specs.Answers.{Answers};

use crate::fault::ConfigError;
use crate::field::{Field, Shape};
use crate::joined::joined;
use crate::leaf::whole_in;
use crate::object::object_of;
use crate::part::Part;
use crate::place::Place;
use bench_open::Account;
use serde_json::Value;
use std::alloc::Global;

/// An account: its number, and the units that it is given.
fn account_at(alloc: Global, place: Place, value: &Value) -> Result<Account, ConfigError>
    ensures { Answers result (account_at place (view value.now)) }
{
    if let Err(fault) = object_of(alloc, place, Shape::Account, value) {
        return Err(ConfigError::Fault(fault));
    }
    let id = whole_in(place, Field::Id, value);
    let given = whole_in(place, Field::Given, value);
    match joined(id, given) {
        Ok((id, given)) => Ok(Account { id, given }),
        Err(e) => Err(e),
    }
}

impl Part for Account {
    ghost part_of = { account_of };

    fn read(alloc: Global, list: Place, index: u64, value: &Value) -> Result<Account, ConfigError> {
        account_at(alloc, list.item(index), value)
    }
}
