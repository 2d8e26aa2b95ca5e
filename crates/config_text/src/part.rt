//! The parts of lists.
ghost use Rattle.std.specs.Prelude.{Result, ℕ};
ghost use Rattle.serde_json.specs.Data.{Data};
ghost use Rattle.serde_json.specs.View.{items_view, view};
ghost use Rattle.config_text.specs.Answers.{Answers};
ghost use Rattle.config_text.specs.Leaves.{data_of};
ghost use Rattle.config_text.specs.Parts.{list_in, list_of, list_or_none, parts_from};
ghost use Rattle.config_text.specs.declared.fault.Fault as fault;

use crate::fault::{ConfigError, Fault, Wanted};
use crate::field::Field;
use crate::leaf::{field_of, is_null};
use crate::listed::Listed;
use crate::place::Place;
use serde_json::Value;
use std::alloc::Global;

/// What each item of a list is read as.
pub(crate) trait Part: Drop {
    ghost use Rattle.config_text.specs.declared.place.Place.{Place};

    ghost part_of: { Place → ℕ → Data → Result Self fault.Fault };

    /// The item at an index of the list at a place.
    fn read(alloc: Global, list: Place, index: u64, value: &Value) -> Result<Self, ConfigError>
        ensures { Answers result (part_of list index (view value.now)) };
}

/// All parts of items, or the first fault of one.
fn parts_of<T: Part>(alloc: Global, list: Place, items: &[Value]) -> Result<Listed<T>, ConfigError>
    ensures { Answers result (parts_from (T.part_of list) 0 (items_view items.now)) }
{
    let mut parts = Vec::new(alloc);
    // Where memory ran out the other items are only looked at.
    let mut short = false;
    let mut index = 0;
    let mut left = items;
    'items: while let [value, behind @ ..] = left {
        match T::read(alloc, list, index, value) {
            Ok(part) => short |= parts.push(part).is_err(),
            Err(ConfigError::NoMemory) => short = true,
            Err(e) => return Err(e),
        }
        index += 1;
        left = behind;
    }
    if short {
        return Err(ConfigError::NoMemory);
    }
    Ok(Listed::new(parts))
}

/// The parts of a list.
#[tactic(auto, unfolding(crate::specs::Parts::list_of))]
pub(crate) fn list_of<T: Part>(
    alloc: Global,
    place: Place,
    value: Option<&Value>,
) -> Result<Listed<T>, ConfigError>
    ensures { Answers result (list_of T.part_of place (data_of value.entry)) }
{
    match value.and_then(Value::as_array) {
        Some(items) => parts_of(alloc, place, items),
        None => Err(ConfigError::Fault(Fault::new(place, Wanted::List))),
    }
}

/// The parts of a list in a field.
#[tactic(auto, unfolding(crate::specs::Parts::list_in))]
pub(crate) fn list_in<T: Part>(
    alloc: Global,
    place: Place,
    field: Field,
    object: &Value,
) -> Result<Listed<T>, ConfigError>
    ensures { Answers result (list_in T.part_of place field (view object.now)) }
{
    list_of(alloc, place.within(field), field_of(object, field))
}

/// The parts of a list in a field, none for null.
#[tactic(auto, unfolding(crate::specs::Parts::list_or_none))]
pub(crate) fn list_or_none<T: Part>(
    alloc: Global,
    place: Place,
    field: Field,
    object: &Value,
) -> Result<Listed<T>, ConfigError>
    ensures { Answers result (list_or_none T.part_of place field (view object.now)) }
{
    let value = field_of(object, field);
    if is_null(value) {
        return Ok(Listed::new(Vec::new(alloc)));
    }
    list_of(alloc, place.within(field), value)
}
