//! Texts, numbers and addresses in fields of an object. A field that is absent counts as null.
ghost use Rattle.std.specs.Prelude.{◌≡◌};
ghost use Rattle.serde_json.specs.View.{view};
ghost use Rattle.config_text.specs.Answers.{Answers};
ghost use Rattle.config_text.specs.Leaves.{address_in, data_of, field_of, is_null, text_in, text_of, text_or_none};
ghost use Rattle.config_text.specs.Leaves.{whole_in, whole_of, whole_or};

use crate::address::address_of;
use crate::fault::{ConfigError, Fault, Wanted};
use crate::field::Field;
use crate::place::Place;
use base_list::Octets;
use serde_json::Value;
use std::alloc::Global;

/// The value of a field; none where it is absent.
pub(crate) fn field_of(object: &Value, field: Field) -> Option<&Value>
    ensures { data_of result ≡ field_of field (view object.now) }
{
    object.get(field.name())
}

/// Whether a value is absent, or null.
pub(crate) fn is_null(value: Option<&Value>) -> bool
    ensures { result ≡ is_null (data_of value.entry) }
{
    match value {
        Some(value) => value.is_null(),
        None => true,
    }
}

/// A text, in memory of its own.
pub(crate) fn text_of(
    alloc: Global,
    place: Place,
    value: Option<&Value>,
) -> Result<Octets, ConfigError>
    ensures { Answers result (text_of place (data_of value.entry)) }
{
    match value.and_then(Value::as_str) {
        Some(text) => Ok(Octets::from_slice(alloc, text.as_bytes())?),
        None => Err(ConfigError::Fault(Fault::new(place, Wanted::Text))),
    }
}

/// A whole number below 2^64.
fn whole_of(place: Place, value: Option<&Value>) -> Result<u64, ConfigError>
    ensures { Answers result (whole_of place (data_of value.entry)) }
{
    match value.and_then(Value::as_u64) {
        Some(number) => Ok(number),
        None => Err(ConfigError::Fault(Fault::new(place, Wanted::Whole))),
    }
}

/// A text in a field.
#[tactic(auto, unfolding(crate::specs::Leaves::text_in))]
pub(crate) fn text_in(
    alloc: Global,
    place: Place,
    field: Field,
    object: &Value,
) -> Result<Octets, ConfigError>
    ensures { Answers result (text_in place field (view object.now)) }
{
    text_of(alloc, place.within(field), field_of(object, field))
}

/// A text in a field, or none for null.
#[tactic(auto, unfolding(crate::specs::Leaves::text_or_none))]
pub(crate) fn text_or_none(
    alloc: Global,
    place: Place,
    field: Field,
    object: &Value,
) -> Result<Option<Octets>, ConfigError>
    ensures { Answers result (text_or_none place field (view object.now)) }
{
    let value = field_of(object, field);
    if is_null(value) {
        return Ok(None);
    }
    match text_of(alloc, place.within(field), value) {
        Ok(text) => Ok(Some(text)),
        Err(e) => Err(e),
    }
}

/// A whole number in a field.
#[tactic(auto, unfolding(crate::specs::Leaves::whole_in))]
pub(crate) fn whole_in(place: Place, field: Field, object: &Value) -> Result<u64, ConfigError>
    ensures { Answers result (whole_in place field (view object.now)) }
{
    whole_of(place.within(field), field_of(object, field))
}

/// A whole number in a field, or a default for null.
#[tactic(auto, unfolding(crate::specs::Leaves::whole_or))]
pub(crate) fn whole_or(
    default: u64,
    place: Place,
    field: Field,
    object: &Value,
) -> Result<u64, ConfigError>
    ensures { Answers result (whole_or default place field (view object.now)) }
{
    let value = field_of(object, field);
    if is_null(value) {
        return Ok(default);
    }
    whole_of(place.within(field), value)
}

/// An IPv4 address in a field.
#[tactic(auto, unfolding(crate::specs::Leaves::address_in))]
pub(crate) fn address_in(place: Place, field: Field, object: &Value) -> Result<[u8; 4], ConfigError>
    ensures { Answers result (address_in place field (view object.now)) }
{
    if let Some(text) = field_of(object, field).and_then(Value::as_str) {
        if let Some(address) = address_of(text.as_bytes()) {
            return Ok(address);
        }
    }
    Err(ConfigError::Fault(Fault::new(place.within(field), Wanted::Address)))
}
