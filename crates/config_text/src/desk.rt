//! A desk of a node.
ghost use Rattle.serde_json.specs.View.{view};
ghost use Rattle.config_text.specs.Answers.{Answers};
ghost use Rattle.config_text.specs.Desks.{desk_at, desk_of, line_of, lines_in, repeated_in};

use crate::fault::{ConfigError, Fault, Wanted};
use crate::field::{Field, Shape};
use crate::joined::joined;
use crate::leaf::{text_of, whole_or};
use crate::node::{DEFAULT_REPEAT, DeskConfig};
use crate::object::object_of;
use crate::part::{Part, list_in, list_of};
use crate::place::Place;
use base_list::Octets;
use serde_json::Value;
use std::alloc::Global;

impl Part for Octets {
    ghost part_of = { line_of };

    fn read(alloc: Global, list: Place, index: u64, value: &Value) -> Result<Octets, ConfigError> {
        text_of(alloc, list.line(index), Some(value))
    }
}

/// The lines of a list, told once.
fn lines_in(alloc: Global, place: Place, value: &Value) -> Result<DeskConfig, ConfigError>
    ensures { Answers result (lines_in place (view value.now)) }
{
    match list_of(alloc, place, Some(value)) {
        Ok(lines) => Ok(DeskConfig {
            lines,
            repeat: DEFAULT_REPEAT,
        }),
        Err(e) => Err(e),
    }
}

/// The lines of an object, and how often they are told.
fn repeated_in(alloc: Global, place: Place, value: &Value) -> Result<DeskConfig, ConfigError>
    ensures { Answers result (repeated_in place (view value.now)) }
{
    if let Err(fault) = object_of(alloc, place, Shape::Desk, value) {
        return Err(ConfigError::Fault(fault));
    }
    let lines = list_in(alloc, place, Field::Lines, value);
    let repeat = whole_or(DEFAULT_REPEAT, place, Field::Repeat, value);
    match joined(lines, repeat) {
        Ok((lines, repeat)) => Ok(DeskConfig { lines, repeat }),
        Err(e) => Err(e),
    }
}

/// A desk: a list of lines, or an object that has them.
fn desk_at(alloc: Global, place: Place, value: &Value) -> Result<DeskConfig, ConfigError>
    ensures { Answers result (desk_at place (view value.now)) }
{
    if value.is_array() {
        return lines_in(alloc, place, value);
    }
    if value.is_object() {
        return repeated_in(alloc, place, value);
    }
    Err(ConfigError::Fault(Fault::new(place, Wanted::Desk)))
}

impl Part for DeskConfig {
    ghost part_of = { desk_of };

    fn read(
        alloc: Global,
        list: Place,
        index: u64,
        value: &Value,
    ) -> Result<DeskConfig, ConfigError> {
        desk_at(alloc, list.item(index), value)
    }
}
