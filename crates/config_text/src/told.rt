//! What is told of a text that gives no nodes.
ghost use Rattle.std.specs.Prelude.{◌≡◌, ◌++◌, OnOk};
ghost use Rattle.config_text.specs.Told.{error_text, field_text, fields_text, index_text, inside_text, not_json_text};
ghost use Rattle.config_text.specs.Told.{one_of_text, others_text, place_text, shown, twice_text};
ghost use Rattle.config_text.specs.Told.{unknown_text, wanted_text, written};

use crate::fault::{ConfigError, Wanted};
use crate::field::{Field, Shape};
use crate::place::Place;
use base_text::put_number;
use std::alloc::AllocError;

/// `[1]`, or nothing.
#[tactic(auto, unfolding(crate::specs::Told::index_text))]
fn put_index(out: &mut Vec<u8>, index: Option<u64>) -> Result<(), AllocError>
    ensures { OnOk result (out.new.items ≡ out.old.items ++ index_text index) }
{
    match index {
        Some(index) => {
            put_number(out, b"[", index)?;
            out.extend_from_slice(b"]")
        }
        None => Ok(()),
    }
}

/// `.peers`, or nothing.
#[tactic(auto, unfolding(crate::specs::Told::field_text))]
fn put_field(out: &mut Vec<u8>, field: Option<Field>) -> Result<(), AllocError>
    ensures { OnOk result (out.new.items ≡ out.old.items ++ field_text field) }
{
    match field {
        Some(field) => {
            out.extend_from_slice(b".")?;
            out.extend_from_slice(field.name().as_bytes())
        }
        None => Ok(()),
    }
}

/// `[0].host`: what is behind `nodes`.
#[tactic(auto, unfolding(crate::specs::Told::inside_text))]
fn put_inside(out: &mut Vec<u8>, place: Place) -> Result<(), AllocError>
    ensures { OnOk result (out.new.items ≡ out.old.items ++ inside_text place) }
{
    put_index(out, place.node)?;
    put_field(out, place.field)?;
    put_index(out, place.item)?;
    put_field(out, place.inner)?;
    put_index(out, place.line)
}

/// `nodes[0].host`; `CONFIG` for the whole.
#[tactic(auto, unfolding(crate::specs::Told::place_text))]
fn put_place(out: &mut Vec<u8>, place: Place) -> Result<(), AllocError>
    ensures { OnOk result (out.new.items ≡ out.old.items ++ place_text place) }
{
    match (place.node, place.field) {
        (Some(_), _) => {
            out.extend_from_slice(b"nodes")?;
            put_inside(out, place)
        }
        (None, Some(field)) => out.extend_from_slice(field.name().as_bytes()),
        (None, None) => out.extend_from_slice(b"CONFIG"),
    }
}

/// A character of a name as it is shown.
fn shown(c: u8) -> u8
    ensures { result ≡ shown c }
{
    if c < 32 || c > 126 { b'?' } else { c }
}

/// The characters of a name.
#[tactic(auto, unfolding(crate::specs::Told::written))]
fn put_written(out: &mut Vec<u8>, name: &[u8]) -> Result<(), AllocError>
    ensures { OnOk result (out.new.items ≡ out.old.items ++ written name.now) }
{
    for c in name {
        out.push(shown(*c))?;
    }
    Ok(())
}

/// `, realm, address`: names behind the first.
fn put_others(out: &mut Vec<u8>, fields: &[Field]) -> Result<(), AllocError>
    ensures { OnOk result (out.new.items ≡ out.old.items ++ others_text fields.now) }
{
    let mut left = fields;
    'fields: while let [field, behind @ ..] = left {
        out.extend_from_slice(b", ")?;
        out.extend_from_slice(field.name().as_bytes())?;
        left = behind;
    }
    Ok(())
}

/// `host, realm, address`.
#[tactic(auto, unfolding(crate::specs::Told::fields_text))]
fn put_fields(out: &mut Vec<u8>, shape: Shape) -> Result<(), AllocError>
    ensures { OnOk result (out.new.items ≡ out.old.items ++ fields_text shape) }
{
    match shape.fields() {
        [field, behind @ ..] => {
            out.extend_from_slice(field.name().as_bytes())?;
            put_others(out, behind)
        }
        [] => Ok(()),
    }
}

/// `, one of host, realm is wanted`.
#[tactic(auto, unfolding(crate::specs::Told::one_of_text))]
fn put_one_of(out: &mut Vec<u8>, shape: Shape) -> Result<(), AllocError>
    ensures { OnOk result (out.new.items ≡ out.old.items ++ one_of_text shape) }
{
    out.extend_from_slice(b", one of ")?;
    put_fields(out, shape)?;
    out.extend_from_slice(b" is wanted")
}

/// `unknown field hots, one of host, realm is wanted`.
#[tactic(auto, unfolding(crate::specs::Told::unknown_text))]
fn put_unknown(out: &mut Vec<u8>, shape: Shape, name: &[u8]) -> Result<(), AllocError>
    ensures { OnOk result (out.new.items ≡ out.old.items ++ unknown_text shape name.now) }
{
    out.extend_from_slice(b"unknown field ")?;
    put_written(out, name)?;
    put_one_of(out, shape)
}

/// `field host stands twice in one object`.
#[tactic(auto, unfolding(crate::specs::Told::twice_text))]
fn put_twice(out: &mut Vec<u8>, name: &[u8]) -> Result<(), AllocError>
    ensures { OnOk result (out.new.items ≡ out.old.items ++ twice_text name.now) }
{
    out.extend_from_slice(b"field ")?;
    put_written(out, name)?;
    out.extend_from_slice(b" stands twice in one object")
}

/// What is wanted.
#[tactic(auto, unfolding(crate::specs::Told::wanted_text))]
fn put_wanted(out: &mut Vec<u8>, wanted: &Wanted) -> Result<(), AllocError>
    ensures { OnOk result (out.new.items ≡ out.old.items ++ wanted_text wanted.now) }
{
    match wanted {
        Wanted::Text => out.extend_from_slice(b"a text is wanted"),
        Wanted::Whole => out.extend_from_slice(
            b"a whole number of at most 18446744073709551615 is wanted",
        ),
        Wanted::Address => out.extend_from_slice(b"an IPv4 address is wanted, as 192.0.2.1"),
        Wanted::List => out.extend_from_slice(b"a list is wanted"),
        Wanted::Object => out.extend_from_slice(b"an object is wanted"),
        Wanted::Desk => out.extend_from_slice(
            b"a list of lines is wanted, or an object with lines",
        ),
        Wanted::Known { shape, name } => { put_unknown(out, *shape, name.as_slice()) }
        Wanted::Once { name } => put_twice(out, name.as_slice()),
    }
}

/// `line 3 column 7: not JSON`.
#[tactic(auto, unfolding(crate::specs::Told::not_json_text))]
fn put_not_json(out: &mut Vec<u8>, line: u64, column: u64) -> Result<(), AllocError>
    ensures { OnOk result (out.new.items ≡ out.old.items ++ not_json_text line column) }
{
    put_number(out, b"line ", line)?;
    put_number(out, b" column ", column)?;
    out.extend_from_slice(b": not JSON\n")
}

/// Puts a line that tells of an error: `nodes[0].peers[1].host: a text is wanted`, `line 3 column 7: not JSON`.
#[tactic(auto, unfolding(crate::specs::Told::error_text))]
pub fn put_fault(out: &mut Vec<u8>, error: &ConfigError) -> Result<(), AllocError>
    ensures { OnOk result (out.new.items ≡ out.old.items ++ error_text error.now) }
{
    match error {
        ConfigError::NoMemory => out.extend_from_slice(b"no memory\n"),
        ConfigError::NotJson { line, column } => { put_not_json(out, *line, *column) }
        ConfigError::Fault(fault) => {
            put_place(out, fault.place)?;
            out.extend_from_slice(b": ")?;
            put_wanted(out, &fault.wanted)?;
            out.extend_from_slice(b"\n")
        }
    }
}
