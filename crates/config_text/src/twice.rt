//! Names that stand twice in one object of JSON: of these `serde_json` keeps the last alone.
ghost use Rattle.std.specs.Prelude.{◌≡◌, Ok, IfErr, OnOk};
ghost use Rattle.std.specs.Option.{option_map};
ghost use Rattle.std.specs.Str.{IsUtf8};
ghost use Rattle.json.specs.Value.{items_view, members_view, value_view};
ghost use Rattle.config_text.specs.Twice.{IsTwice, first_twice, is_named, twice_in_items, twice_in_members};
ghost use Rattle.config_text.specs.Twice.{twice_of, twice_with, unless_twice};

use crate::fault::{ConfigError, Fault, Wanted};
use crate::object::kept_name;
use crate::place::Place;
use json::{Error, Scratch, Value};
use std::alloc::Global;

/// Whether a member has this name.
fn is_named<'a>(name: &str, members: &[(&'a str, Value<'a>)]) -> bool
    ensures { result ≡ is_named name.now (members_view members.now) }
{
    let mut left = members;
    'members: while let [member, behind @ ..] = left {
        if member.0 == name {
            return true;
        }
        left = behind;
    }
    false
}

/// The first name that stands twice in an object of items.
#[cycle(twice)]
fn twice_in_items<'v, 'a>(depth: usize, items: &'v [Value<'a>]) -> Option<&'a str>
    ensures { option_map (λ name. name.now) result ≡ twice_in_items (first_twice depth) (items_view items.now) }
{
    let mut left = items;
    'items: while let [item, behind @ ..] = left {
        if let Some(name) = first_twice(depth, item) {
            return Some(name);
        }
        left = behind;
    }
    None
}

/// The first name that stands twice among members, or in an object of their values.
#[cycle(twice)]
fn twice_in_members<'v, 'a>(depth: usize, members: &'v [(&'a str, Value<'a>)]) -> Option<&'a str>
    ensures { option_map (λ name. name.now) result ≡ twice_in_members (first_twice depth) (members_view members.now) }
{
    let mut left = members;
    'members: while let [member, behind @ ..] = left {
        if is_named(member.0, behind) {
            return Some(member.0);
        }
        if let Some(name) = first_twice(depth, &member.1) {
            return Some(name);
        }
        left = behind;
    }
    None
}

/// The first name that stands twice in one object of a value, whose parts are looked at as deep as this.
#[cycle(twice)]
fn twice_inside<'v, 'a>(depth: usize, value: &'v Value<'a>) -> Option<&'a str>
    ensures { option_map (λ name. name.now) result ≡ twice_with (first_twice depth) (value_view value.now) }
{
    match value {
        Value::Array(items) => twice_in_items(depth, items.as_slice()),
        Value::Object(members) => twice_in_members(depth, members.as_slice()),
        _ => None,
    }
}

/// The first name that stands twice in one object of a value, as deep as this.
#[cycle(twice)]
#[tactic(auto, using(crate::proofs::TwiceLemmas::twice))]
fn first_twice<'v, 'a>(depth: usize, value: &'v Value<'a>) -> Option<&'a str>
    ensures { option_map (λ name. name.now) result ≡ first_twice depth (value_view value.now) }
{
    if depth == 0 {
        None
    } else {
        twice_inside(depth - 1, value)
    }
}

/// How deep a value may nest.
const MAX_DEPTH: usize = 128;

/// That no name stands twice in one object of a text, if it is JSON; else the fault, or want of memory.
#[tactic(auto, unfolding(crate::specs::Twice::twice_of))]
pub(crate) fn unless_twice(alloc: Global, text: &[u8]) -> Result<(), ConfigError>
    requires { IsUtf8 text.now }
    ensures once { OnOk result (unless_twice (twice_of text.now) ≡ Ok tt) }
    ensures twice { IfErr result (IsTwice (unless_twice (twice_of text.now))) }
{
    let mut scratch = Scratch::new(alloc);
    match Value::from_slice(alloc, text, &mut scratch) {
        Ok(value) => match first_twice(MAX_DEPTH, &value) {
            Some(name) => {
                let name = kept_name(alloc, name.as_bytes());
                let wanted = Wanted::Once { name };
                Err(ConfigError::Fault(Fault::new(Place::whole(), wanted)))
            }
            None => Ok(()),
        },
        Err(Error::Invalid) => Ok(()),
        Err(_) => Err(ConfigError::NoMemory),
    }
}
