//! The names of a node's files.
ghost use Rattle.serde_json.specs.View.{view};
ghost use Rattle.config_text.specs.Answers.{Answers};
ghost use Rattle.config_text.specs.Files.{files_of, names_in, tables_of};

use crate::fault::ConfigError;
use crate::field::{Field, Shape};
use crate::joined::joined;
use crate::leaf::{field_of, text_or_none};
use crate::node::{Files, Tables};
use crate::object::object_of;
use crate::place::Place;
use serde_json::Value;
use std::alloc::Global;

/// The files of an object of tables.
fn names_in(alloc: Global, place: Place, value: &Value) -> Result<Tables, ConfigError>
    ensures { Answers result (names_in place (view value.now)) }
{
    if let Err(fault) = object_of(alloc, place, Shape::Tables, value) {
        return Err(ConfigError::Fault(fault));
    }
    let peer = text_or_none(alloc, place, Field::Peer, value);
    let client = text_or_none(alloc, place, Field::Client, value);
    let server = text_or_none(alloc, place, Field::Server, value);
    match joined(peer, joined(client, server)) {
        Ok((peer, others)) => {
            let (client, server) = others;
            Ok(Tables {
                peer,
                client,
                server,
            })
        }
        Err(e) => Err(e),
    }
}

/// The files of the tables, none for null.
#[tactic(auto, unfolding(crate::specs::Files::tables_of))]
fn tables_of(alloc: Global, place: Place, node: &Value) -> Result<Tables, ConfigError>
    ensures { Answers result (tables_of place (view node.now)) }
{
    match field_of(node, Field::Tables) {
        Some(value) if !value.is_null() => names_in(alloc, place.within(Field::Tables), value),
        _ => Ok(Tables {
            peer: None,
            client: None,
            server: None,
        }),
    }
}

/// The files of a node.
#[tactic(auto, unfolding(crate::specs::Files::files_of))]
pub(crate) fn files_of(alloc: Global, place: Place, node: &Value) -> Result<Files, ConfigError>
    ensures { Answers result (files_of place (view node.now)) }
{
    let tables = tables_of(alloc, place, node);
    let dictionary = text_or_none(alloc, place, Field::Dictionary, node);
    match joined(tables, dictionary) {
        Ok((tables, dictionary)) => Ok(Files { tables, dictionary }),
        Err(e) => Err(e),
    }
}
