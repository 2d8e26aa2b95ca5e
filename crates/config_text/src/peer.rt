//! A peer of a node.
ghost use Rattle.serde_json.specs.View.{view};
ghost use Rattle.config_text.specs.Answers.{Answers};
ghost use Rattle.config_text.specs.Peers.{peer_at, peer_of};

use crate::fault::ConfigError;
use crate::field::{Field, Shape};
use crate::joined::joined;
use crate::leaf::text_in;
use crate::node::PeerConfig;
use crate::object::object_of;
use crate::part::Part;
use crate::place::Place;
use serde_json::Value;
use std::alloc::Global;

/// A peer: its host, and where it is dialled.
fn peer_at(alloc: Global, place: Place, value: &Value) -> Result<PeerConfig, ConfigError>
    ensures { Answers result (peer_at place (view value.now)) }
{
    if let Err(fault) = object_of(alloc, place, Shape::Peer, value) {
        return Err(ConfigError::Fault(fault));
    }
    let host = text_in(alloc, place, Field::Host, value);
    let address = text_in(alloc, place, Field::Address, value);
    match joined(host, address) {
        Ok((host, address)) => Ok(PeerConfig { host, address }),
        Err(e) => Err(e),
    }
}

impl Part for PeerConfig {
    ghost part_of = { peer_of };

    fn read(
        alloc: Global,
        list: Place,
        index: u64,
        value: &Value,
    ) -> Result<PeerConfig, ConfigError> {
        peer_at(alloc, list.item(index), value)
    }
}
