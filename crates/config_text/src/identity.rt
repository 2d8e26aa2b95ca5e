//! Who a node is.
ghost use Rattle.serde_json.specs.View.{view};
ghost use Rattle.config_text.specs.Answers.{Answers};
ghost use Rattle.config_text.specs.Identities.{identity_of};

use crate::fault::ConfigError;
use crate::field::Field;
use crate::joined::joined;
use crate::leaf::{address_in, text_in};
use crate::place::Place;
use dia_write::Identity;
use serde_json::Value;
use std::alloc::Global;

/// Who a node is: its host, realm and address.
#[tactic(auto, unfolding(crate::specs::Identities::identity_of))]
pub(crate) fn identity_of(
    alloc: Global,
    place: Place,
    node: &Value,
) -> Result<Identity, ConfigError>
    ensures { Answers result (identity_of place (view node.now)) }
{
    let host = text_in(alloc, place, Field::Host, node);
    let realm = text_in(alloc, place, Field::Realm, node);
    let address = address_in(place, Field::Address, node);
    match joined(host, joined(realm, address)) {
        Ok((host, others)) => {
            let (realm, address) = others;
            Ok(Identity {
                host,
                realm,
                address,
            })
        }
        Err(e) => Err(e),
    }
}
