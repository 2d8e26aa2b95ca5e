//! Whether a message is an EVENT request of credit control (RFC 8506 section 8.3).

ghost use Rattle.std.specs.Prelude.{◌≡◌};
ghost use Rattle.dia_avp.specs.Reading.{avps_in};
ghost use Rattle.dia_tree.specs.View.{is_event};
ghost use Rattle.dia_tree.specs.Faults.{has_event_type as has_type_4};

use crate::cut::number_at;
use base_codes::avp_code;
use dia_avp::first_in;

/// The CC-Request-Type of a request that opens no session.
const EVENT_REQUEST: u32 = 4;

/// What says whether a message is an EVENT request: whether it is a Credit-Control-Request, and its AVPs.
#[derive(Clone, Copy)]
pub(crate) struct Event<'a> {
    pub credit: bool,
    pub octets: &'a [u8],
}

fn has_event_type(octets: &[u8]) -> bool
    ensures { result ≡ has_type_4 (avps_in octets.now).0 }
{
    match first_in(octets, avp_code::CC_REQUEST_TYPE) {
        Some(avp) => avp.octets.len() == 4 && number_at(avp.octets, 0) == EVENT_REQUEST,
        None => false,
    }
}

impl Event<'_> {
    /// Whether the message is one. Its AVPs are looked through for it.
    pub fn is_event(&self) -> bool
        ensures { result ≡ is_event self.now }
    {
        self.credit && has_event_type(self.octets)
    }
}
