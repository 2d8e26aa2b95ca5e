//! Commands as values.

ghost use Rattle.std.specs.Prelude.{◌≡◌};
ghost use Rattle.dia_command.specs.Command.{header_of, kind_of, rest_of};

use crate::header::Header;
use crate::kind::CommandKind;
use crate::text::Text;
use crate::typed::{TypedAvp, TypedAvps};
use crate::value::{RequestType, RequestedAction};
use dia_avp::{AvpList, Octets};

/// A Capabilities-Exchange-Request (RFC 6733 section 5.3.1). `rest` has the AVPs that no field took, in order.
#[derive(Drop)]
pub struct CapabilitiesExchangeRequest {
    pub header: Header,
    pub origin_host: TypedAvp<Octets>,
    pub origin_realm: TypedAvp<Octets>,
    pub host_ip_address: TypedAvps<Octets>,
    pub vendor_id: TypedAvp<u32>,
    pub product_name: TypedAvp<Text>,
    pub auth_application_id: TypedAvps<u32>,
    pub rest: AvpList,
}

/// A Capabilities-Exchange-Answer (RFC 6733 section 5.3.2). `rest` has the AVPs that no field took, in order.
#[derive(Drop)]
pub struct CapabilitiesExchangeAnswer {
    pub header: Header,
    pub result_code: TypedAvp<u32>,
    pub origin_host: TypedAvp<Octets>,
    pub origin_realm: TypedAvp<Octets>,
    pub host_ip_address: TypedAvps<Octets>,
    pub vendor_id: TypedAvp<u32>,
    pub product_name: TypedAvp<Text>,
    pub auth_application_id: TypedAvps<u32>,
    pub rest: AvpList,
}

/// A Device-Watchdog-Request (RFC 6733 section 5.5.1). `rest` has the AVPs that no field took, in order.
#[derive(Drop)]
pub struct DeviceWatchdogRequest {
    pub header: Header,
    pub origin_host: TypedAvp<Octets>,
    pub origin_realm: TypedAvp<Octets>,
    pub rest: AvpList,
}

/// A Device-Watchdog-Answer (RFC 6733 section 5.5.2). `rest` has the AVPs that no field took, in order.
#[derive(Drop)]
pub struct DeviceWatchdogAnswer {
    pub header: Header,
    pub result_code: TypedAvp<u32>,
    pub origin_host: TypedAvp<Octets>,
    pub origin_realm: TypedAvp<Octets>,
    pub rest: AvpList,
}

/// A Disconnect-Peer-Request (RFC 6733 section 5.4.1). `rest` has the AVPs that no field took, in order.
#[derive(Drop)]
pub struct DisconnectPeerRequest {
    pub header: Header,
    pub origin_host: TypedAvp<Octets>,
    pub origin_realm: TypedAvp<Octets>,
    pub disconnect_cause: TypedAvp<u32>,
    pub rest: AvpList,
}

/// A Disconnect-Peer-Answer (RFC 6733 section 5.4.2). `rest` has the AVPs that no field took, in order.
#[derive(Drop)]
pub struct DisconnectPeerAnswer {
    pub header: Header,
    pub result_code: TypedAvp<u32>,
    pub origin_host: TypedAvp<Octets>,
    pub origin_realm: TypedAvp<Octets>,
    pub rest: AvpList,
}

/// A Re-Auth-Request (RFC 6733 section 8.3.1). `rest` has the AVPs that no field took, in order.
#[derive(Drop)]
pub struct ReAuthRequest {
    pub header: Header,
    pub session_id: TypedAvp<Text>,
    pub origin_host: TypedAvp<Octets>,
    pub origin_realm: TypedAvp<Octets>,
    pub destination_realm: TypedAvp<Octets>,
    pub destination_host: TypedAvp<Octets>,
    pub auth_application_id: TypedAvp<u32>,
    pub re_auth_request_type: TypedAvp<u32>,
    pub rest: AvpList,
}

/// A Re-Auth-Answer (RFC 6733 section 8.3.2). `rest` has the AVPs that no field took, in order.
#[derive(Drop)]
pub struct ReAuthAnswer {
    pub header: Header,
    pub session_id: TypedAvp<Text>,
    pub result_code: TypedAvp<u32>,
    pub origin_host: TypedAvp<Octets>,
    pub origin_realm: TypedAvp<Octets>,
    pub rest: AvpList,
}

/// A Credit-Control-Request (RFC 8506 section 3.1). `rest` has the AVPs that no field took, in order.
#[derive(Drop)]
pub struct CreditControlRequest {
    pub header: Header,
    pub session_id: TypedAvp<Text>,
    pub origin_host: TypedAvp<Octets>,
    pub origin_realm: TypedAvp<Octets>,
    pub destination_realm: TypedAvp<Octets>,
    pub auth_application_id: TypedAvp<u32>,
    pub service_context_id: TypedAvp<Text>,
    pub cc_request_type: TypedAvp<RequestType>,
    pub cc_request_number: TypedAvp<u32>,
    pub subscription_id: TypedAvps<AvpList>,
    pub requested_action: Option<TypedAvp<RequestedAction>>,
    pub requested_service_unit: Option<TypedAvp<AvpList>>,
    pub used_service_unit: TypedAvps<AvpList>,
    pub multiple_services_indicator: Option<TypedAvp<u32>>,
    pub multiple_services_credit_control: TypedAvps<AvpList>,
    pub rest: AvpList,
}

/// A Credit-Control-Answer (RFC 8506 section 3.2). `rest` has the AVPs that no field took, in order.
#[derive(Drop)]
pub struct CreditControlAnswer {
    pub header: Header,
    pub session_id: TypedAvp<Text>,
    pub result_code: TypedAvp<u32>,
    pub origin_host: TypedAvp<Octets>,
    pub origin_realm: TypedAvp<Octets>,
    pub auth_application_id: TypedAvp<u32>,
    pub cc_request_type: TypedAvp<RequestType>,
    pub cc_request_number: TypedAvp<u32>,
    pub granted_service_unit: Option<TypedAvp<AvpList>>,
    pub final_unit_indication: Option<TypedAvp<AvpList>>,
    pub check_balance_result: Option<TypedAvp<u32>>,
    pub multiple_services_credit_control: TypedAvps<AvpList>,
    pub rest: AvpList,
}

/// An answer that tells a fault (RFC 6733 section 7.2). `rest` has the AVPs that no field took, in order.
#[derive(Drop)]
pub struct ErrorAnswer {
    pub header: Header,
    pub session_id: Option<TypedAvp<Text>>,
    pub origin_host: TypedAvp<Octets>,
    pub origin_realm: TypedAvp<Octets>,
    pub result_code: TypedAvp<u32>,
    pub failed_avp: Option<TypedAvp<Octets>>,
    pub rest: AvpList,
}

/// A message, by its command.
pub enum Command {
    Cer(CapabilitiesExchangeRequest),
    Cea(CapabilitiesExchangeAnswer),
    Dwr(DeviceWatchdogRequest),
    Dwa(DeviceWatchdogAnswer),
    Dpr(DisconnectPeerRequest),
    Dpa(DisconnectPeerAnswer),
    Rar(ReAuthRequest),
    Raa(ReAuthAnswer),
    Ccr(CreditControlRequest),
    Cca(CreditControlAnswer),
    ErrorAnswer(ErrorAnswer),
}

// What to do with a command, whichever it is.
macro_rules! whichever {
    ($command:expr, $c:ident => $done:expr) => {
        match $command {
            Command::Cer($c) => $done,
            Command::Cea($c) => $done,
            Command::Dwr($c) => $done,
            Command::Dwa($c) => $done,
            Command::Dpr($c) => $done,
            Command::Dpa($c) => $done,
            Command::Rar($c) => $done,
            Command::Raa($c) => $done,
            Command::Ccr($c) => $done,
            Command::Cca($c) => $done,
            Command::ErrorAnswer($c) => $done,
        }
    };
}

// A derived `drop` is proved anew at each way out of each function that holds a command; this one is a call.
impl Drop for Command {
    fn drop(self) {
        whichever!(self, c => drop(c))
    }
}

impl Command {
    /// Which command it is.
    pub fn kind(&self) -> CommandKind
        ensures { result ≡ kind_of self.now }
    {
        match self {
            Command::Cer(_) => CommandKind::CapabilitiesExchangeRequest,
            Command::Cea(_) => CommandKind::CapabilitiesExchangeAnswer,
            Command::Dwr(_) => CommandKind::DeviceWatchdogRequest,
            Command::Dwa(_) => CommandKind::DeviceWatchdogAnswer,
            Command::Dpr(_) => CommandKind::DisconnectPeerRequest,
            Command::Dpa(_) => CommandKind::DisconnectPeerAnswer,
            Command::Rar(_) => CommandKind::ReAuthRequest,
            Command::Raa(_) => CommandKind::ReAuthAnswer,
            Command::Ccr(_) => CommandKind::CreditControlRequest,
            Command::Cca(_) => CommandKind::CreditControlAnswer,
            Command::ErrorAnswer(_) => CommandKind::ErrorAnswer,
        }
    }

    /// The header, as it was read or is to be written.
    pub fn header(&self) -> &Header
        ensures { result.now ≡ header_of self.now }
    {
        whichever!(self, c => &c.header)
    }

    /// The AVPs that no field took, in order.
    pub fn rest(&self) -> &AvpList
        ensures { result.now ≡ rest_of self.now }
    {
        whichever!(self, c => &c.rest)
    }
}
