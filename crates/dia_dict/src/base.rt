//! The AVPs that every dictionary has, a line each, by AVP Code.

ghost use Rattle.std.specs.Prelude.{◌≡◌, map};
ghost use Rattle.dia_dict.specs.Base.{base, of_line};

use crate::definition::AvpKind;

/// AVP Code, name and type of an AVP without a vendor.
pub(crate) type Line = (u32, &'static str, AvpKind);

/// AVP Code, name and type of each AVP, none of a vendor (RFC 6733 section 4.5, RFC 8506 section 8). Failed-AVP and
/// Proxy-Info, which RFC 6733 makes Grouped, are kept as octets and not looked into.
const BASE: &[Line] = &[
    (1, "User-Name", AvpKind::Utf8String),
    (55, "Event-Timestamp", AvpKind::Time),
    (257, "Host-IP-Address", AvpKind::Address),
    (258, "Auth-Application-Id", AvpKind::Unsigned32),
    (259, "Acct-Application-Id", AvpKind::Unsigned32),
    (260, "Vendor-Specific-Application-Id", AvpKind::Grouped),
    (263, "Session-Id", AvpKind::Utf8String),
    (264, "Origin-Host", AvpKind::DiameterIdentity),
    (265, "Supported-Vendor-Id", AvpKind::Unsigned32),
    (266, "Vendor-Id", AvpKind::Unsigned32),
    (267, "Firmware-Revision", AvpKind::Unsigned32),
    (268, "Result-Code", AvpKind::Unsigned32),
    (269, "Product-Name", AvpKind::Utf8String),
    (273, "Disconnect-Cause", AvpKind::Enumerated),
    (278, "Origin-State-Id", AvpKind::Unsigned32),
    (279, "Failed-AVP", AvpKind::OctetString),
    (281, "Error-Message", AvpKind::Utf8String),
    (282, "Route-Record", AvpKind::DiameterIdentity),
    (283, "Destination-Realm", AvpKind::DiameterIdentity),
    (284, "Proxy-Info", AvpKind::OctetString),
    (285, "Re-Auth-Request-Type", AvpKind::Enumerated),
    (293, "Destination-Host", AvpKind::DiameterIdentity),
    (295, "Termination-Cause", AvpKind::Enumerated),
    (296, "Origin-Realm", AvpKind::DiameterIdentity),
    (299, "Inband-Security-Id", AvpKind::Unsigned32),
    (411, "CC-Correlation-Id", AvpKind::OctetString),
    (412, "CC-Input-Octets", AvpKind::Unsigned64),
    (414, "CC-Output-Octets", AvpKind::Unsigned64),
    (415, "CC-Request-Number", AvpKind::Unsigned32),
    (416, "CC-Request-Type", AvpKind::Enumerated),
    (417, "CC-Service-Specific-Units", AvpKind::Unsigned64),
    (418, "CC-Session-Failover", AvpKind::Enumerated),
    (419, "CC-Sub-Session-Id", AvpKind::Unsigned64),
    (420, "CC-Time", AvpKind::Unsigned32),
    (421, "CC-Total-Octets", AvpKind::Unsigned64),
    (422, "Check-Balance-Result", AvpKind::Enumerated),
    (427, "Credit-Control-Failure-Handling", AvpKind::Enumerated),
    (428, "Direct-Debiting-Failure-Handling", AvpKind::Enumerated),
    (430, "Final-Unit-Indication", AvpKind::Grouped),
    (431, "Granted-Service-Unit", AvpKind::Grouped),
    (432, "Rating-Group", AvpKind::Unsigned32),
    (436, "Requested-Action", AvpKind::Enumerated),
    (437, "Requested-Service-Unit", AvpKind::Grouped),
    (439, "Service-Identifier", AvpKind::Unsigned32),
    (443, "Subscription-Id", AvpKind::Grouped),
    (444, "Subscription-Id-Data", AvpKind::Utf8String),
    (446, "Used-Service-Unit", AvpKind::Grouped),
    (448, "Validity-Time", AvpKind::Unsigned32),
    (449, "Final-Unit-Action", AvpKind::Enumerated),
    (450, "Subscription-Id-Type", AvpKind::Enumerated),
    (455, "Multiple-Services-Indicator", AvpKind::Enumerated),
    (456, "Multiple-Services-Credit-Control", AvpKind::Grouped),
    (458, "User-Equipment-Info", AvpKind::Grouped),
    (459, "User-Equipment-Info-Type", AvpKind::Enumerated),
    (460, "User-Equipment-Info-Value", AvpKind::OctetString),
    (461, "Service-Context-Id", AvpKind::Utf8String),
];

/// The lines of all.
pub(crate) fn lines() -> &'static [Line]
    ensures { map of_line result.now ≡ base }
{
    BASE
}
