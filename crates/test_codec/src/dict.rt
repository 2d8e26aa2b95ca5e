//! The dictionary: what it has, what may be added, and the value of data by its type.

use crate::avp::empty_avps;
use base_list::{AddError, AddFault};
use dia_avp::{Address, AvpView, AvpsIn};
use dia_dict::{AvpKind, Definition, DictFault, Dictionary, Field};
use std::alloc::Global;
use std::test::Fail;

/// AVP Code, name and type, type by type.
const KNOWN: &[(u32, &str, AvpKind)] = &[
    (258, "Auth-Application-Id", AvpKind::Unsigned32),
    (259, "Acct-Application-Id", AvpKind::Unsigned32),
    (265, "Supported-Vendor-Id", AvpKind::Unsigned32),
    (266, "Vendor-Id", AvpKind::Unsigned32),
    (267, "Firmware-Revision", AvpKind::Unsigned32),
    (268, "Result-Code", AvpKind::Unsigned32),
    (278, "Origin-State-Id", AvpKind::Unsigned32),
    (299, "Inband-Security-Id", AvpKind::Unsigned32),
    (415, "CC-Request-Number", AvpKind::Unsigned32),
    (420, "CC-Time", AvpKind::Unsigned32),
    (432, "Rating-Group", AvpKind::Unsigned32),
    (439, "Service-Identifier", AvpKind::Unsigned32),
    (448, "Validity-Time", AvpKind::Unsigned32),
    (412, "CC-Input-Octets", AvpKind::Unsigned64),
    (414, "CC-Output-Octets", AvpKind::Unsigned64),
    (417, "CC-Service-Specific-Units", AvpKind::Unsigned64),
    (419, "CC-Sub-Session-Id", AvpKind::Unsigned64),
    (421, "CC-Total-Octets", AvpKind::Unsigned64),
    (273, "Disconnect-Cause", AvpKind::Enumerated),
    (285, "Re-Auth-Request-Type", AvpKind::Enumerated),
    (295, "Termination-Cause", AvpKind::Enumerated),
    (416, "CC-Request-Type", AvpKind::Enumerated),
    (418, "CC-Session-Failover", AvpKind::Enumerated),
    (422, "Check-Balance-Result", AvpKind::Enumerated),
    (427, "Credit-Control-Failure-Handling", AvpKind::Enumerated),
    (428, "Direct-Debiting-Failure-Handling", AvpKind::Enumerated),
    (436, "Requested-Action", AvpKind::Enumerated),
    (449, "Final-Unit-Action", AvpKind::Enumerated),
    (450, "Subscription-Id-Type", AvpKind::Enumerated),
    (455, "Multiple-Services-Indicator", AvpKind::Enumerated),
    (459, "User-Equipment-Info-Type", AvpKind::Enumerated),
    (1, "User-Name", AvpKind::Utf8String),
    (263, "Session-Id", AvpKind::Utf8String),
    (269, "Product-Name", AvpKind::Utf8String),
    (281, "Error-Message", AvpKind::Utf8String),
    (444, "Subscription-Id-Data", AvpKind::Utf8String),
    (461, "Service-Context-Id", AvpKind::Utf8String),
    (264, "Origin-Host", AvpKind::DiameterIdentity),
    (282, "Route-Record", AvpKind::DiameterIdentity),
    (283, "Destination-Realm", AvpKind::DiameterIdentity),
    (293, "Destination-Host", AvpKind::DiameterIdentity),
    (296, "Origin-Realm", AvpKind::DiameterIdentity),
    (257, "Host-IP-Address", AvpKind::Address),
    (260, "Vendor-Specific-Application-Id", AvpKind::Grouped),
    (430, "Final-Unit-Indication", AvpKind::Grouped),
    (431, "Granted-Service-Unit", AvpKind::Grouped),
    (437, "Requested-Service-Unit", AvpKind::Grouped),
    (443, "Subscription-Id", AvpKind::Grouped),
    (446, "Used-Service-Unit", AvpKind::Grouped),
    (456, "Multiple-Services-Credit-Control", AvpKind::Grouped),
    (458, "User-Equipment-Info", AvpKind::Grouped),
    (55, "Event-Timestamp", AvpKind::Time),
    (411, "CC-Correlation-Id", AvpKind::OctetString),
    (460, "User-Equipment-Info-Value", AvpKind::OctetString),
    (279, "Failed-AVP", AvpKind::OctetString),
    (284, "Proxy-Info", AvpKind::OctetString),
];

/// Whether a definition is there and has this type.
fn is_of(found: Option<&Definition>, kind: AvpKind) -> bool {
    match found {
        None => false,
        Some(definition) => definition.kind == kind,
    }
}

/// Whether a definition is there, of this code and vendor, with this name.
fn is_named(found: Option<&Definition>, code: u32, vendor: Option<u32>, name: &str) -> bool {
    match found {
        None => false,
        Some(definition) => {
            definition.code == code
                && definition.vendor == vendor
                && definition.name.as_slice() == name.as_bytes()
        }
    }
}

/// Whether an AVP is found by its code, without a vendor or with 0, and by its name.
fn is_known(dictionary: &Dictionary, code: u32, name: &str, kind: AvpKind) -> bool {
    is_of(dictionary.find(code, None), kind)
        && is_named(dictionary.find(code, None), code, None, name)
        && is_of(dictionary.find(code, Some(0)), kind)
        && is_named(dictionary.by_name(name), code, None, name)
        && dictionary.find(code, Some(10_415)).is_none()
}

/// The first AVP of the table that isn't found.
fn unknown(dictionary: &Dictionary) -> Option<&'static str> {
    for (code, name, kind) in KNOWN {
        if !is_known(dictionary, *code, name, *kind) {
            return Some(name);
        }
    }
    None
}

#[test]
fn each_avp_of_the_base_is_found_by_code_and_by_name(rt: HostRuntime) -> Result<(), Fail> {
    let dictionary = Dictionary::base(rt.alloc())?;
    assert!(rt; unknown(&dictionary) == None);
    assert!(rt; dictionary.find(457, None).is_none());
    assert!(rt; dictionary.by_name("origin-host").is_none());
    Ok(())
}

/// Whether both were added, and are found and go last: 9999 without a vendor and of vendor 10415.
fn adds_both(dictionary: &mut Dictionary) -> bool {
    dictionary
        .add(9999, None, "Test", AvpKind::Unsigned32)
        .is_ok()
        && dictionary
            .add(9999, Some(10_415), "Vendor-Test", AvpKind::OctetString)
            .is_ok()
        && is_named(dictionary.at(56), 9999, None, "Test")
        && is_named(
            dictionary.by_name("Vendor-Test"),
            9999,
            Some(10_415),
            "Vendor-Test",
        )
        && is_of(dictionary.find(9999, None), AvpKind::Unsigned32)
        && is_of(dictionary.find(9999, Some(10_415)), AvpKind::OctetString)
        && dictionary.find(9999, Some(1)).is_none()
        && dictionary.typed(&view(9999, true, &[0, 0, 0, 1])) == Ok(Field::Number(1))
}

/// Code, vendor and name, one of which is taken where 278 of vendor 10415, `Vendor-State`, is behind the base.
const TAKEN: &[(u32, Option<u32>, &str)] = &[
    (278, None, "Another"),
    (278, Some(0), "Another"),
    (278, Some(10_415), "Another"),
    (9999, None, "Session-Id"),
    (9999, Some(10_415), "Vendor-State"),
];

/// Whether what is taken is refused, and the dictionary stays.
fn refuses_what_is_taken(dictionary: &mut Dictionary) -> bool {
    for (code, vendor, name) in TAKEN {
        let refused = dictionary.add(*code, *vendor, name, AvpKind::Time);
        if refused != Err(AddError::Fault(AddFault::Taken)) {
            return false;
        }
    }
    dictionary.at(57).is_none()
        && dictionary.by_name("Another").is_none()
        && dictionary.find(9999, None).is_none()
        && is_of(dictionary.find(278, None), AvpKind::Unsigned32)
}

#[test]
fn a_definition_is_added_last_where_code_and_name_are_free(rt: HostRuntime) -> Result<(), Fail> {
    let mut dictionary = Dictionary::base(rt.alloc())?;
    assert!(rt; adds_both(&mut dictionary));
    let mut dictionary = Dictionary::base(rt.alloc())?;
    dictionary.add(278, Some(10_415), "Vendor-State", AvpKind::Time)?;
    assert!(rt; refuses_what_is_taken(&mut dictionary));
    Ok(())
}

/// Adds a definition that is named after its code.
fn adds_named(alloc: Global, dictionary: &mut Dictionary, code: u32) -> bool {
    match &format!(in alloc; "Test-{code}") {
        Ok(name) => {
            dictionary
                .add(code, None, name.as_str(), AvpKind::Grouped)
                .is_ok()
        }
        Err(_) => false,
    }
}

/// Adds 1000 to 1199.
fn adds_200(alloc: Global, dictionary: &mut Dictionary) -> bool {
    let mut all = true;
    for code in 1000..1200u32 {
        all = all && adds_named(alloc, dictionary, code);
    }
    all
}

/// Whether a dictionary has 256 definitions, 1199 the last, and takes no more.
fn is_full(dictionary: &mut Dictionary) -> bool {
    let full = dictionary.add(1201, None, "Test-1201", AvpKind::Grouped);
    let taken = dictionary.add(1199, None, "Test-1201", AvpKind::Grouped);
    full == Err(AddError::Fault(AddFault::Full))
        && taken == Err(AddError::Fault(AddFault::Taken))
        && is_named(dictionary.at(255), 1199, None, "Test-1199")
        && dictionary.at(256).is_none()
        && dictionary.find(1201, None).is_none()
        && is_of(dictionary.find(1, None), AvpKind::Utf8String)
        && is_of(dictionary.find(1025, None), AvpKind::Grouped)
}

#[test]
fn a_dictionary_has_256_definitions_at_most(rt: HostRuntime) -> Result<(), Fail> {
    let mut dictionary = Dictionary::base(rt.alloc())?;
    assert!(rt; adds_200(rt.alloc(), &mut dictionary) && is_full(&mut dictionary));
    Ok(())
}

#[test]
fn refusals_have_their_numbers(rt: HostRuntime) {
    assert!(rt; AddError::Fault(AddFault::Taken).number() == 1);
    assert!(rt; AddError::Fault(AddFault::Full).number() == 2);
    assert!(rt; AddError::NoMemory.number() == 3);
}

fn view(code: u32, mandatory: bool, octets: &[u8]) -> AvpView<'_> {
    AvpView {
        code,
        vendor: None,
        mandatory,
        protected: false,
        octets,
    }
}

/// A Subscription-Id-Type of 0.
const TYPE_0: [u8; 12] = [0, 0, 1, 0xc2, 0x40, 0, 0, 12, 0, 0, 0, 0];

/// AVP Code, flag M, data and their value or fault.
const VALUES: &[(u32, bool, &[u8], Result<Field<'static>, DictFault>)] = &[
    // CC-Request-Number, CC-Request-Type, Event-Timestamp, CC-Total-Octets.
    (415, true, &[0, 1, 0, 2], Ok(Field::Number(65_538))),
    (416, true, &[0, 1, 0, 2], Ok(Field::Number(65_538))),
    (55, true, &[0, 1, 0, 2], Ok(Field::Number(65_538))),
    (
        421,
        true,
        &[0, 0, 0, 1, 0, 0, 0, 0],
        Ok(Field::Number64(4_294_967_296)),
    ),
    // Session-Id, Origin-Host.
    (263, true, b"c1;\xc3\xa9", Ok(Field::Text("c1;\u{e9}"))),
    (264, true, b"a.example", Ok(Field::Identity(b"a.example"))),
    // Host-IP-Address: 10.0.0.1, and family 8, E.164.
    (
        257,
        true,
        &[0, 1, 10, 0, 0, 1],
        Ok(Field::Address(Address::V4([10, 0, 0, 1]))),
    ),
    (
        257,
        true,
        &[0, 8, 0x34],
        Ok(Field::Address(Address::Other {
            family: 8,
            octets: &[0x34],
        })),
    ),
    // Subscription-Id, Failed-AVP with octets that are no AVP.
    (
        443,
        true,
        &TYPE_0,
        Ok(Field::Group(AvpsIn { octets: &TYPE_0 })),
    ),
    (279, true, &[0xff], Ok(Field::Octets(&[0xff]))),
    // Data that the type does not have, and AVPs that the dictionary does not have.
    (415, true, b"123", Err(DictFault::BadLength)),
    (421, true, b"1234", Err(DictFault::BadLength)),
    (263, true, &[0x63, 0xc3], Err(DictFault::BadValue)),
    (264, true, &[0x61, 0x80], Err(DictFault::BadValue)),
    (257, true, &[0, 1, 10, 0, 0], Err(DictFault::BadLength)),
    (257, true, &[0, 2, 10, 0, 0, 1], Err(DictFault::BadLength)),
    (443, true, &[0, 0, 1, 0xc2], Err(DictFault::BadLength)),
    (9999, false, b"", Err(DictFault::Unknown)),
    (9999, true, b"", Err(DictFault::UnknownMandatory)),
];

/// The place of the first line of the table that isn't so.
fn wrong_value(dictionary: &Dictionary) -> Option<usize> {
    for (place, (code, mandatory, octets, value)) in VALUES.iter().enumerate() {
        if dictionary.typed(&view(*code, *mandatory, octets)) != *value {
            return Some(place);
        }
    }
    None
}

/// Whether a group that is broken behind 128 AVPs is one with too many.
fn is_broken_behind_128(alloc: Global, dictionary: &Dictionary) -> bool {
    match &empty_avps(alloc, 128, 1) {
        Ok(many) => dictionary.typed(&view(443, true, many)) == Err(DictFault::BadValue),
        Err(_) => false,
    }
}

#[test]
fn data_have_the_value_or_the_fault_of_their_type(rt: HostRuntime) -> Result<(), Fail> {
    let dictionary = Dictionary::base(rt.alloc())?;
    let value = wrong_value(&dictionary);
    assert!(rt; value.is_none(), "{value:?}");
    assert!(rt; is_broken_behind_128(rt.alloc(), &dictionary), "128 AVPs");
    Ok(())
}
