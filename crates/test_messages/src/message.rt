//! Each command from octets to octets, each fault of a message, and the answers that tell a fault.

use crate::octets::{is_written, message, message_of_many, octets_of, server};
use dia_avp::{Avp, Octets, write_avp};
use dia_dict::{AvpKind, Dictionary};
use dia_msg::{
    Command, CommandKind, CreditControlRequest, Flags, Header, Identity, MsgError, MsgFault,
    RequestType, ResultCode, error_answer, read_message,
};
use std::alloc::{AllocError, Global};
use std::test::Fail;

/// Whether octets are read as a command of this kind that is encoded so.
fn reads_as(
    alloc: Global,
    dictionary: &Dictionary,
    octets: &[u8],
    kind: CommandKind,
    encoding: &[u8],
) -> bool {
    match &read_message(alloc, dictionary, octets) {
        Ok(command) => command.kind() == kind && is_written(alloc, command, encoding),
        Err(_) => false,
    }
}

/// Whether a fault has this number and, encoded, this failed AVP.
fn is_fault(alloc: Global, fault: &MsgFault, number: u32, failed: &[u8]) -> bool {
    let mut out = Vec::new(alloc);
    let is_written = match &fault.failed {
        None => true,
        Some(avp) => write_avp(&avp.view(), &mut out).is_ok(),
    };
    is_written && fault.result.number() == number && out.as_slice() == failed
}

/// Whether octets have this fault; 0 where they have none.
fn fails_as(
    alloc: Global,
    dictionary: &Dictionary,
    octets: &[u8],
    number: u32,
    failed: &[u8],
) -> bool {
    match &read_message(alloc, dictionary, octets) {
        Ok(_) => number == 0 && failed.is_empty(),
        Err(MsgError::Fault(fault)) => is_fault(alloc, fault, number, failed),
        Err(MsgError::NoMemory) => false,
    }
}

/// Messages that are written as they are read, and their kinds.
const KEPT: &[(&str, CommandKind)] = &[
    (
        "80 cer host realm address address vendor-id product application application",
        CommandKind::CapabilitiesExchangeRequest,
    ),
    (
        "00 cer success host realm address vendor-id product",
        CommandKind::CapabilitiesExchangeAnswer,
    ),
    ("80 dwr host realm", CommandKind::DeviceWatchdogRequest),
    (
        "00 dwr success host realm",
        CommandKind::DeviceWatchdogAnswer,
    ),
    (
        "90 dpr host realm cause",
        CommandKind::DisconnectPeerRequest,
    ),
    (
        "00 dpr success host realm",
        CommandKind::DisconnectPeerAnswer,
    ),
    (
        "c0 rar session host realm destination-realm destination-host application re-auth-type",
        CommandKind::ReAuthRequest,
    ),
    (
        "40 rar session success host realm",
        CommandKind::ReAuthAnswer,
    ),
    (
        "c0 ccr credit event number subscription subscription action requested used used",
        CommandKind::CreditControlRequest,
    ),
    (
        "40 ccr session limit-reached host realm application initial number granted final-unit check",
        CommandKind::CreditControlAnswer,
    ),
    (
        "20 ccr session host realm success failed",
        CommandKind::ErrorAnswer,
    ),
    // Without flag E, since 4012 is no success and AVPs of the command are missing.
    ("00 ccr host realm limit-reached", CommandKind::ErrorAnswer),
    // The first counts.
    (
        "80 dwr second-host realm host",
        CommandKind::DeviceWatchdogRequest,
    ),
];

/// Watchdogs as they are read and as they are written: AVPs are taken in the order of the format;
/// reserved bits and padding are not kept.
const CHANGED: &[(&str, &str)] = &[
    (
        "80 dwr unknown realm host state second-host",
        "80 dwr host realm unknown state second-host",
    ),
    (
        "8f dwr loose-host realm loose-subscription",
        "80 dwr host realm subscription",
    ),
];

/// Whether a message is read as its kind and written as the other.
fn is_changed(
    alloc: Global,
    dictionary: &Dictionary,
    read: &str,
    written: &str,
    kind: CommandKind,
) -> Result<bool, Fail> {
    let octets = message(alloc, read)?;
    let wanted = message(alloc, written)?;
    Ok(reads_as(alloc, dictionary, &octets, kind, &wanted))
}

/// The first message that is read or written otherwise.
fn wrong_message(alloc: Global, dictionary: &Dictionary) -> Result<Option<&'static str>, Fail> {
    for (words, kind) in KEPT {
        if !is_changed(alloc, dictionary, words, words, *kind)? {
            return Ok(Some(words));
        }
    }
    for (read, written) in CHANGED {
        let kind = CommandKind::DeviceWatchdogRequest;
        if !is_changed(alloc, dictionary, read, written, kind)? {
            return Ok(Some(read));
        }
    }
    Ok(None)
}

#[test]
fn each_command_is_read_and_written_in_the_order_of_its_format(
    rt: HostRuntime,
) -> Result<(), Fail> {
    let dictionary = Dictionary::base(rt.alloc())?;
    let wrong = wrong_message(rt.alloc(), &dictionary)?;
    assert!(rt; wrong.is_none(), "{wrong:?}");
    Ok(())
}

fn has_header(header: &Header) -> bool {
    header.length == 172
        && header.flags.retransmitted
        && !header.flags.error
        && header.end_to_end == 7
}

fn has_fields(ccr: &CreditControlRequest) -> bool {
    ccr.session_id.value.as_str() == "c1;1"
        && ccr.origin_host.mandatory
        && !ccr.origin_host.protected
        && ccr.cc_request_type.value == RequestType::Initial
        && ccr.cc_request_number.value == 7
}

fn has_groups(ccr: &CreditControlRequest) -> bool {
    ccr.requested_action.is_some()
        && ccr.requested_service_unit.is_none()
        && ccr.used_service_unit.as_slice().is_empty()
        && ccr.subscription_id.as_slice().len() == 1
}

/// Whether a request has the values that its octets say.
fn has_values(command: &Command) -> bool {
    match command {
        Command::Ccr(ccr) => {
            has_header(&ccr.header)
                && has_fields(ccr)
                && has_groups(ccr)
                && command.rest().is_empty()
        }
        _ => false,
    }
}

/// Whether a message is read as a request with the values that it says.
fn reads_values(alloc: Global, dictionary: &Dictionary, words: &str) -> Result<bool, Fail> {
    let octets = message(alloc, words)?;
    Ok(match &read_message(alloc, dictionary, &octets) {
        Ok(command) => has_values(command),
        Err(_) => false,
    })
}

/// Whether AVP 9999 with flag M is read once it is added.
fn reads_added(alloc: Global, dictionary: &mut Dictionary) -> Result<bool, Fail> {
    dictionary.add(9999, None, "Test", AvpKind::Unsigned32)?;
    let words = "80 dwr host realm mandatory";
    is_changed(
        alloc,
        dictionary,
        words,
        words,
        CommandKind::DeviceWatchdogRequest,
    )
}

#[test]
fn fields_have_the_values_that_were_read(rt: HostRuntime) -> Result<(), Fail> {
    let mut dictionary = Dictionary::base(rt.alloc())?;
    let words = "d0 ccr credit initial number loose-subscription action";
    assert!(rt; reads_values(rt.alloc(), &dictionary, words)?);
    assert!(rt; reads_added(rt.alloc(), &mut dictionary)?);
    Ok(())
}

/// The place of an octet of a watchdog and its new value, and the number of its fault.
const HEADERS: &[(usize, u8, u32)] = &[
    (3, 0x3c, 5015),
    (2, 0x01, 5015),
    (0, 0x02, 5011),
    (0, 0x00, 5011),
    (7, 0x19, 3001),
    (5, 0x01, 3001),
    (7, 0x10, 3007),
    (11, 0x04, 3007),
];

/// Whether a watchdog has a fault without a failed AVP where one of its octets is another.
fn fails_changed(
    alloc: Global,
    dictionary: &Dictionary,
    (place, value, number): (usize, u8, u32),
) -> Result<bool, Fail> {
    let mut octets = message(alloc, "80 dwr host realm")?;
    if let Some(octet) = octets.get_mut(place) {
        *octet = value;
    }
    Ok(fails_as(alloc, dictionary, &octets, number, b""))
}

/// Whether each changed header has its fault.
fn headers_fail(alloc: Global, dictionary: &Dictionary) -> Result<bool, Fail> {
    for row in HEADERS {
        if !fails_changed(alloc, dictionary, *row)? {
            return Ok(false);
        }
    }
    Ok(true)
}

#[test]
fn a_fault_of_the_header_has_no_failed_avp(rt: HostRuntime) -> Result<(), Fail> {
    let dictionary = Dictionary::base(rt.alloc())?;
    assert!(rt; headers_fail(rt.alloc(), &dictionary)?);
    Ok(())
}

/// Messages, how many AVPs 9999 stand behind them, the number of the fault and its failed AVP; 0 where there is none.
const FAULTS: &[(&str, usize, u32, &str)] = &[
    ("80 dpr 00000116", 0, 5014, "no-state"),
    ("80 dpr 0000010840000007", 0, 5014, "no-host"),
    ("80 dpr host realm bad-cause", 0, 5014, "no-cause"),
    ("80 dpr mandatory bad-host", 0, 5001, "mandatory"),
    ("80 dpr host mandatory 00000108", 0, 5001, "mandatory"),
    ("80 dpr bad-host mandatory", 0, 5004, "bad-host"),
    ("80 dpr host type-0", 0, 5004, "type-0"),
    ("80 dpr realm host", 0, 5005, "no-cause"),
    ("80 dpr cause state", 0, 5005, "no-host"),
    ("80 dpr cause host", 0, 5005, "no-realm"),
    // None is missing before another fault is looked for.
    ("80 dpr cause bad-host", 0, 5004, "bad-host"),
    ("80 dpr host realm cause", 0, 0, ""),
    ("80 dpr host realm cause bad-host", 0, 5004, "bad-host"),
    // An EVENT request needs an action, and one that is known.
    ("c0 ccr credit event number", 0, 5005, "no-action"),
    ("c0 ccr credit event action-4 number", 0, 5004, "action-4"),
    ("c0 ccr credit event action number", 0, 0, ""),
    ("c0 ccr credit initial action-4 number", 0, 0, ""),
    ("c0 ccr credit initial event number", 0, 0, ""),
    // An answer of success needs all its AVPs.
    ("00 ccr host realm success", 0, 5005, "no-session"),
    // The 129th AVP and the fifth group are one too many.
    ("80 dwr", 129, 5012, ""),
    ("80 dwr", 128, 5005, "no-host"),
    ("80 dwr deep", 0, 5012, ""),
];

/// Whether a message with so many AVPs 9999 behind it has this fault.
fn is_refused(
    alloc: Global,
    dictionary: &Dictionary,
    (words, count, number, failed): (&str, usize, u32, &str),
) -> Result<bool, Fail> {
    let octets = message_of_many(alloc, words, count)?;
    let failed = octets_of(alloc, failed)?;
    Ok(fails_as(alloc, dictionary, &octets, number, &failed))
}

/// The first message that has another fault.
fn wrong_fault(alloc: Global, dictionary: &Dictionary) -> Result<Option<&'static str>, Fail> {
    for row in FAULTS {
        if !is_refused(alloc, dictionary, *row)? {
            return Ok(Some(row.0));
        }
    }
    Ok(None)
}

#[test]
fn a_fault_of_an_avp_names_the_failed_avp(rt: HostRuntime) -> Result<(), Fail> {
    let dictionary = Dictionary::base(rt.alloc())?;
    let wrong = wrong_fault(rt.alloc(), &dictionary)?;
    assert!(rt; wrong.is_none(), "{wrong:?}");
    Ok(())
}

/// A request with both identifiers 7.
fn request(command: u32, application: u32, proxiable: bool) -> Header {
    Header {
        length: 20,
        flags: Flags {
            request: true,
            proxiable,
            error: false,
            retransmitted: true,
        },
        command,
        application,
        hop_by_hop: 7,
        end_to_end: 7,
    }
}

/// Whether a request with this header, of this session, is answered so for its fault.
fn is_answered(
    alloc: Global,
    identity: &Identity,
    header: &Header,
    session: Option<&str>,
    fault: &MsgFault,
    octets: &[u8],
) -> bool {
    match &error_answer(alloc, identity, header, session, fault) {
        Ok(answer) => is_written(alloc, answer, octets),
        Err(_) => false,
    }
}

/// The fault of a message without Service-Context-Id.
fn missing(alloc: Global) -> MsgFault {
    MsgFault {
        result: ResultCode::MissingAvp,
        failed: Some(Avp {
            code: 461,
            vendor: None,
            mandatory: true,
            protected: false,
            octets: Octets::new(Vec::new(alloc)),
        }),
    }
}

/// Whether a Credit-Control-Request without Service-Context-Id is answered so.
fn missing_is_answered(alloc: Global, identity: &Identity, octets: &[u8]) -> bool {
    let asked = request(272, 4, true);
    is_answered(
        alloc,
        identity,
        &asked,
        Some("c1;1"),
        &missing(alloc),
        octets,
    )
}

/// Whether an unknown command is answered so.
fn unknown_is_answered(alloc: Global, identity: &Identity, proxiable: bool, octets: &[u8]) -> bool {
    let fault = MsgFault {
        result: ResultCode::CommandUnsupported,
        failed: None,
    };
    let asked = request(999, 9, proxiable);
    is_answered(alloc, identity, &asked, None, &fault, octets)
}

/// The answer to a Credit-Control-Request without Service-Context-Id.
const MISSING_CONTEXT: &str =
    "40 ccr session server 0000010c4000000c0000138d 0000011740000010000001cd40000008";

/// The answers to requests with Command Code 999: with flag E, and the flag P of the request.
const UNKNOWN_COMMANDS: &[(bool, &str)] = &[
    (
        false,
        "20 0003e7000000090000000700000007 server 0000010c4000000c00000bb9",
    ),
    (
        true,
        "60 0003e7000000090000000700000007 server 0000010c4000000c00000bb9",
    ),
];

/// Whether faulty requests are answered by their faults.
fn are_answered(alloc: Global, identity: &Identity) -> Result<bool, Fail> {
    for (proxiable, words) in UNKNOWN_COMMANDS {
        let wanted = message(alloc, words)?;
        if !unknown_is_answered(alloc, identity, *proxiable, &wanted) {
            return Ok(false);
        }
    }
    let wanted = message(alloc, MISSING_CONTEXT)?;
    Ok(missing_is_answered(alloc, identity, &wanted))
}

#[test]
fn a_faulty_request_is_answered_by_its_fault(rt: HostRuntime) -> Result<(), Fail> {
    let identity = server(rt.alloc())?;
    assert!(rt; are_answered(rt.alloc(), &identity)?);
    Ok(())
}

/// Whether a watchdog of so many AVPs and two is kept.
fn is_kept_of_many(alloc: Global, dictionary: &Dictionary, more: usize) -> Result<bool, Fail> {
    let octets = message_of_many(alloc, "80 dwr host realm", more)?;
    let kind = CommandKind::DeviceWatchdogRequest;
    Ok(reads_as(alloc, dictionary, &octets, kind, &octets))
}

/// Whether watchdogs of 23, 24, 25, 127 and 128 AVPs are kept.
fn are_kept_of_many(alloc: Global, dictionary: &Dictionary) -> Result<bool, Fail> {
    for count in [23usize, 24, 25, 127, 128] {
        if !is_kept_of_many(alloc, dictionary, count.saturating_sub(2))? {
            return Ok(false);
        }
    }
    Ok(true)
}

#[test]
fn a_message_of_many_avps_is_read(rt: HostRuntime) -> Result<(), Fail> {
    let dictionary = Dictionary::base(rt.alloc())?;
    assert!(rt; are_kept_of_many(rt.alloc(), &dictionary)?);
    Ok(())
}
