//! A Credit-Control-Request of 188 octets and what becomes of it, from octets to octets.

use crate::octets::{is_kept, message, octets_of, server};
use dia_dict::{AvpKind, Dictionary};
use dia_msg::{
    Flags, Header, Identity, MsgError, MsgFault, error_answer, read_message, write_message,
};
use std::alloc::Global;
use std::test::Fail;

/// The header of the request.
fn asked() -> Header {
    Header {
        length: 188,
        flags: Flags {
            request: true,
            proxiable: true,
            error: false,
            retransmitted: false,
        },
        command: 272,
        application: 4,
        hop_by_hop: 7,
        end_to_end: 7,
    }
}

/// Whether the answer to a fault ends so, and is so long.
fn answer_ends(
    alloc: Global,
    identity: &Identity,
    fault: &MsgFault,
    number: u32,
    end: &[u8],
) -> bool {
    let mut out = Vec::new(alloc);
    let is_written = match &error_answer(alloc, identity, &asked(), Some("c1;1"), fault) {
        Ok(answer) => write_message(answer, &mut out).is_ok(),
        Err(_) => false,
    };
    is_written && fault.result.number() == number && out.as_slice().ends_with(end)
}

/// Whether octets have a fault of this number, and the answer to it ends so.
fn is_answered(
    alloc: Global,
    dictionary: &Dictionary,
    octets: &[u8],
    number: u32,
    end: &[u8],
) -> Result<bool, Fail> {
    let identity = server(alloc)?;
    Ok(match &read_message(alloc, dictionary, octets) {
        Err(MsgError::Fault(fault)) => answer_ends(alloc, &identity, fault, number, end),
        _ => false,
    })
}

/// The request of session c1;1 from c.example for 60 octets, INITIAL_REQUEST, number 0,
/// and with AVP 9999 without flag M.
const WORKED: &[(&str, u8)] = &[
    (
        "c0 ccr names context initial number-0 subscription requested",
        188,
    ),
    (
        "c0 ccr names context initial number-0 subscription requested unknown",
        200,
    ),
];

/// Whether a message has so many octets, and is read and written as it stands.
fn stands(alloc: Global, dictionary: &Dictionary, words: &str, len: u8) -> Result<bool, Fail> {
    let octets = message(alloc, words)?;
    Ok(octets.get(3) == Some(&len) && is_kept(alloc, dictionary, &octets))
}

/// What is wrong with the request: AVP 9999 with flag M, no Service-Context-Id, and an AVP that runs past its group;
/// the number of the fault, and the end of the answer, which is whole of the second.
const FAULTY: &[(&str, u32, &str)] = &[
    (
        "c0 ccr names context initial number-0 subscription requested mandatory",
        5001,
        "failed-unknown",
    ),
    (
        "c0 ccr names initial number-0 subscription requested",
        5005,
        "01000060 40 ccr session server 0000010c4000000c0000138d 0000011740000010000001cd40000008",
    ),
    (
        "c0 ccr names context initial number-0 subscription requested long-used",
        5014,
        "failed-total",
    ),
];

/// Whether a message is answered by its fault.
fn fails(
    alloc: Global,
    dictionary: &Dictionary,
    (words, number, end): (&str, u32, &str),
) -> Result<bool, Fail> {
    let octets = message(alloc, words)?;
    let end = octets_of(alloc, end)?;
    is_answered(alloc, dictionary, &octets, number, &end)
}

/// The first message that goes wrong.
fn wrong_message(alloc: Global, dictionary: &Dictionary) -> Result<Option<&'static str>, Fail> {
    for (words, len) in WORKED {
        if !stands(alloc, dictionary, words, *len)? {
            return Ok(Some(words));
        }
    }
    for row in FAULTY {
        if !fails(alloc, dictionary, *row)? {
            return Ok(Some(row.0));
        }
    }
    Ok(None)
}

#[test]
fn the_request_is_read_and_written_as_it_stands_or_answered(rt: HostRuntime) -> Result<(), Fail> {
    let dictionary = Dictionary::base(rt.alloc())?;
    let wrong = wrong_message(rt.alloc(), &dictionary)?;
    assert!(rt; wrong.is_none(), "{wrong:?}");
    Ok(())
}

/// Whether the request with AVP 9999 with flag M is kept once that is added.
fn is_kept_added(alloc: Global, dictionary: &mut Dictionary) -> Result<bool, Fail> {
    dictionary.add(9999, None, "Test", AvpKind::Unsigned32)?;
    let words = "c0 ccr names context initial number-0 subscription requested mandatory";
    stands(alloc, dictionary, words, 200)
}

#[test]
fn an_avp_with_flag_m_is_read_once_it_is_added(rt: HostRuntime) -> Result<(), Fail> {
    let mut dictionary = Dictionary::base(rt.alloc())?;
    assert!(rt; is_kept_added(rt.alloc(), &mut dictionary)?);
    Ok(())
}
