//! The messages that the deeds of a peer send, as octets typed by hand.

use base_codes::DeedCode;
use base_list::Octets;
use dia_msg::{Command, Identity, write_message};
use peer_rules::{Names, peer_message};
use std::alloc::{AllocError, Global};
use std::test::Fail;
use tab_law::{Deed, PLACES};

const HOST: &[u8] = &[
    0, 0, 1, 0x08, 0x40, 0, 0, 17, b's', b'.', b'e', b'x', b'a', b'm', b'p', b'l', b'e', 0, 0, 0,
];

const REALM: &[u8] = &[
    0, 0, 1, 0x28, 0x40, 0, 0, 15, b'e', b'x', b'a', b'm', b'p', b'l', b'e', 0,
];

const ADDRESS: &[u8] = &[0, 0, 1, 0x01, 0x40, 0, 0, 14, 0, 1, 192, 0, 2, 1, 0, 0];

const VENDOR: &[u8] = &[0, 0, 1, 0x0a, 0x40, 0, 0, 12, 0, 0, 0, 0];

/// Product-Name, without flag M.
const PRODUCT: &[u8] = &[
    0, 0, 1, 0x0d, 0, 0, 0, 14, b'd', b'b', b'e', b'n', b'c', b'h', 0, 0,
];

const APPLICATION: &[u8] = &[0, 0, 1, 0x02, 0x40, 0, 0, 12, 0, 0, 0, 4];

const SUCCESS: &[u8] = &[0, 0, 1, 0x0c, 0x40, 0, 0, 12, 0, 0, 0x07, 0xd1];

const CAUSE: &[u8] = &[0, 0, 1, 0x11, 0x40, 0, 0, 12, 0, 0, 0, 0];

/// Machine 74,565 and count 65,538: both identifiers are 23450002 in hexadecimal.
const REQUEST: [u64; 5] = [0, 5, 0x1_2345, 0x1_0002, 0];

/// Identifiers 7 and 8 and Result-Code 2001, each 2^32 times a number more.
const ANSWER: [u64; 5] = [0, 5, 0x1_0000_0007, 0x2_0000_0008, 0x3_0000_07d1];

/// A deed, its first five arguments, and the header and the AVPs of its message.
type Sample = (DeedCode, [u64; 5], [u8; 20], &'static [&'static [u8]]);

const SAMPLES: &[Sample] = &[
    (
        DeedCode::SndCer,
        REQUEST,
        [
            1, 0, 0, 112, 0x80, 0, 1, 1, 0, 0, 0, 0, 0x23, 0x45, 0, 2, 0x23, 0x45, 0, 2,
        ],
        &[HOST, REALM, ADDRESS, VENDOR, PRODUCT, APPLICATION],
    ),
    (
        DeedCode::SndCea,
        ANSWER,
        [1, 0, 0, 124, 0, 0, 1, 1, 0, 0, 0, 0, 0, 0, 0, 7, 0, 0, 0, 8],
        &[SUCCESS, HOST, REALM, ADDRESS, VENDOR, PRODUCT, APPLICATION],
    ),
    (
        DeedCode::SndDwa,
        ANSWER,
        [
            1, 0, 0, 68, 0, 0, 1, 0x18, 0, 0, 0, 0, 0, 0, 0, 7, 0, 0, 0, 8,
        ],
        &[SUCCESS, HOST, REALM],
    ),
    (
        DeedCode::SndDpr,
        REQUEST,
        [
            1, 0, 0, 68, 0x80, 0, 1, 0x1a, 0, 0, 0, 0, 0x23, 0x45, 0, 2, 0x23, 0x45, 0, 2,
        ],
        &[HOST, REALM, CAUSE],
    ),
    (
        DeedCode::SndDpa,
        ANSWER,
        [
            1, 0, 0, 68, 0, 0, 1, 0x1a, 0, 0, 0, 0, 0, 0, 0, 7, 0, 0, 0, 8,
        ],
        &[SUCCESS, HOST, REALM],
    ),
];

fn identity(alloc: Global) -> Result<Identity, AllocError> {
    Ok(Identity {
        host: Octets::from_slice(alloc, b"s.example")?,
        realm: Octets::from_slice(alloc, b"example")?,
        address: [192, 0, 2, 1],
    })
}

/// A deed with these first arguments, and ones behind them.
fn deed(code: u16, first: [u64; 5]) -> Deed {
    let mut a = [1; PLACES];
    for i in 0..5 {
        a[i] = first[i];
    }
    Deed { code, a }
}

/// The message of a deed of this node.
fn message(alloc: Global, code: u16, first: [u64; 5]) -> Result<Option<Command>, Fail> {
    let identity = identity(alloc)?;
    let names = Names {
        identity: &identity,
        session: b"c1;1",
    };
    Ok(peer_message(alloc, &deed(code, first), &names)?)
}

/// Whether a message is encoded as a header and AVPs.
fn is_encoded(
    alloc: Global,
    command: &Command,
    header: &[u8],
    avps: &[&[u8]],
) -> Result<bool, Fail> {
    let mut wanted = Vec::from_slice(alloc, header)?;
    for avp in avps {
        wanted.extend_from_slice(avp)?;
    }
    let mut out = Vec::new(alloc);
    Ok(write_message(command, &mut out).is_ok() && out.as_slice() == wanted.as_slice())
}

fn is_as_told(alloc: Global, sample: &Sample) -> Result<bool, Fail> {
    let (code, first, header, avps) = *sample;
    match &message(alloc, code.number(), first)? {
        Some(command) => is_encoded(alloc, command, &header, avps),
        None => Ok(false),
    }
}

#[test]
fn deeds_send_the_messages_of_the_base_protocol(rt: HostRuntime) -> Result<(), Fail> {
    for (place, sample) in SAMPLES.iter().enumerate() {
        assert!(rt; is_as_told(rt.alloc(), sample)?, "{place}");
    }
    Ok(())
}

#[test]
fn other_deeds_send_none(rt: HostRuntime) -> Result<(), Fail> {
    for code in [0, 1, 5, 9, 15, 16, 30, 65535] {
        assert!(rt; message(rt.alloc(), code, REQUEST)?.is_none(), "{code}");
    }
    Ok(())
}
