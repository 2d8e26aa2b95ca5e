//! The header of a message (RFC 6733 section 3).

ghost use Rattle.std.specs.Prelude.{◌≡◌, ◌≤◌, ◌<◌, ◌^◌, length};
ghost use Rattle.dia_command.specs.Header.{header_in, flags_in, flags_octet, header_octets};

use base_codes::{HEADER_LEN, VERSION};
use byteorder::{BigEndian, ByteOrder};

const REQUEST: u8 = 0x80;

const PROXIABLE: u8 = 0x40;

const ERROR: u8 = 0x20;

const RETRANSMITTED: u8 = 0x10;

/// The Command Flags R, P, E and T. The four reserved bits are ignored on reading and zero on writing.
#[derive(Clone, Copy)]
pub struct Flags {
    pub request: bool,
    pub proxiable: bool,
    pub error: bool,
    pub retransmitted: bool,
}

/// A message's header. `length` is the Message Length as it was read, in octets with padding; writing computes its own.
/// `command` has 24 bits, of a greater number the lowest are written. `application` is the Application-Id; `hop_by_hop`
/// and `end_to_end` are the identifiers.
#[derive(Clone, Copy)]
pub struct Header {
    pub length: u32,
    pub flags: Flags,
    pub command: u32,
    pub application: u32,
    pub hop_by_hop: u32,
    pub end_to_end: u32,
}

fn flags_of(octet: u8) -> Flags
    ensures { result ≡ flags_in octet }
{
    Flags {
        request: octet & REQUEST != 0,
        proxiable: octet & PROXIABLE != 0,
        error: octet & ERROR != 0,
        retransmitted: octet & RETRANSMITTED != 0,
    }
}

fn octet_of(flags: Flags) -> u8
    ensures { result ≡ flags_octet flags }
{
    let request = if flags.request { REQUEST } else { 0 };
    let proxiable = if flags.proxiable { PROXIABLE } else { 0 };
    let error = if flags.error { ERROR } else { 0 };
    let retransmitted = if flags.retransmitted {
        RETRANSMITTED
    } else {
        0
    };
    request + proxiable + error + retransmitted
}

/// The header at the front of octets.
pub fn header_of(octets: &[u8]) -> Header
    requires { 20 ≤ length octets.now }
    ensures { result ≡ header_in octets.now }
{
    Header {
        length: BigEndian::read_u24(&octets[1..]),
        flags: flags_of(octets[4]),
        command: BigEndian::read_u24(&octets[5..]),
        application: BigEndian::read_u32(&octets[8..]),
        hop_by_hop: BigEndian::read_u32(&octets[12..]),
        end_to_end: BigEndian::read_u32(&octets[16..]),
    }
}

impl Header {
    /// Its octets in front of a message of `len` octets, header and all AVPs with their padding.
    pub fn octets(&self, len: u32) -> [u8; HEADER_LEN]
        requires { len < 2 ^ 24 }
        ensures { result ≡ header_octets self.now len }
    {
        let mut octets = [0; 20];
        octets[0] = VERSION;
        BigEndian::write_u24(&mut octets[1..], len);
        octets[4] = octet_of(self.flags);
        BigEndian::write_u24(&mut octets[5..], self.command & 0xff_ffff);
        BigEndian::write_u32(&mut octets[8..], self.application);
        BigEndian::write_u32(&mut octets[12..], self.hop_by_hop);
        BigEndian::write_u32(&mut octets[16..], self.end_to_end);
        octets
    }
}
