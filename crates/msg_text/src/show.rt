//! What is printed: messages, faults and frame faults, one line each for a message's header, its AVPs and its octets.
ghost use Rattle.std.specs.Prelude.{◌≡◌, ◌≤◌, ◌+◌, ◌*◌, ◌++◌, List, ℕ, OnOk, IfSome, length, codes};
ghost use Rattle.hex.specs.Hex.{encode_lower};
ghost use Rattle.base_text.specs.Contents.{content_text};
ghost use Rattle.dia_avp.specs.View.{seen};
ghost use Rattle.msg_text.specs.Lines.{letter, header_letters, header_line, vendor_text, avp_letters, printed_length};
ghost use Rattle.msg_text.specs.Lines.{avp_head, avp_line, AvpLines, MessageText, fault_line};
ghost use Rattle.msg_text.specs.Rooms.{Puts};

use crate::room::{DIGITS, put, put_hex, put_number};
use base_codes::{AVP_HEADER_LEN, AVP_VENDOR_HEADER_LEN, HEADER_LEN};
use base_text::put_content;
use dia_avp::{AvpView, first_avp};
use dia_msg::{Flags, Header};
use std::alloc::AllocError;

/// How long the line of a header is at most, with numbers of 20 digits.
const HEADER_LINE: usize = 137;

/// How much stands in front of an AVP's content at most, likewise.
const AVP_HEAD: usize = 68;

/// How many octets of content an AVP has whose line is made in one room.
const SHORT: usize = 64;

/// How long such a line is at most.
const AVP_LINE: usize = 198;

fn letter(set: bool, sign: u8) -> u8
    ensures { result ≡ letter set sign }
{
    if set { sign } else { b'-' }
}

fn header_letters(flags: Flags) -> [u8; 4]
    ensures { result ≡ header_letters flags }
{
    [
        letter(flags.request, b'R'),
        letter(flags.proxiable, b'P'),
        letter(flags.error, b'E'),
        letter(flags.retransmitted, b'T'),
    ]
}

// Puts the line of a header at the front of a room, and says where it ends.
fn put_header_line(room: &mut [u8], header: &Header) -> usize
    requires { HEADER_LINE ≤ length room.old }
    ensures puts { Puts room.old room.new 0 result (header_line header.now) }
    ensures end { result ≤ HEADER_LINE }
    ensures len { length room.new ≡ length room.old }
{
    let at = put(room, 0, b"message ");
    let at = put_number(room, at, u64::from(header.command));
    let at = put(room, at, b" ");
    let at = put(room, at, &header_letters(header.flags));
    let at = put(room, at, b" app ");
    let at = put_number(room, at, u64::from(header.application));
    let at = put(room, at, b" hop ");
    let at = put_number(room, at, u64::from(header.hop_by_hop));
    let at = put(room, at, b" end ");
    let at = put_number(room, at, u64::from(header.end_to_end));
    let at = put(room, at, b" length ");
    let at = put_number(room, at, u64::from(header.length));
    put(room, at, b"\n")
}

fn put_header(out: &mut Vec<u8>, header: &Header) -> Result<(), AllocError>
    ensures { OnOk result (out.new.items ≡ out.old.items ++ header_line header.now) }
{
    let mut room = [0; HEADER_LINE];
    let end = put_header_line(&mut room, header);
    out.extend_from_slice(&room[..end])
}

// Puts a vendor's number behind `/` at a place, where there is one, and says where it ends.
#[inline(always)]
fn put_vendor(room: &mut [u8], at: usize, vendor: Option<u32>) -> usize
    requires { at + 1 + DIGITS ≤ length room.old }
    ensures puts { Puts room.old room.new at result (vendor_text vendor) }
    ensures end { result ≤ at + 1 + DIGITS }
    ensures len { length room.new ≡ length room.old }
{
    match vendor {
        None => at,
        Some(vendor) => {
            let at = put(room, at, b"/");
            put_number(room, at, u64::from(vendor))
        }
    }
}

fn avp_letters(avp: &AvpView<'_>) -> [u8; 3]
    ensures { result ≡ avp_letters avp.now.vendor avp.now.mandatory avp.now.protected }
{
    [
        letter(avp.vendor.is_some(), b'V'),
        letter(avp.mandatory, b'M'),
        letter(avp.protected, b'P'),
    ]
}

fn printed_length(avp: &AvpView<'_>) -> u64
    ensures { result ≡ printed_length (seen avp.now) }
{
    let header = if avp.vendor.is_some() {
        AVP_VENDOR_HEADER_LEN
    } else {
        AVP_HEADER_LEN
    };
    header as u64 + avp.octets.len() as u64
}

// Puts what stands in front of an AVP's content at the front of a room, and says where it ends.
#[inline(always)]
fn put_avp_head(room: &mut [u8], avp: &AvpView<'_>) -> usize
    requires { AVP_HEAD ≤ length room.old }
    ensures puts { Puts room.old room.new 0 result (avp_head (seen avp.now)) }
    ensures end { result ≤ AVP_HEAD }
    ensures len { length room.new ≡ length room.old }
{
    let at = put(room, 0, b"  ");
    let at = put_number(room, at, u64::from(avp.code));
    let at = put_vendor(room, at, avp.vendor);
    let at = put(room, at, b" ");
    let at = put(room, at, &avp_letters(avp));
    let at = put(room, at, b" ");
    put_number(room, at, printed_length(avp))
}

// Puts octets in hexadecimal behind one blank at a place, and nothing where there are none, and says where they end.
#[inline(always)]
fn put_short_content(room: &mut [u8], at: usize, octets: &[u8]) -> usize
    requires { at + 1 + 2 * length octets.now ≤ length room.old }
    ensures puts { Puts room.old room.new at result (content_text octets.now) }
    ensures end { result ≤ at + 1 + 2 * length octets.now }
    ensures len { length room.new ≡ length room.old }
{
    if octets.is_empty() {
        return at;
    }
    let at = put(room, at, b" ");
    put_hex(room, at, octets)
}

fn put_short_avp(out: &mut Vec<u8>, avp: &AvpView<'_>) -> Result<(), AllocError>
    requires { length avp.now.octets.now ≤ SHORT }
    ensures { OnOk result (out.new.items ≡ out.old.items ++ avp_line (seen avp.now)) }
{
    let mut room = [0; AVP_LINE];
    let at = put_avp_head(&mut room, avp);
    let at = put_short_content(&mut room, at, avp.octets);
    let end = put(&mut room, at, b"\n");
    out.extend_from_slice(&room[..end])
}

fn put_long_avp(out: &mut Vec<u8>, avp: &AvpView<'_>) -> Result<(), AllocError>
    ensures { OnOk result (out.new.items ≡ out.old.items ++ avp_line (seen avp.now)) }
{
    let mut room = [0; AVP_HEAD];
    let end = put_avp_head(&mut room, avp);
    out.extend_from_slice(&room[..end])?;
    put_content(out, avp.octets)?;
    out.extend_from_slice(b"\n")
}

#[inline(always)]
fn put_avp(out: &mut Vec<u8>, avp: &AvpView<'_>) -> Result<(), AllocError>
    ensures { OnOk result (out.new.items ≡ out.old.items ++ avp_line (seen avp.now)) }
{
    if avp.octets.len() > SHORT {
        put_long_avp(out, avp)
    } else {
        put_short_avp(out, avp)
    }
}

fn put_avps(out: &mut Vec<u8>, octets: &[u8]) -> Result<(), AllocError>
    ensures { OnOk result ((lines : List ℕ) × AvpLines octets.now lines × (out.new.items ≡ out.old.items ++ lines)) }
{
    let mut rest = octets;
    'avps: while let Ok((avp, after)) = first_avp(rest) {
        put_avp(out, &avp)?;
        rest = after;
    }
    Ok(())
}

// How long the line of octets is, where a length holds it.
fn line_len(octets: &[u8]) -> Option<usize>
    ensures { IfSome result (λ len. len ≡ 8 + 2 * length octets.now) }
{
    octets.len().checked_mul(2)?.checked_add(8)
}

// Fills a room with the line of octets.
#[inline(always)]
fn fill_octets_line(room: &mut [u8], octets: &[u8])
    requires { length room.old ≡ 8 + 2 * length octets.now }
    ensures { room.new ≡ codes "octets " ++ encode_lower octets.now ++ codes "\n" }
{
    let at = put(room, 0, b"octets ");
    let at = put_hex(room, at, octets);
    put(room, at, b"\n");
}

fn put_octets_line(out: &mut Vec<u8>, octets: &[u8]) -> Result<(), AllocError>
    ensures { OnOk result (out.new.items ≡ out.old.items ++ codes "octets " ++ encode_lower octets.now ++ codes "\n") }
{
    let Some(len) = line_len(octets) else {
        return Err(AllocError);
    };
    out.reserve(len)?;
    let start = out.len();
    out.resize(start + len, 0).unwrap();
    fill_octets_line(&mut out.as_mut_slice()[start..], octets);
    Ok(())
}

/// Puts a message: its header, and its AVPs in the order of its encoding, which comes last.
pub fn put_message(out: &mut Vec<u8>, header: &Header, encoding: &[u8]) -> Result<(), AllocError>
    ensures { OnOk result ((lines : List ℕ) × MessageText header.now encoding.now lines
        × (out.new.items ≡ out.old.items ++ lines)) }
{
    put_header(out, header)?;
    put_avps(out, &encoding[HEADER_LEN.min(encoding.len())..])?;
    put_octets_line(out, encoding)
}

/// Puts a message's fault: its Result-Code, and the encoding of the failed AVP, empty where there is none.
pub fn put_fault(out: &mut Vec<u8>, number: u32, failed: &[u8]) -> Result<(), AllocError>
    ensures { OnOk result (out.new.items ≡ out.old.items ++ fault_line number failed.now) }
{
    base_text::put_number(out, b"fault ", u64::from(number))?;
    put_content(out, failed)?;
    out.extend_from_slice(b"\n")
}
