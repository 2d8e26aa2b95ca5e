//! AVPs put into room of zeros, one behind the other (RFC 6733 section 4.1): padding is there already.

ghost use Rattle.std.specs.Prelude.{◌≡◌, ◌+◌, ◌<◌, ◌≤◌, ◌^◌, ◌++◌, List, ℕ, length};
ghost use Rattle.dia_avp.specs.View.{seen};
ghost use Rattle.dia_avp.specs.Encoding.{length_of, encoded, encoding, header, flags_of};
ghost use Rattle.dia_avp.specs.Encoding.{has_vendor, vendor_id, group_avp};
ghost use Rattle.dia_write.specs.Filling.{IsFilled};

use base_codes::{AVP_HEADER_LEN, AVP_VENDOR_HEADER_LEN};
use byteorder::{BigEndian, ByteOrder};
use dia_avp::{Avp, AvpList, AvpView};

#[inline(always)]
fn flags_of(vendor: Option<u32>, mandatory: bool, protected: bool) -> u8
    ensures { result ≡ flags_of (has_vendor vendor) mandatory protected }
{
    let vendor = match vendor {
        None | Some(0) => 0,
        Some(_) => 0x80,
    };
    let mandatory = if mandatory { 0x40 } else { 0 };
    let protected = if protected { 0x20 } else { 0 };
    vendor + mandatory + protected
}

#[inline(always)]
fn header_of(code: u32, flags: u8, len: u32) -> [u8; AVP_HEADER_LEN]
    requires { len < 2 ^ 24 }
    ensures { result ≡ header code flags len }
{
    let mut octets = [0; AVP_HEADER_LEN];
    BigEndian::write_u32(&mut octets, code);
    octets[4] = flags;
    BigEndian::write_u24(&mut octets[5..], len);
    octets
}

/// Puts octets at a place.
#[inline(always)]
pub(crate) fn put(room: &mut [u8], at: usize, octets: &[u8])
    requires { at + length octets.now ≤ length room.old }
    ensures filled { (front : List ℕ) → IsFilled room.old front at
        → IsFilled room.new (front ++ octets.now) (at + length octets.now) }
    ensures len { length room.new ≡ length room.old }
{
    room[at..at + octets.len()].copy_from_slice(octets);
}

// Puts a Vendor-ID at a place, and says where it ends.
#[inline(always)]
fn put_vendor(room: &mut [u8], at: usize, vendor: Option<u32>) -> usize
    requires { at + length (vendor_id vendor) ≤ length room.old }
    ensures filled { (front : List ℕ) → IsFilled room.old front at
        → IsFilled room.new (front ++ vendor_id vendor) result }
    ensures end { result ≡ at + length (vendor_id vendor) }
    ensures len { length room.new ≡ length room.old }
{
    match vendor {
        None | Some(0) => at,
        Some(id) => {
            let mut octets = [0; 4];
            BigEndian::write_u32(&mut octets, id);
            put(room, at, &octets);
            at + 4
        }
    }
}

// The AVP Length: header, Vendor-ID and data.
#[inline(always)]
#[tactic(auto, unfolding(dia_avp::specs::Encoding::length_of))]
fn length_of(avp: &AvpView<'_>) -> usize
    ensures is { result ≡ length_of (seen avp.now) }
    ensures small { result < 2 ^ 63 + 16 }
{
    let header = match avp.vendor {
        None | Some(0) => AVP_HEADER_LEN,
        Some(_) => AVP_VENDOR_HEADER_LEN,
    };
    header + avp.octets.len()
}

/// Puts an AVP at a place, and says where it ends.
#[inline(always)]
pub(crate) fn put_avp(avp: &AvpView<'_>, room: &mut [u8], at: usize) -> usize
    requires short { length_of (seen avp.now) < 2 ^ 24 }
    requires fits { at + length (encoded (seen avp.now)) ≤ length room.old }
    ensures filled { (front : List ℕ) → IsFilled room.old front at
        → IsFilled room.new (front ++ encoded (seen avp.now)) result }
    ensures end { result ≡ at + length (encoded (seen avp.now)) }
    ensures len { length room.new ≡ length room.old }
{
    let flags = flags_of(avp.vendor, avp.mandatory, avp.protected);
    let len = length_of(avp);
    put(room, at, &header_of(avp.code, flags, len as u32));
    let to = put_vendor(room, at + AVP_HEADER_LEN, avp.vendor);
    put(room, to, avp.octets);
    at + len.div_ceil(4) * 4
}

/// Puts AVPs at a place, and says where they end.
pub(crate) fn put_avps(avps: &[Avp], room: &mut [u8], at: usize) -> usize
    requires short { length (encoding avps.now) < 2 ^ 24 }
    requires fits { at + length (encoding avps.now) ≤ length room.old }
    ensures filled { (front : List ℕ) → IsFilled room.old front at
        → IsFilled room.new (front ++ encoding avps.now) result }
    ensures end { result ≡ at + length (encoding avps.now) }
    ensures len { length room.new ≡ length room.old }
{
    let mut to = at;
    for avp in avps {
        to = put_avp(&avp.view(), room, to);
    }
    to
}

// The AVP Length of a group.
fn group_len(list: &AvpList) -> usize
    requires { 8 + length (encoding list.now) < 2 ^ 24 }
    ensures { result ≡ 8 + length (encoding list.now) }
{
    match list.encoded_len() {
        Some(len) => AVP_HEADER_LEN + len,
        None => unreachable!(),
    }
}

/// Puts the AVP without vendor whose data is AVPs (RFC 6733 section 4.4) at a place, and says where it ends:
/// the AVPs are put, and then the header in front of them, which has their length.
pub(crate) fn put_group(
    code: u32,
    mandatory: bool,
    protected: bool,
    list: &AvpList,
    room: &mut [u8],
    at: usize,
) -> usize
    requires short { length_of (group_avp code mandatory protected list.now) < 2 ^ 24 }
    requires fits { at + length (encoded (group_avp code mandatory protected list.now)) ≤ length room.old }
    ensures filled { (front : List ℕ) → IsFilled room.old front at
        → IsFilled room.new (front ++ encoded (group_avp code mandatory protected list.now)) result }
    ensures end { result ≡ at + length (encoded (group_avp code mandatory protected list.now)) }
    ensures len { length room.new ≡ length room.old }
{
    let len = group_len(list);
    let flags = flags_of(None, mandatory, protected);
    put(room, at, &header_of(code, flags, len as u32));
    put_avps(list.as_slice(), room, at + AVP_HEADER_LEN)
}
