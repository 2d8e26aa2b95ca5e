//! The encoding of AVPs.

ghost use Rattle.std.specs.Prelude.{◌≡◌, ◌+◌, ◌<◌, ◌≤◌, ◌^◌, ◌↔◌, ◌++◌, length, replicate, All, OnOk, OnErr, IsErrOf};
ghost use Rattle.std.specs.Prelude.{IfSome, vec_len, vec_capacity};
ghost use Rattle.dia_avp.specs.View.{seen};
ghost use Rattle.dia_avp.specs.Encoding.{length_of, encoded, encoding, header, flags_of, has_vendor, vendor_id};
ghost use Rattle.dia_avp.specs.Encoding.{HasLong};
ghost use Rattle.dia_avp.specs.Writing.{HasNumbers, MeansAvp, MeansAvps, IsReadBack};

use crate::avp::{Avp, AvpView};
use crate::avp_list::AvpList;
use crate::fault::WriteError;
use crate::length::{encoded_len_of, has_long, is_long, length_of};
use base_codes::AVP_HEADER_LEN;
use byteorder::{BigEndian, ByteOrder};

#[inline(always)]
fn flags_of(vendor: Option<u32>, mandatory: bool, protected: bool) -> u8
    ensures { result ≡ flags_of (has_vendor vendor) mandatory protected }
{
    let vendor = match vendor {
        None | Some(0) => 0,
        Some(_) => 0x80,
    };
    let mandatory = if mandatory { 0x40 } else { 0 };
    let protected = if protected { 0x20 } else { 0 };
    vendor + mandatory + protected
}

#[inline(always)]
fn header_of(code: u32, flags: u8, len: u32) -> [u8; AVP_HEADER_LEN]
    requires { len < 2 ^ 24 }
    ensures octets { result ≡ header code flags len }
    ensures fits { code < 2 ^ 32 }
{
    let mut octets = [0; AVP_HEADER_LEN];
    BigEndian::write_u32(&mut octets, code);
    octets[4] = flags;
    BigEndian::write_u24(&mut octets[5..], len);
    octets
}

/// Appends octets for which there is room.
#[inline(always)]
fn put(out: &mut Vec<u8>, octets: &[u8])
    requires { vec_len out.old + length octets.now ≤ vec_capacity out.old }
    ensures items { out.new.items ≡ out.old.items ++ octets.now }
    ensures room { vec_capacity out.old ≤ vec_capacity out.new }
{
    out.extend_from_slice(octets).unwrap();
}

#[inline(always)]
fn put_vendor(out: &mut Vec<u8>, vendor: Option<u32>)
    requires { vec_len out.old + length (vendor_id vendor) ≤ vec_capacity out.old }
    ensures items { out.new.items ≡ out.old.items ++ vendor_id vendor }
    ensures room { vec_capacity out.old ≤ vec_capacity out.new }
    ensures fits { IfSome vendor (λ v. v < 2 ^ 32) }
{
    match vendor {
        None | Some(0) => {}
        Some(id) => {
            let mut octets = [0; 4];
            BigEndian::write_u32(&mut octets, id);
            put(out, &octets);
        }
    }
}

#[inline(always)]
fn put_padding(out: &mut Vec<u8>, count: usize)
    requires small { count ≤ 3 }
    requires room { vec_len out.old + count ≤ vec_capacity out.old }
    ensures items { out.new.items ≡ out.old.items ++ replicate count 0 }
    ensures room { vec_capacity out.old ≤ vec_capacity out.new }
{
    match count {
        0 => {}
        1 => put(out, &[0; 1]),
        2 => put(out, &[0; 2]),
        _ => put(out, &[0; 3]),
    }
}

/// Appends the canonical encoding of an AVP (RFC 6733 section 4.1) to octets that have room for it. Takes no memory.
#[tactic(auto, unfolding(crate::specs::Encoding::encoded))]
#[inline(always)]
pub fn put_avp(avp: &AvpView<'_>, out: &mut Vec<u8>)
    requires short { length_of (seen avp.now) < 2 ^ 24 }
    requires room { vec_len out.old + length (encoded (seen avp.now)) ≤ vec_capacity out.old }
    ensures items { out.new.items ≡ out.old.items ++ encoded (seen avp.now) }
    ensures len { vec_len out.new ≡ vec_len out.old + length (encoded (seen avp.now)) }
    ensures room { vec_capacity out.old ≤ vec_capacity out.new }
    ensures numbers { HasNumbers (seen avp.now) }
{
    let flags = flags_of(avp.vendor, avp.mandatory, avp.protected);
    let len = length_of(avp);
    put(out, &header_of(avp.code, flags, len as u32));
    put_vendor(out, avp.vendor);
    put(out, avp.octets);
    put_padding(out, len.div_ceil(4) * 4 - len);
}

/// Appends the canonical encoding of the AVPs, the last padding too, to octets that have room for it. Takes no memory.
pub fn put_avps(avps: &[Avp], out: &mut Vec<u8>)
    requires short { All (λ a. length_of a < 2 ^ 24) avps.now }
    requires room { vec_len out.old + length (encoding avps.now) ≤ vec_capacity out.old }
    ensures items { out.new.items ≡ out.old.items ++ encoding avps.now }
    ensures len { vec_len out.new ≡ vec_len out.old + length (encoding avps.now) }
    ensures room { vec_capacity out.old ≤ vec_capacity out.new }
    ensures numbers { All HasNumbers avps.now }
{
    for avp in avps {
        put_avp(&avp.view(), out);
    }
}

/// Appends the canonical encoding of an AVP (RFC 6733 section 4.1): reserved flags and padding are zero. `out` grows by
/// its own allocator.
pub fn write_avp(avp: &AvpView<'_>, out: &mut Vec<u8>) -> Result<(), WriteError>
    ensures ok { OnOk result (out.new.items ≡ out.old.items ++ encoded (seen avp.now)) }

    // An AVP too long for 24 bits is refused, whatever the memory.
    ensures too_long { IsErrOf result WriteError.LengthOver24Bits ↔ (2 ^ 24 ≤ length_of (seen avp.now)) }
    ensures err { OnErr result (out.new.items ≡ out.old.items) }

    // Memory is wanting only where there is no room for it, and the room stays.
    ensures memory { IsErrOf result WriteError.NoMemory
        → vec_capacity out.old < vec_len out.old + length (encoded (seen avp.now)) }
    ensures room { vec_capacity out.old ≤ vec_capacity out.new }

    // What was written means this AVP again, whatever comes after it.
    ensures means { OnOk result (MeansAvp (seen avp.now)) }
{
    if is_long(avp) {
        return Err(WriteError::LengthOver24Bits);
    }
    out.reserve(avp.encoded_len())?;
    put_avp(avp, out);
    Ok(())
}

/// Appends the canonical encoding of the AVPs (RFC 6733 section 4.1): reserved flags and padding are zero, and the last
/// padding is written too. `out` grows by its own allocator.
pub fn write_avps(list: &AvpList, out: &mut Vec<u8>) -> Result<(), WriteError>
    ensures ok { OnOk result (out.new.items ≡ out.old.items ++ encoding list.now) }

    // An AVP too long for 24 bits is refused, whatever the memory.
    ensures too_long { IsErrOf result WriteError.LengthOver24Bits ↔ HasLong list.now }
    ensures err { OnErr result (out.new.items ≡ out.old.items) }

    // Memory is wanting only where there is no room for them, and the room stays.
    ensures memory { IsErrOf result WriteError.NoMemory
        → vec_capacity out.old < vec_len out.old + length (encoding list.now) }
    ensures room { vec_capacity out.old ≤ vec_capacity out.new }

    // What was written means this list, and is read as this list again.
    ensures means { OnOk result (MeansAvps list.now) }
    ensures read_back { OnOk result (IsReadBack list.now) }
{
    let avps = list.as_slice();
    if has_long(avps) {
        return Err(WriteError::LengthOver24Bits);
    }
    let Some(len) = encoded_len_of(avps) else {
        return Err(WriteError::NoMemory);
    };
    out.reserve(len)?;
    put_avps(avps, out);
    Ok(())
}
