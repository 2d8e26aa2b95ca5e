//! AVPs: what is read, what is written, and the data of one as a value.

use dia_avp::{
    Address, Avp, AvpList, AvpView, AvpsIn, FieldFault, GroupError, Octets, ReadError, WriteError,
    address_of, first_avp, group_of, identity_of, put_avp, put_avps, read_avps, text_of, u32_of,
    u64_of, write_avp, write_avps,
};
use std::alloc::{AllocError, Global};
use std::test::Fail;

/// Origin-Host and Origin-Realm of a Device-Watchdog-Request.
const TWO: [u8; 36] = [
    0, 0, 1, 8, 0x40, 0, 0, 0x11, 0x61, 0x2e, 0x65, 0x78, 0x61, 0x6d, 0x70, 0x6c, 0x65, 0, 0, 0, //
    0, 0, 1, 0x28, 0x40, 0, 0, 0x0f, 0x65, 0x78, 0x61, 0x6d, 0x70, 0x6c, 0x65, 0,
];

/// The same with reserved flags, and padding that isn't zero.
const ODD: [u8; 36] = [
    0, 0, 1, 8, 0x5f, 0, 0, 0x11, 0x61, 0x2e, 0x65, 0x78, 0x61, 0x6d, 0x70, 0x6c, 0x65, 255, 255,
    255, //
    0, 0, 1, 0x28, 0x5f, 0, 0, 0x0f, 0x65, 0x78, 0x61, 0x6d, 0x70, 0x6c, 0x65, 255,
];

/// An AVP with Vendor-ID 7 and flag P, and one with Vendor-ID 0.
const VENDORS: [u8; 24] = [
    0, 0, 0, 1, 0xa0, 0, 0, 12, 0, 0, 0, 7, //
    0, 0, 0, 2, 0x80, 0, 0, 12, 0, 0, 0, 0,
];

/// The two as they are written, the second without a Vendor-ID.
const VENDORS_WRITTEN: [u8; 20] = [
    0, 0, 0, 1, 0xa0, 0, 0, 12, 0, 0, 0, 7, //
    0, 0, 0, 2, 0, 0, 0, 8,
];

/// The first octets, all of them where there are fewer.
fn front(octets: &[u8], len: usize) -> &[u8] {
    &octets[..len.min(octets.len())]
}

/// The octets of so many AVPs without data, and of so many zeros behind them.
pub(crate) fn empty_avps(alloc: Global, count: usize, zeros: usize) -> Result<Vec<u8>, AllocError> {
    let mut octets = Vec::new(alloc);
    for _ in 0..count {
        octets.extend_from_slice(&[0, 0, 0, 1, 0, 0, 0, 8])?;
    }
    for _ in 0..zeros {
        octets.push(0)?;
    }
    Ok(octets)
}

/// An Origin-Host with these data.
fn view_of(data: &[u8]) -> AvpView<'_> {
    AvpView {
        code: 264,
        vendor: None,
        mandatory: true,
        protected: false,
        octets: data,
    }
}

fn avp_of(alloc: Global, data: &[u8]) -> Result<Avp, AllocError> {
    view_of(data).to_avp(alloc)
}

/// Whether the AVP at a place has this code, no vendor, flag M alone and these data.
fn is_at(list: &AvpList, place: usize, code: u32, data: &[u8]) -> bool {
    match list.get(place) {
        None => false,
        Some(avp) => {
            avp.code == code
                && avp.vendor == None
                && avp.mandatory
                && !avp.protected
                && avp.octets.as_slice() == data
        }
    }
}

/// Whether the list is written as these octets.
fn is_written(alloc: Global, list: &AvpList, octets: &[u8]) -> bool {
    let mut out = Vec::new(alloc);
    write_avps(list, &mut out).is_ok() && out.as_slice() == octets
}

/// Whether octets are read as the two AVPs, and these are written as `TWO`.
fn is_two(alloc: Global, octets: &[u8]) -> bool {
    match read_avps(alloc, octets, 0) {
        Err(_) => false,
        Ok(list) => {
            list.len() == 2
                && is_at(&list, 0, 264, b"a.example")
                && is_at(&list, 1, 296, b"example")
                && list.encoded_len() == Some(36)
                && is_written(alloc, &list, &TWO)
        }
    }
}

#[test]
fn watchdog_avps_are_read_and_written_whatever_the_reserved_flags_and_padding(rt: HostRuntime) {
    assert!(rt; is_two(rt.alloc(), &TWO));
    assert!(rt; is_two(rt.alloc(), &ODD), "reserved flags");
    assert!(rt; is_two(rt.alloc(), &TWO[..35]), "no padding");
}

/// How many AVPs octets are read as, or the number and the place of the first fault.
fn count_of(alloc: Global, octets: &[u8], depth: u8) -> Result<usize, (u8, usize)> {
    match read_avps(alloc, octets, depth) {
        Ok(list) => Ok(list.len()),
        Err(ReadError::NoMemory) => Err((0, 0)),
        Err(ReadError::Fault(fault)) => Err((fault.code.number(), fault.at)),
    }
}

/// Octets, how many of them are read, the groups around them, and what they are read as.
const READ: &[(&[u8], usize, u8, Result<usize, (u8, usize)>)] = &[
    // The last padding may be missing, wholly or in part.
    (&TWO, 17, 0, Ok(1)),
    (&TWO, 18, 0, Ok(1)),
    (&TWO, 19, 0, Ok(1)),
    (&TWO, 20, 0, Ok(1)),
    // The first fault comes with its place.
    (&TWO, 27, 0, Err((1, 20))),
    (&TWO, 21, 0, Err((1, 20))),
    (&[0, 0, 0, 1, 0x80, 0, 0, 7, 0, 0, 0], 11, 0, Err((1, 0))),
    (
        &[0, 0, 0, 1, 0x80, 0, 0, 11, 0, 0, 0, 1],
        12,
        0,
        Err((2, 0)),
    ),
    (&[0, 0, 0, 1, 0, 0, 0, 7], 8, 0, Err((2, 0))),
    (&TWO, 34, 0, Err((3, 20))),
    (&TWO, 16, 0, Err((3, 0))),
    (&[0, 0, 0, 1, 0, 0, 0, 9], 8, 0, Err((3, 0))),
    // Groups have at most 4 levels.
    (&TWO, 36, 4, Ok(2)),
    (&TWO, 36, 5, Err((5, 0))),
    (&TWO, 27, 5, Err((5, 0))),
];

/// The place of the first line of the table that isn't so.
fn wrong_read(alloc: Global) -> Option<usize> {
    for (place, (octets, len, depth, read)) in READ.iter().enumerate() {
        if count_of(alloc, front(octets, *len), *depth) != *read {
            return Some(place);
        }
    }
    None
}

/// What so many AVPs without data and so many zeros behind them are read as.
fn count_of_empty(
    alloc: Global,
    count: usize,
    zeros: usize,
) -> Result<Result<usize, (u8, usize)>, AllocError> {
    Ok(count_of(alloc, &empty_avps(alloc, count, zeros)?, 0))
}

/// How many AVPs without data, how many zeros behind them, and what they are read as: a list has at most 128 AVPs.
const LARGE: &[(usize, usize, Result<usize, (u8, usize)>)] = &[
    (128, 0, Ok(128)),
    (128, 1, Err((4, 1024))),
    (129, 0, Err((4, 1024))),
];

/// The place of the first line of the table that isn't so.
fn wrong_large(alloc: Global) -> Result<Option<usize>, AllocError> {
    for (place, (count, zeros, read)) in LARGE.iter().enumerate() {
        if count_of_empty(alloc, *count, *zeros)? != *read {
            return Ok(Some(place));
        }
    }
    Ok(None)
}

#[test]
fn octets_are_avps_or_have_a_first_fault_with_its_place(rt: HostRuntime) -> Result<(), Fail> {
    let read = wrong_read(rt.alloc());
    assert!(rt; read.is_none(), "{read:?}");
    let large = wrong_large(rt.alloc())?;
    assert!(rt; large.is_none(), "a large list: {large:?}");
    Ok(())
}

/// Whether the first of `VENDORS` has vendor 7 and flag P alone, and the second no vendor.
fn has_vendor_7_and_none(list: &AvpList) -> bool {
    match (list.get(0), list.get(1)) {
        (Some(seven), Some(zero)) => {
            seven.vendor == Some(7) && !seven.mandatory && seven.protected && zero.vendor == None
        }
        _ => false,
    }
}

/// Whether the first of a list, and an AVP of vendor 0 behind it, are written as `VENDORS_WRITTEN`.
fn writes_vendors(list: &AvpList, out: &mut Vec<u8>) -> bool {
    let zero = AvpView {
        code: 2,
        vendor: Some(0),
        mandatory: false,
        protected: false,
        octets: &[],
    };
    match list.get(0) {
        None => false,
        Some(seven) => {
            write_avp(&seven.view(), out).is_ok()
                && write_avp(&zero, out).is_ok()
                && out.as_slice() == VENDORS_WRITTEN.as_slice()
        }
    }
}

/// Whether `VENDORS` are read so, and written so.
fn are_vendors(alloc: Global) -> bool {
    let mut out = Vec::new(alloc);
    match read_avps(alloc, &VENDORS, 0) {
        Err(_) => false,
        Ok(list) => has_vendor_7_and_none(&list) && writes_vendors(&list, &mut out),
    }
}

#[test]
fn vendor_0_is_none(rt: HostRuntime) {
    assert!(rt; are_vendors(rt.alloc()));
}

/// Data, and the Unsigned32 that they are.
const UNSIGNED32: &[(&[u8], Result<u32, FieldFault>)] = &[
    (&[0x12, 0x34, 0x56, 0x78], Ok(0x1234_5678)),
    (&[255, 255, 255, 255], Ok(0xffff_ffff)),
    (&[1, 2, 3], Err(FieldFault::BadLength)),
    (&[1, 2, 3, 4, 5], Err(FieldFault::BadLength)),
    (&[], Err(FieldFault::BadLength)),
];

/// Whether data are this Unsigned32, of an AVP and of a view.
fn is_unsigned32(alloc: Global, data: &[u8], number: Result<u32, FieldFault>) -> bool {
    match avp_of(alloc, data) {
        Err(_) => false,
        Ok(avp) => u32_of(&avp) == number && avp.view().as_u32() == number,
    }
}

/// Data, and the Unsigned64 that they are.
const UNSIGNED64: &[(&[u8], Result<u64, FieldFault>)] = &[
    (
        &[1, 0x23, 0x45, 0x67, 0x89, 0xab, 0xcd, 0xef],
        Ok(0x0123_4567_89ab_cdef),
    ),
    (&[255; 8], Ok(0xffff_ffff_ffff_ffff)),
    (&[0; 7], Err(FieldFault::BadLength)),
    (&[0; 9], Err(FieldFault::BadLength)),
    (&[0; 4], Err(FieldFault::BadLength)),
];

fn is_unsigned64(alloc: Global, data: &[u8], number: Result<u64, FieldFault>) -> bool {
    match avp_of(alloc, data) {
        Err(_) => false,
        Ok(avp) => u64_of(&avp) == number && avp.view().as_u64() == number,
    }
}

/// The place of the first line of the table that isn't so.
fn wrong_unsigned32(alloc: Global) -> Option<usize> {
    for (place, (data, number)) in UNSIGNED32.iter().enumerate() {
        if !is_unsigned32(alloc, data, *number) {
            return Some(place);
        }
    }
    None
}

fn wrong_unsigned64(alloc: Global) -> Option<usize> {
    for (place, (data, number)) in UNSIGNED64.iter().enumerate() {
        if !is_unsigned64(alloc, data, *number) {
            return Some(place);
        }
    }
    None
}

/// Data, and the DiameterIdentity that they are.
const IDENTITIES: &[(&[u8], Result<&[u8], FieldFault>)] = &[
    (b"a.example", Ok(b"a.example")),
    (&[], Ok(&[])),
    (&[0x7f], Ok(&[0x7f])),
    (&[0x61, 0x80], Err(FieldFault::BadValue)),
];

fn is_identity(alloc: Global, data: &[u8], identity: Result<&[u8], FieldFault>) -> bool {
    match avp_of(alloc, data) {
        Err(_) => false,
        Ok(avp) => identity_of(&avp) == identity && avp.view().as_identity() == identity,
    }
}

/// Octets that are no UTF-8.
const NO_TEXT: Result<&str, FieldFault> = Err(FieldFault::BadValue);

/// Data, and the text that they are.
const TEXTS: &[(&[u8], Result<&str, FieldFault>)] = &[
    (b"", Ok("")),
    (&[0x7f], Ok("\u{7f}")),
    (&[0xc2, 0x80], Ok("\u{80}")),
    (&[0xed, 0x9f, 0xbf], Ok("\u{d7ff}")),
    (&[0xee, 0x80, 0x80], Ok("\u{e000}")),
    (&[0xf0, 0x90, 0x80, 0x80], Ok("\u{10000}")),
    (&[0x61, 0xf4, 0x8f, 0xbf, 0xbf], Ok("a\u{10ffff}")),
    // A lone continuation.
    (&[0x61, 0x80], NO_TEXT),
    // Overlong in 2, 3 and 4 octets.
    (&[0xc1, 0xbf], NO_TEXT),
    (&[0xe0, 0x9f, 0xbf], NO_TEXT),
    (&[0xf0, 0x8f, 0xbf, 0xbf], NO_TEXT),
    // The first surrogate, and the last.
    (&[0xed, 0xa0, 0x80], NO_TEXT),
    (&[0xed, 0xbf, 0xbf], NO_TEXT),
    // Cut after 1 of 2 octets, 2 of 3 and 3 of 4, and by a letter.
    (&[0xc3], NO_TEXT),
    (&[0xe2, 0x82], NO_TEXT),
    (&[0xf0, 0x9f, 0x98], NO_TEXT),
    (&[0xe2, 0x82, 0x61], NO_TEXT),
    // Over 10ffff, and no first octet.
    (&[0xf4, 0x90, 0x80, 0x80], NO_TEXT),
    (&[0xff], NO_TEXT),
];

/// Whether data are this text, of an AVP and of a view.
fn is_text(alloc: Global, data: &[u8], text: Result<&str, FieldFault>) -> bool {
    match avp_of(alloc, data) {
        Err(_) => false,
        Ok(avp) => text_of(&avp) == text && avp.view().as_text() == text,
    }
}

/// The place of the first text of the table that isn't read so.
fn wrong_text(alloc: Global) -> Option<usize> {
    for (place, (data, text)) in TEXTS.iter().enumerate() {
        if !is_text(alloc, data, *text) {
            return Some(place);
        }
    }
    None
}

/// The place of the first line of the table that isn't so.
fn wrong_identity(alloc: Global) -> Option<usize> {
    for (place, (data, identity)) in IDENTITIES.iter().enumerate() {
        if !is_identity(alloc, data, *identity) {
            return Some(place);
        }
    }
    None
}

/// 2001:db8::7.
const SIXTEEN: [u8; 16] = [0x20, 1, 0xd, 0xb8, 0, 0, 0, 0, 0, 0, 0, 0, 0, 0, 0, 7];

/// The data of that address.
const SIX: [u8; 18] = [0, 2, 0x20, 1, 0xd, 0xb8, 0, 0, 0, 0, 0, 0, 0, 0, 0, 0, 0, 7];

/// Data, how many of their octets there are, and the Address that they are.
const ADDRESSES: &[(&[u8], usize, Result<Address<'static>, FieldFault>)] = &[
    (&[0, 1, 192, 0, 2, 9], 6, Ok(Address::V4([192, 0, 2, 9]))),
    (&SIX, 18, Ok(Address::V6(SIXTEEN))),
    (
        &[0, 8, 0x34, 0x91],
        4,
        Ok(Address::Other {
            family: 8,
            octets: &[0x34, 0x91],
        }),
    ),
    (
        &[1, 1],
        2,
        Ok(Address::Other {
            family: 257,
            octets: &[],
        }),
    ),
    (&[], 0, Err(FieldFault::BadLength)),
    (&[0], 1, Err(FieldFault::BadLength)),
    (&[0, 1], 2, Err(FieldFault::BadLength)),
    (&[0, 1, 192, 0, 2], 5, Err(FieldFault::BadLength)),
    (&[0, 1, 192, 0, 2, 9, 0], 7, Err(FieldFault::BadLength)),
    (&[0, 2, 192, 0, 2, 9], 6, Err(FieldFault::BadLength)),
    (&SIX, 17, Err(FieldFault::BadLength)),
];

/// Whether data are this Address, of an AVP and of a view.
fn is_address(alloc: Global, data: &[u8], address: Result<Address<'_>, FieldFault>) -> bool {
    match avp_of(alloc, data) {
        Err(_) => false,
        Ok(avp) => address_of(&avp) == address && avp.view().as_address() == address,
    }
}

/// The place of the first line of the table that isn't so.
fn wrong_address(alloc: Global) -> Option<usize> {
    for (place, (data, len, address)) in ADDRESSES.iter().enumerate() {
        if !is_address(alloc, front(data, *len), *address) {
            return Some(place);
        }
    }
    None
}

/// The first table of numbers, texts and addresses in which a line isn't so, and its place.
/// Numbers have the size of their type, text is UTF-8, an identity is ASCII, and an address has a family and its size.
fn wrong_data(alloc: Global) -> Option<(&'static str, usize)> {
    let tables = [
        ("Unsigned32", wrong_unsigned32(alloc)),
        ("Unsigned64", wrong_unsigned64(alloc)),
        ("a text", wrong_text(alloc)),
        ("DiameterIdentity", wrong_identity(alloc)),
        ("Address", wrong_address(alloc)),
    ];
    for (name, wrong) in tables {
        if let Some(place) = wrong {
            return Some((name, place));
        }
    }
    None
}

#[test]
fn data_are_values_of_their_type(rt: HostRuntime) {
    let wrong = wrong_data(rt.alloc());
    assert!(rt; wrong.is_none(), "{wrong:?}");
}

/// Whether an AVP's data are a group of so many AVPs, or have this fault.
fn is_group_of(alloc: Global, avp: &Avp, depth: u8, size: Result<usize, FieldFault>) -> bool {
    match group_of(alloc, avp, depth) {
        Ok(list) => size == Ok(list.len()),
        Err(GroupError::Fault(fault)) => size == Err(fault),
        Err(GroupError::NoMemory) => false,
    }
}

/// How many AVPs there are, one after the other.
fn avps_in(avps: AvpsIn<'_>) -> usize {
    let mut left = avps;
    for count in 0..1_000 {
        if left.next().is_none() {
            return count;
        }
    }
    1_000
}

/// Whether a view's data are a group of so many AVPs, or have this fault.
fn is_group_in(view: &AvpView<'_>, depth: u8, size: Result<usize, FieldFault>) -> bool {
    match view.as_group(depth) {
        Ok(avps) => size == Ok(avps_in(avps)),
        Err(fault) => size == Err(fault),
    }
}

/// Whether data are a group of so many AVPs, or have this fault, of an AVP and of a view.
fn is_group(alloc: Global, data: &[u8], depth: u8, size: Result<usize, FieldFault>) -> bool {
    match avp_of(alloc, data) {
        Err(_) => false,
        Ok(avp) => is_group_of(alloc, &avp, depth, size) && is_group_in(&avp.view(), depth, size),
    }
}

/// Data, how many of their octets there are, the groups around them, and how many AVPs they are.
const GROUPS: &[(&[u8], usize, u8, Result<usize, FieldFault>)] = &[
    (&TWO, 36, 1, Ok(2)),
    (&TWO, 35, 4, Ok(2)),
    (&[], 0, 4, Ok(0)),
    (&TWO, 36, 5, Err(FieldFault::BadValue)),
    (&TWO, 27, 5, Err(FieldFault::BadValue)),
    (&TWO, 34, 1, Err(FieldFault::BadLength)),
    (&TWO, 27, 1, Err(FieldFault::BadLength)),
    (&[0, 0, 0, 1, 0, 0, 0, 7], 8, 1, Err(FieldFault::BadLength)),
];

/// How many AVPs without data, how many zeros behind them, and how many AVPs the group has.
const LARGE_GROUPS: &[(usize, usize, Result<usize, FieldFault>)] = &[
    (128, 0, Ok(128)),
    (129, 0, Err(FieldFault::BadValue)),
    (128, 1, Err(FieldFault::BadValue)),
];

/// Whether so many AVPs without data and zeros behind them are a group of so many AVPs.
fn is_large_group(
    alloc: Global,
    count: usize,
    zeros: usize,
    size: Result<usize, FieldFault>,
) -> bool {
    match empty_avps(alloc, count, zeros) {
        Err(_) => false,
        Ok(data) => is_group(alloc, &data, 1, size),
    }
}

/// The place of the first line of the table that isn't so.
fn wrong_group(alloc: Global) -> Option<usize> {
    for (place, (data, len, depth, size)) in GROUPS.iter().enumerate() {
        if !is_group(alloc, front(data, *len), *depth, *size) {
            return Some(place);
        }
    }
    None
}

fn wrong_large_group(alloc: Global) -> Option<usize> {
    for (place, (count, zeros, size)) in LARGE_GROUPS.iter().enumerate() {
        if !is_large_group(alloc, *count, *zeros, *size) {
            return Some(place);
        }
    }
    None
}

#[test]
fn a_group_is_avps_at_most_128_within_at_most_4_levels(rt: HostRuntime) {
    let group = wrong_group(rt.alloc());
    assert!(rt; group.is_none(), "{group:?}");
    let large = wrong_large_group(rt.alloc());
    assert!(rt; large.is_none(), "a large group: {large:?}");
}

/// Whether data are too long for the AVP of a list.
fn is_refused_in_list(alloc: Global, data: &[u8], out: &mut Vec<u8>) -> bool {
    let mut list = AvpList::new(alloc);
    match avp_of(alloc, data) {
        Err(_) => false,
        Ok(avp) => {
            list.push(avp).is_ok() && write_avps(&list, out) == Err(WriteError::LengthOver24Bits)
        }
    }
}

/// Whether the longest data are written, and with an octet more nothing is.
fn is_longest(alloc: Global, data: &mut Vec<u8>, out: &mut Vec<u8>) -> bool {
    data.resize(0xff_fff7, 1).is_ok()
        && write_avp(&view_of(data), out).is_ok()
        && out.len() == 0x100_0000
        && data.push(1).is_ok()
        && write_avp(&view_of(data), out) == Err(WriteError::LengthOver24Bits)
        && is_refused_in_list(alloc, data, out)
        && out.len() == 0x100_0000
}

#[test]
fn the_longest_avp_has_24_bits_of_length(rt: HostRuntime) {
    let mut data = Vec::new(rt.alloc());
    let mut out = Vec::new(rt.alloc());
    assert!(rt; is_longest(rt.alloc(), &mut data, &mut out));
}

/// Whether a copy of octets is the same.
fn is_copied(alloc: Global, octets: &Octets) -> bool {
    match octets.copy(alloc) {
        Err(_) => false,
        Ok(copy) => copy.as_slice() == octets.as_slice(),
    }
}

/// Whether octets, of which there are some, are counted, given back and copied.
fn are_kept(alloc: Global, octets: &[u8], len: usize) -> bool {
    match Octets::from_slice(alloc, octets) {
        Err(_) => false,
        Ok(kept) => {
            kept.len() == len
                && !kept.is_empty()
                && kept.as_slice() == octets
                && is_copied(alloc, &kept)
        }
    }
}

/// Whether a list with this AVP alone has one, and is written as these octets.
fn is_list_of(alloc: Global, avp: Avp, octets: &[u8]) -> bool {
    let Ok(mut list) = AvpList::with_capacity(alloc, 1) else {
        return false;
    };
    let pushed = list.push(avp).is_ok();
    let list = AvpList::from_vec(list.into_vec());
    pushed && list.as_slice().len() == 1 && is_written(alloc, &list, octets)
}

/// Whether the first AVP of `TWO` has the second behind it, and a list of the first is written as it.
fn is_first_of_two(alloc: Global) -> bool {
    let Ok((first, rest)) = first_avp(&TWO) else {
        return false;
    };
    match first.to_avp(alloc) {
        Err(_) => false,
        Ok(avp) => rest == &TWO[20..] && is_list_of(alloc, avp, &TWO[..20]),
    }
}

#[test]
fn what_takes_memory_answers_where_there_is_memory(rt: HostRuntime) {
    let alloc = rt.alloc();
    assert!(rt; are_kept(alloc, b"abc", 3) && are_kept(alloc, &[7; 33], 33));
    assert!(rt; is_first_of_two(alloc));
}

/// An octet, then `TWO`, and the first of `TWO`.
const PUT: [u8; 57] = [
    9, //
    0, 0, 1, 8, 0x40, 0, 0, 0x11, 0x61, 0x2e, 0x65, 0x78, 0x61, 0x6d, 0x70, 0x6c, 0x65, 0, 0, 0, //
    0, 0, 1, 0x28, 0x40, 0, 0, 0x0f, 0x65, 0x78, 0x61, 0x6d, 0x70, 0x6c, 0x65, 0, //
    0, 0, 1, 8, 0x40, 0, 0, 0x11, 0x61, 0x2e, 0x65, 0x78, 0x61, 0x6d, 0x70, 0x6c, 0x65, 0, 0, 0,
];

/// Puts a list of 36 octets behind others, where there is memory.
#[tactic(auto, using(dia_avp::proofs::Encoded::short_inner))]
fn puts_list(list: &AvpList, out: &mut Vec<u8>) -> bool {
    let Some(36) = list.encoded_len() else {
        return false;
    };
    let Ok(()) = out.reserve(36) else {
        return false;
    };
    put_avps(list.as_slice(), out);
    true
}

/// Puts an AVP of 20 octets.
#[tactic(auto, using(dia_avp::proofs::Encoded::length_encoded))]
fn puts_one(view: &AvpView<'_>, out: &mut Vec<u8>) -> bool {
    if view.encoded_len() != 20 {
        return false;
    }
    let Ok(()) = out.reserve(20) else {
        return false;
    };
    put_avp(view, out);
    true
}

/// Whether `TWO` as a list, and its first AVP, are put behind an octet as `PUT`.
fn are_put(alloc: Global, list: &AvpList) -> bool {
    let mut out = Vec::new(alloc);
    out.push(9).is_ok()
        && puts_list(list, &mut out)
        && puts_one(&view_of(b"a.example"), &mut out)
        && out.as_slice() == PUT.as_slice()
}

#[test]
fn avps_are_put_where_there_is_room(rt: HostRuntime) {
    let list = read_avps(rt.alloc(), &TWO, 1);
    assert!(rt; matches!(&list, Ok(list) if are_put(rt.alloc(), list)));
}
