//! AVPs in their canonical encoding at every level: reserved bits and padding are zero, and the last padding is there.

ghost use Rattle.std.specs.Prelude.{◌≡◌, ◌+◌, ◌<◌, ◌^◌, true, false, ℕ, slice_index, length, map, IfOk, IsTrue};
ghost use Rattle.dia_avp.specs.View.{seen};
ghost use Rattle.dia_avp.specs.Reading.{avps_in};
ghost use Rattle.dia_avp.specs.Encoding.{length_of, encoding};
ghost use Rattle.dia_dict.specs.Dictionary.{known, definition_of};
ghost use Rattle.dia_tree.specs.Kind.{is_grouped as is_grouped_by};
ghost use Rattle.dia_tree.specs.Canonical.{canonical as canonical_form, IsCanonical, AreCanonical};

use crate::kind::is_grouped;
use dia_avp::{Avp, AvpList, AvpView, MAX_DEPTH, Octets, first_avp, put_avp};
use dia_dict::Dictionary;
use std::alloc::{AllocError, Global};

fn with_octets<'a>(avp: &AvpView<'a>, octets: &'a [u8]) -> AvpView<'a>
    ensures { seen result ≡ record (seen avp.now) { octets = octets.now } }
{
    AvpView { octets, ..*avp }
}

// Whether an AVP is a group with levels of groups left for it. Without, it is in its canonical encoding as it is.
fn is_open(dictionary: &Dictionary, room: u8, avp: &AvpView<'_>) -> bool
    ensures open { IsTrue result → (0 < room)
        × (is_grouped_by (definition_of (known dictionary.now) avp.now.code avp.now.vendor) ≡ true) }
    ensures shut { result ≡ false → canonical_form (known dictionary.now) room (seen avp.now) ≡ seen avp.now }
{
    room > 0 && is_grouped(dictionary, avp)
}

// The canonical encoding of the AVPs that a group's octets are, with so many levels of groups below them.
fn group_octets(
    alloc: Global,
    dictionary: &Dictionary,
    room: u8,
    octets: &[u8],
) -> Result<Octets, AllocError>
    requires { length octets.now + 8 < 2 ^ 24 }
    ensures { IfOk result (λ o. o
        ≡ encoding (map (canonical_form (known dictionary.now) room) (avps_in octets.now).0)) }
{
    let mut out = Vec::with_capacity(alloc, octets.len().div_ceil(4) * 4)?;
    let mut rest = octets;
    while let Ok((avp, after)) = first_avp(rest) {
        if is_open(dictionary, room, &avp) {
            let inner = group_octets(alloc, dictionary, room - 1, avp.octets)?;
            put_avp(&with_octets(&avp, inner.as_slice()), &mut out);
        } else {
            put_avp(&avp, &mut out);
        }
        rest = after;
    }
    Ok(Octets::new(out))
}

fn canonical_of(
    alloc: Global,
    dictionary: &Dictionary,
    room: u8,
    avp: &AvpView<'_>,
) -> Result<Avp, AllocError>
    requires { length_of (seen avp.now) < 2 ^ 24 }
    ensures { IfOk result (λ a. a ≡ canonical_form (known dictionary.now) room (seen avp.now)) }
{
    if !is_open(dictionary, room, avp) {
        return avp.to_avp(alloc);
    }
    Ok(Avp {
        code: avp.code,
        vendor: avp.vendor,
        mandatory: avp.mandatory,
        protected: avp.protected,
        octets: group_octets(alloc, dictionary, room - 1, avp.octets)?,
    })
}

// What octets are.
fn octets_are_bytes(octets: &[u8])
    ensures { (i : ℕ) → slice_index octets.now i < 256 }
{}

/// An AVP of a message, as it is written: the data of a group, and of the groups in it down to four levels, is the one
/// encoding of its AVPs (RFC 6733 section 4.1). What stands in a group behind a broken AVP is left out.
pub fn canonical_avp(
    alloc: Global,
    dictionary: &Dictionary,
    avp: &AvpView<'_>,
) -> Result<Avp, AllocError>
    requires { length_of (seen avp.now) < 2 ^ 24 }
    ensures canonical { IfOk result (IsCanonical (known dictionary.now) 4 (seen avp.now)) }
    ensures is { IfOk result (λ a. a ≡ canonical_form (known dictionary.now) 4 (seen avp.now)) }
{
    octets_are_bytes(avp.octets);
    canonical_of(alloc, dictionary, MAX_DEPTH, avp)
}

fn list_of(alloc: Global, dictionary: &Dictionary, octets: &[u8]) -> Result<AvpList, AllocError>
    ensures { IfOk result (λ list. list ≡ map (canonical_form (known dictionary.now) 3) (avps_in octets.now).0) }
{
    let mut list = AvpList::new(alloc);
    let mut rest = octets;
    while let Ok((avp, after)) = first_avp(rest) {
        list.push(canonical_of(alloc, dictionary, MAX_DEPTH - 1, &avp)?)?;
        rest = after;
    }
    Ok(list)
}

/// The AVPs of a message's group, as they are written, up to the first broken one.
pub fn group_list(
    alloc: Global,
    dictionary: &Dictionary,
    octets: &[u8],
) -> Result<AvpList, AllocError>
    ensures canonical { IfOk result (AreCanonical (known dictionary.now) 3 octets.now) }
    ensures is { IfOk result (λ list. list ≡ map (canonical_form (known dictionary.now) 3) (avps_in octets.now).0) }
{
    list_of(alloc, dictionary, octets)
}
