//! The AVPs of a message with where they lie.
ghost use Rattle.std.specs.Prelude.{◌≡◌, ◌<◌, ◌+◌, ◌*◌, ◌^◌, ◌++◌, OnOk, IfOk, map, length};
ghost use Rattle.dia_dict.specs.Dictionary.{known};
ghost use Rattle.msg_explain.specs.Parts.{seen_part, length_at, parts, message_parts};

use base_codes::HEADER_LEN;
use dia_avp::{MAX_DEPTH, avp_at};
use dia_dict::Dictionary;
use dia_tree::{is_grouped, number_at};
use std::alloc::{AllocError, Global};

/// How many AVPs most messages have at most.
const FEW_PARTS: usize = 32;

/// An AVP in a message: where it begins, how many levels of groups it may still open,
/// and the octets from it to the end of its list.
#[derive(Clone, Copy)]
pub struct Part<'a> {
    pub place: usize,
    pub room: u8,
    pub octets: &'a [u8],
}

/// The AVP Length at the front of octets; octets that are missing count as zero.
pub fn length_at(octets: &[u8]) -> u32
    ensures is { result ≡ length_at octets.now }
    ensures few { result < 2 ^ 24 }
{
    number_at(octets, 4) % 0x100_0000
}

// Adds the parts of octets that end at a place.
fn list_parts<'a>(
    dictionary: &Dictionary,
    room: u8,
    end: usize,
    octets: &'a [u8],
    list: &mut Vec<Part<'a>>,
) -> Result<(), AllocError>
    requires { end + room * 2 ^ 24 < 2 ^ 63 }
    ensures { OnOk result (map seen_part list.new.items
        ≡ map seen_part list.old.items ++ parts (known dictionary.now) room end octets.now) }
{
    let mut rest = octets;
    while !rest.is_empty() {
        let place = end.saturating_sub(rest.len());
        list.push(Part {
            place,
            room,
            octets: rest,
        })?;
        let Ok((avp, after)) = avp_at(rest) else {
            return Ok(());
        };
        if room > 0 && is_grouped(dictionary, &avp) {
            let inner_end = place + length_at(rest) as usize;
            list_parts(dictionary, room - 1, inner_end, avp.octets, list)?;
        }
        rest = after;
    }
    Ok(())
}

/// The AVPs of a message with where they lie, groups opened.
pub fn parts_of<'a>(
    alloc: Global,
    dictionary: &Dictionary,
    octets: &'a [u8],
) -> Result<Vec<Part<'a>>, AllocError>
    requires { length octets.now < 2 ^ 32 }
    ensures { IfOk result (λ list. map seen_part list.items ≡ message_parts (known dictionary.now) octets.now) }
{
    let mut list = Vec::with_capacity(alloc, FEW_PARTS)?;
    let (_, avps) = octets.split_at(HEADER_LEN.min(octets.len()));
    list_parts(dictionary, MAX_DEPTH, octets.len(), avps, &mut list)?;
    Ok(list)
}
