//! Trees of AVPs: the first fault at every level, values of credit control, missing AVPs, canonical encodings.

use base_list::FixedList;
use dia_avp::{AvpView, MAX_AVPS, WriteError, write_avp, write_avps};
use dia_dict::{AvpKind, Dictionary};
use dia_tree::{FaultView, MsgFault, canonical_avp, group_list, missing_fault, survey};
use std::alloc::{AllocError, Global};
use std::test::Fail;

/// Origin-Host `a`.
const HOST: [u8; 12] = [0, 0, 1, 8, 0x40, 0, 0, 9, 0x61, 0, 0, 0];

/// Origin-Realm that is not ASCII.
const BAD_REALM: [u8; 12] = [0, 0, 1, 0x28, 0x40, 0, 0, 9, 0x80, 0, 0, 0];

/// AVP 9999 of 3 octets, which the dictionary lacks, with flag M and without.
const UNKNOWN_M: [u8; 12] = [0, 0, 0x27, 0x0f, 0x40, 0, 0, 11, 0x61, 0x62, 0x63, 0];

const UNKNOWN: [u8; 12] = [0, 0, 0x27, 0x0f, 0, 0, 0, 11, 0x61, 0x62, 0x63, 0];

/// The first of them without data, and with 4 zeros.
const NO_UNKNOWN: [u8; 8] = [0, 0, 0x27, 0x0f, 0x40, 0, 0, 8];

const ZERO_UNKNOWN: [u8; 12] = [0, 0, 0x27, 0x0f, 0x40, 0, 0, 12, 0, 0, 0, 0];

/// Origin-State-Id of 3 octets, and with 4 zeros.
const SHORT_STATE: [u8; 12] = [0, 0, 1, 0x16, 0x40, 0, 0, 11, 1, 2, 3, 0];

const ZERO_STATE: [u8; 12] = [0, 0, 1, 0x16, 0x40, 0, 0, 12, 0, 0, 0, 0];

/// CC-Total-Octets of 17 octets that has 16, and with 8 zeros.
const LONG_OCTETS: [u8; 16] = [0, 0, 1, 0xa5, 0x40, 0, 0, 17, 0, 0, 0, 0, 0, 0, 0, 5];

const ZERO_OCTETS: [u8; 16] = [0, 0, 1, 0xa5, 0x40, 0, 0, 16, 0, 0, 0, 0, 0, 0, 0, 0];

/// Service-Context-Id without data.
const NO_CONTEXT: [u8; 8] = [0, 0, 1, 0xcd, 0x40, 0, 0, 8];

/// Origin-State-Id of a vendor whose header is cut off, and with 4 zeros.
const CUT_VENDOR: [u8; 11] = [0, 0, 1, 0x16, 0xe0, 0, 0, 20, 0, 0, 0x28];

const ZERO_VENDOR: [u8; 12] = [0, 0, 1, 0x16, 0xe0, 0, 0, 12, 0, 0, 0x28, 0];

/// A Used-Service-Unit with Origin-Host `a`.
const GROUP: [u8; 20] = [
    0, 0, 1, 0xbe, 0x40, 0, 0, 20, 0, 0, 1, 8, 0x40, 0, 0, 9, 0x61, 0, 0, 0,
];

/// CC-Request-Type of an EVENT request and of an UPDATE request, and Requested-Action 4,
/// which no EVENT request may have.
const EVENT: [u8; 12] = [0, 0, 1, 0xa0, 0x40, 0, 0, 12, 0, 0, 0, 4];

const UPDATE: [u8; 12] = [0, 0, 1, 0xa0, 0x40, 0, 0, 12, 0, 0, 0, 2];

const ACTION: [u8; 12] = [0, 0, 1, 0xb4, 0x40, 0, 0, 12, 0, 0, 0, 4];

/// An AVP without flags but M.
fn view_of(code: u32, vendor: Option<u32>, data: &[u8]) -> AvpView<'_> {
    AvpView {
        code,
        vendor,
        mandatory: true,
        protected: false,
        octets: data,
    }
}

fn avp_of(
    alloc: Global,
    code: u32,
    vendor: Option<u32>,
    data: &[u8],
) -> Result<Vec<u8>, WriteError> {
    let mut out = Vec::new(alloc);
    write_avp(&view_of(code, vendor, data), &mut out)?;
    Ok(out)
}

fn joined(alloc: Global, front: &[u8], back: &[u8]) -> Result<Vec<u8>, AllocError> {
    let mut octets = Vec::from_slice(alloc, front)?;
    octets.extend_from_slice(back)?;
    Ok(octets)
}

/// The octets within so many Used-Service-Units.
fn nested(alloc: Global, inner: &[u8], levels: usize) -> Result<Vec<u8>, WriteError> {
    let mut octets = Vec::from_slice(alloc, inner)?;
    for _ in 0..levels {
        octets = avp_of(alloc, 446, None, &octets)?;
    }
    Ok(octets)
}

/// Whether a fault has this number and, encoded, this failed AVP.
fn is_told(alloc: Global, fault: &MsgFault, number: u32, failed: &[u8]) -> bool {
    let mut out = Vec::new(alloc);
    let is_written = match &fault.failed {
        None => true,
        Some(avp) => write_avp(&avp.view(), &mut out).is_ok(),
    };
    is_written && fault.result.number() == number && out.as_slice() == failed
}

/// Whether a fault is this one; 0 where there is none.
fn is_fault(alloc: Global, fault: Option<FaultView<'_>>, number: u32, failed: &[u8]) -> bool {
    match fault {
        None => number == 0 && failed.is_empty(),
        Some(view) => match &view.to_fault(alloc) {
            Ok(fault) => is_told(alloc, fault, number, failed),
            Err(_) => false,
        },
    }
}

/// The first fault of a message's AVPs.
fn first_fault<'a>(
    dictionary: &Dictionary,
    credit: bool,
    octets: &'a [u8],
) -> Option<FaultView<'a>> {
    let mut avps = FixedList::<AvpView<'_>, MAX_AVPS>::new();
    survey(dictionary, credit, octets, &mut avps).unwrap_or(None)
}

/// Two parts of octets, the least and the greatest number of groups that they stand in, what stands behind,
/// the number of the first fault and its failed AVP.
type Row<'a> = (&'a [u8], &'a [u8], usize, usize, &'a [u8], u32, &'a [u8]);

/// Whether octets have the fault of a row in each number of groups.
fn holds(alloc: Global, dictionary: &Dictionary, row: &Row<'_>) -> Result<bool, WriteError> {
    let (first, second, least, most, behind, number, failed) = *row;
    let inner = joined(alloc, first, second)?;
    for levels in least..=most {
        let groups = nested(alloc, &inner, levels)?;
        let octets = joined(alloc, &groups, behind)?;
        let fault = first_fault(dictionary, false, &octets);
        if !is_fault(alloc, fault, number, failed) {
            return Ok(false);
        }
    }
    Ok(true)
}

/// 128 AVPs that the dictionary lacks.
fn full_list(alloc: Global) -> Result<Vec<u8>, AllocError> {
    let mut octets = Vec::new(alloc);
    for _ in 0..128 {
        octets.extend_from_slice(&UNKNOWN)?;
    }
    Ok(octets)
}

/// Whether each row holds.
fn all_hold(alloc: Global, dictionary: &Dictionary, rows: &[Row<'_>]) -> Result<bool, WriteError> {
    for row in rows {
        if !holds(alloc, dictionary, row)? {
            return Ok(false);
        }
    }
    Ok(true)
}

/// Origin-State-Id, AVP 9999 and Origin-Host, each with a header that is cut off.
const CUT_STATE: [u8; 5] = [0, 0, 1, 0x16, 0x40];

const CUT_UNKNOWN: [u8; 5] = [0, 0, 0x27, 0x0f, 0x40];

const CUT_HOST: [u8; 7] = [0, 0, 1, 8, 0x40, 0, 0];

/// The faults of lists come by place.
const LISTS: &[Row<'static>] = &[
    (&HOST, &UNKNOWN, 0, 0, b"", 0, b""),
    (&HOST, &UNKNOWN_M, 0, 0, b"", 5001, &UNKNOWN_M),
    (&UNKNOWN_M, &BAD_REALM, 0, 0, b"", 5001, &UNKNOWN_M),
    (&BAD_REALM, &UNKNOWN_M, 0, 0, b"", 5004, &BAD_REALM),
    (&HOST, &SHORT_STATE, 0, 0, b"", 5014, &ZERO_STATE),
    (&HOST, &LONG_OCTETS, 0, 0, b"", 5014, &ZERO_OCTETS),
    (&BAD_REALM, &LONG_OCTETS, 0, 0, b"", 5004, &BAD_REALM),
    // A header that is cut off: its missing octets count as zero.
    (&HOST, &CUT_STATE, 0, 0, b"", 5014, &ZERO_STATE),
    (&HOST, &CUT_UNKNOWN, 0, 0, b"", 5014, &NO_UNKNOWN),
    (&HOST, &CUT_VENDOR, 0, 0, b"", 5014, &ZERO_VENDOR),
];

/// The faults inside groups come at the group's place, and groups have at most 4 levels.
const GROUPS: &[Row<'static>] = &[
    // Two AVPs inside groups and one behind.
    (&ZERO_OCTETS, &UNKNOWN, 1, 4, &HOST, 0, b""),
    (&UNKNOWN_M, &LONG_OCTETS, 1, 4, &BAD_REALM, 5001, &UNKNOWN_M),
    (&UNKNOWN, &LONG_OCTETS, 1, 4, &BAD_REALM, 5014, &ZERO_OCTETS),
    (&HOST, &BAD_REALM, 1, 4, &UNKNOWN_M, 5004, &BAD_REALM),
    (&HOST, &HOST, 1, 4, &UNKNOWN_M, 5001, &UNKNOWN_M),
    (&HOST, &SHORT_STATE, 1, 4, &CUT_HOST, 5014, &ZERO_STATE),
    // The fifth level is one too many.
    (&HOST, b"", 4, 4, b"", 0, b""),
    (&HOST, b"", 5, 6, b"", 5012, b""),
    (b"", b"", 4, 4, b"", 0, b""),
    (b"", b"", 5, 6, b"", 5012, b""),
    // What is wrong before a group too many comes first.
    (&UNKNOWN_M, &GROUP, 4, 4, b"", 5001, &UNKNOWN_M),
    (&GROUP, &UNKNOWN_M, 4, 4, b"", 5012, b""),
];

/// What stands behind 128 AVPs, the number of the fault and its failed AVP.
const BEHIND_FULL: &[(&[u8], u32, &[u8])] = &[
    (b"", 0, b""),
    (&UNKNOWN, 5012, b""),
    (&UNKNOWN_M, 5012, b""),
    (&[0, 0, 0x27, 0x0f, 0x40, 0, 0, 11, 0x61], 5014, &NO_UNKNOWN),
];

/// Whether a list has at most 128 AVPs at each level; `full` has as many.
fn full_lists_hold(
    alloc: Global,
    dictionary: &Dictionary,
    full: &[u8],
) -> Result<bool, WriteError> {
    for (behind, number, failed) in BEHIND_FULL {
        if !holds(
            alloc,
            dictionary,
            &(full, behind, 0, 4, b"", *number, failed),
        )? {
            return Ok(false);
        }
    }
    Ok(true)
}

/// A code and data, and the number of the fault in an EVENT request and in any other message.
type ValueRow<'a> = (u32, &'a [u8], u32, u32);

/// Whether an AVP has this fault in an EVENT request or another message, in 0 to 4 groups;
/// a value that is refused fails as it is.
fn value_fails(
    alloc: Global,
    dictionary: &Dictionary,
    avp: &[u8],
    event: bool,
    number: u32,
) -> Result<bool, WriteError> {
    let behind: &[u8] = if event { &EVENT } else { &UPDATE };
    for levels in 0..5usize {
        let octets = joined(alloc, &nested(alloc, avp, levels)?, behind)?;
        let fault = first_fault(dictionary, true, &octets);
        let is_numbered = match &fault {
            None => number == 0,
            Some(view) => view.result.number() == number,
        };
        if !is_numbered || number == 5004 && !is_fault(alloc, fault, number, avp) {
            return Ok(false);
        }
    }
    Ok(true)
}

/// Whether the AVP of a row has the faults of the row, and that of a vendor is unknown.
fn value_holds(
    alloc: Global,
    dictionary: &Dictionary,
    row: &ValueRow<'_>,
) -> Result<bool, WriteError> {
    let (code, data, in_event, else_where) = *row;
    let own = avp_of(alloc, code, None, data)?;
    let of_vendor = avp_of(alloc, code, Some(10415), data)?;
    Ok(
        value_fails(alloc, dictionary, &own, true, in_event)?
            && value_fails(alloc, dictionary, &own, false, else_where)?
            && is_fault(
                alloc,
                first_fault(dictionary, false, &of_vendor),
                5001,
                &of_vendor,
            ),
    )
}

/// Parts of octets, whether they are of a Credit-Control-Request, and the number of their fault.
type EventRow = ([[u8; 12]; 3], bool, u32);

/// Only the first CC-Request-Type counts, wherever it stands.
const EVENTS: &[EventRow] = &[
    ([EVENT, ACTION, HOST], true, 5004),
    ([ACTION, HOST, EVENT], true, 5004),
    ([ACTION, EVENT, UPDATE], true, 5004),
    ([EVENT, UPDATE, ACTION], true, 5004),
    ([UPDATE, EVENT, ACTION], true, 0),
    ([ACTION, UPDATE, EVENT], true, 0),
    ([ACTION, HOST, UNKNOWN], true, 0),
    ([EVENT, ACTION, HOST], false, 0),
];

/// Whether a Requested-Action of 4 has the fault of a row.
fn event_holds(alloc: Global, dictionary: &Dictionary, row: &EventRow) -> Result<bool, AllocError> {
    let (parts, credit, number) = row;
    let octets = joined(alloc, &joined(alloc, &parts[0], &parts[1])?, &parts[2])?;
    let failed: &[u8] = if *number == 0 { b"" } else { &ACTION };
    let fault = first_fault(dictionary, *credit, &octets);
    Ok(is_fault(alloc, fault, *number, failed))
}

/// Whether a Requested-Action counts where the first CC-Request-Type is 4.
fn events_hold(alloc: Global, dictionary: &Dictionary) -> Result<bool, AllocError> {
    for row in EVENTS {
        if !event_holds(alloc, dictionary, row)? {
            return Ok(false);
        }
    }
    Ok(true)
}

/// Whether octets are AVPs without fault, of these codes.
fn lists(dictionary: &Dictionary, octets: &[u8], codes: &[u32]) -> bool {
    let mut avps = FixedList::<AvpView<'_>, MAX_AVPS>::new();
    matches!(survey(dictionary, true, octets, &mut avps), Ok(None))
        && avps.len() == codes.len()
        && avps
            .as_slice()
            .iter()
            .zip(codes)
            .all(|(avp, code)| avp.code == *code)
}

/// Whether AVPs without fault are listed where they lie.
fn are_listed(alloc: Global, dictionary: &Dictionary, full: &[u8]) -> Result<bool, AllocError> {
    let octets = joined(alloc, &joined(alloc, &HOST, &GROUP)?, &UNKNOWN)?;
    Ok(
        lists(dictionary, &octets, &[264, 446, 9999])
            && lists(dictionary, &[], &[])
            && lists(dictionary, full, &[9999; MAX_AVPS]),
    )
}

/// The answer of a survey with room for two AVPs: the number of its fault, 0 where there is none, nothing without room.
fn in_two(dictionary: &Dictionary, octets: &[u8]) -> Option<u32> {
    let mut avps = FixedList::<AvpView<'_>, 2>::new();
    match survey(dictionary, true, octets, &mut avps) {
        Ok(Some(fault)) => Some(fault.result.number()),
        Ok(None) => Some(0),
        Err(_) => None,
    }
}

/// Two AVPs and what stands behind them, and the answer.
/// A fault among the first two comes before, and so does what is left behind them and is broken.
const IN_TWO: &[(&[u8], &[u8], &[u8], Option<u32>)] = &[
    (&HOST, &GROUP, b"", Some(0)),
    (&HOST, &GROUP, &UNKNOWN, None),
    (&HOST, &BAD_REALM, &UNKNOWN, Some(5004)),
    (&HOST, &GROUP, &[0, 0, 0x27, 0x0f, 0, 0, 0], Some(5014)),
];

/// Whether a list without room for all AVPs is told.
fn rooms_hold(alloc: Global, dictionary: &Dictionary) -> Result<bool, AllocError> {
    for (first, second, behind, answer) in IN_TWO {
        let octets = joined(alloc, &joined(alloc, first, second)?, behind)?;
        if in_two(dictionary, &octets) != *answer {
            return Ok(false);
        }
    }
    Ok(true)
}

/// Values of which credit control does not know some.
const VALUES: &[ValueRow<'static>] = &[
    (263, b"", 5004, 5004),
    (263, b"s", 0, 0),
    (263, &[0x61; 255], 0, 0),
    (263, &[0x61; 256], 5004, 5004),
    (416, &[0, 0, 0, 0], 5004, 5004),
    (416, &[0, 0, 0, 1], 0, 0),
    (416, &[0, 0, 0, 4], 0, 0),
    (416, &[0, 0, 0, 5], 5004, 5004),
    (416, &[0, 0, 1, 1], 5004, 5004),
    (416, &[0, 0, 1], 5014, 5014),
    (436, &[0, 0, 0, 0], 0, 0),
    (436, &[0, 0, 0, 3], 0, 0),
    (436, &[0, 0, 0, 4], 5004, 0),
    (436, &[1, 0, 0, 3], 5004, 0),
];

/// Whether the values that credit control does not know are refused.
fn values_hold(alloc: Global, dictionary: &Dictionary) -> Result<bool, WriteError> {
    for row in VALUES {
        if !value_holds(alloc, dictionary, row)? {
            return Ok(false);
        }
    }
    Ok(true)
}

/// Codes, and the AVP that is named where it is missing: zeros of the least size of its type.
const MISSING: &[(u32, &[u8])] = &[
    (461, &NO_CONTEXT),
    (278, &ZERO_STATE),
    (421, &ZERO_OCTETS),
    (9999, &NO_UNKNOWN),
];

fn missing_hold(alloc: Global, dictionary: &Dictionary) -> bool {
    for (code, failed) in MISSING {
        let fault = missing_fault(dictionary, *code);
        if !is_fault(alloc, Some(fault), 5005, failed) {
            return false;
        }
    }
    true
}

/// Whether an AVP that is added is known in groups too.
fn added_is_known(alloc: Global, dictionary: &mut Dictionary) -> Result<bool, WriteError> {
    let was = holds(
        alloc,
        dictionary,
        &(&UNKNOWN_M, b"", 2, 2, b"", 5001, &UNKNOWN_M),
    )?;
    let added = dictionary.add(9999, None, "Test", AvpKind::Unsigned32);
    let is = holds(
        alloc,
        dictionary,
        &(&UNKNOWN_M, b"", 2, 2, b"", 5014, &ZERO_UNKNOWN),
    )?;
    Ok(was && added.is_ok() && is)
}

/// Subscription-Id within Subscription-Id, with reserved flags 0x1f and padding 0xff; the last padding is missing.
const ODD: [u8; 47] = [
    0, 0, 1, 0xbb, 0x5f, 0, 0, 47, //
    0, 0, 1, 0xbb, 0x7f, 0, 0, 26, //
    0, 0, 1, 0xbc, 0x5f, 0, 0, 9, 0x31, 0xff, 0xff, 0xff, //
    0, 0, 1, 0xbc, 0x1f, 0, // a header that is cut off
    0xff, 0xff, //
    0, 0, 1, 0xbc, 0x5f, 0, 0, 11, 0x31, 0x30, 0x30,
];

/// The same in its canonical encoding.
const EVEN: [u8; 40] = [
    0, 0, 1, 0xbb, 0x40, 0, 0, 40, //
    0, 0, 1, 0xbb, 0x60, 0, 0, 20, //
    0, 0, 1, 0xbc, 0x40, 0, 0, 9, 0x31, 0, 0, 0, //
    0, 0, 1, 0xbc, 0x40, 0, 0, 11, 0x31, 0x30, 0x30, 0,
];

/// The canonical encoding of `ODD`.
#[tactic(auto, unfolding(dia_avp::specs::Encoding::length_of))]
fn canonical_encoding(alloc: Global, dictionary: &Dictionary) -> Result<Vec<u8>, WriteError> {
    let odd = AvpView {
        code: 443,
        vendor: None,
        mandatory: true,
        protected: false,
        octets: &ODD[8..],
    };
    let canonical = canonical_avp(alloc, dictionary, &odd)?;
    let mut out = Vec::new(alloc);
    write_avp(&canonical.view(), &mut out)?;
    Ok(out)
}

/// Whether a group holds so many AVPs, and these are encoded so.
fn is_group_of(
    alloc: Global,
    dictionary: &Dictionary,
    octets: &[u8],
    count: usize,
    encoding: &[u8],
) -> Result<bool, WriteError> {
    let list = group_list(alloc, dictionary, octets)?;
    let mut out = Vec::new(alloc);
    write_avps(&list, &mut out)?;
    Ok(list.len() == count && out.as_slice() == encoding)
}

/// Whether reserved flags and padding become zero at every level.
fn is_canonical(alloc: Global, dictionary: &Dictionary) -> Result<bool, WriteError> {
    let canonical = canonical_encoding(alloc, dictionary)?;
    Ok(
        canonical.as_slice() == EVEN.as_slice()
            && is_group_of(alloc, dictionary, &ODD[8..], 2, &EVEN[8..])?,
    )
}

/// The first that doesn't hold with the dictionary of the base.
fn wrong_tree(
    alloc: Global,
    dictionary: &Dictionary,
    full: &[u8],
) -> Result<Option<&'static str>, WriteError> {
    let shown = [
        (all_hold(alloc, dictionary, LISTS)?, "faults of lists"),
        (all_hold(alloc, dictionary, GROUPS)?, "faults in groups"),
        (
            full_lists_hold(alloc, dictionary, full)?,
            "faults of full lists",
        ),
        (
            events_hold(alloc, dictionary)?,
            "Requested-Action counts where the first CC-Request-Type is 4",
        ),
        (
            are_listed(alloc, dictionary, full)?,
            "AVPs are listed where they lie",
        ),
        (rooms_hold(alloc, dictionary)?, "a list without room"),
        (
            values_hold(alloc, dictionary)?,
            "values that credit control does not know",
        ),
        (missing_hold(alloc, dictionary), "a missing AVP"),
        (
            is_canonical(alloc, dictionary)?,
            "reserved flags and padding",
        ),
    ];
    for (holds, what) in shown {
        if !holds {
            return Ok(Some(what));
        }
    }
    Ok(None)
}

#[test]
fn the_first_fault_comes_by_place_and_encodings_are_canonical(rt: HostRuntime) -> Result<(), Fail> {
    let full = full_list(rt.alloc())?;
    let dictionary = Dictionary::base(rt.alloc())?;
    let wrong = wrong_tree(rt.alloc(), &dictionary, &full)?;
    assert!(rt; wrong.is_none(), "{wrong:?}");
    Ok(())
}

#[test]
fn an_avp_that_is_added_is_known(rt: HostRuntime) -> Result<(), Fail> {
    let mut dictionary = Dictionary::base(rt.alloc())?;
    assert!(rt; added_is_known(rt.alloc(), &mut dictionary)?);
    Ok(())
}
