//! Frames: a stream of octets, in any pieces, gives its messages.

use dia_frame::{FeedError, FrameFault, Framer};
use std::alloc::Global;

/// A Device-Watchdog-Request of 56 octets.
const DWR: [u8; 56] = [
    0x01, 0x00, 0x00, 0x38, 0x80, 0x00, 0x01, 0x18, 0x00, 0x00, 0x00, 0x00, 0x00, 0x00, 0x00, 0x01,
    0x00, 0x00, 0x00, 0x01, 0x00, 0x00, 0x01, 0x08, 0x40, 0x00, 0x00, 0x11, 0x61, 0x2e, 0x65, 0x78,
    0x61, 0x6d, 0x70, 0x6c, 0x65, 0x00, 0x00, 0x00, 0x00, 0x00, 0x01, 0x28, 0x40, 0x00, 0x00, 0x0f,
    0x65, 0x78, 0x61, 0x6d, 0x70, 0x6c, 0x65, 0x00,
];

const VERSION: Result<usize, FeedError> = Err(FeedError::Fault(FrameFault::Version));

const LENGTH: Result<usize, FeedError> = Err(FeedError::Fault(FrameFault::Length));

const BROKEN: Result<usize, FeedError> = Err(FeedError::Fault(FrameFault::Broken));

/// Whether the one frame that waits is this message.
fn gives(framer: &mut Framer, message: &[u8]) -> bool {
    match framer.next_frame() {
        None => false,
        Some(frame) => frame.as_slice() == message,
    }
}

/// Whether one frame waits, the DWR, and 19 octets are left behind it.
fn has_dwr_and_19_octets(framer: &mut Framer) -> bool {
    framer.rest_len() == 19
        && gives(framer, &DWR)
        && framer.next_frame().is_none()
        && framer.rest_len() == 19
}

/// Whether a copy of the framer has them, and then the framer itself.
fn both_have_dwr_and_19_octets(framer: &mut Framer) -> bool {
    match framer.copy() {
        Err(_) => false,
        Ok(mut copy) => has_dwr_and_19_octets(&mut copy) && has_dwr_and_19_octets(framer),
    }
}

/// Whether the DWR in two pieces, cut there, is one frame.
fn is_one_frame(alloc: Global, at: usize) -> bool {
    let at = at.min(DWR.len());
    let mut framer = Framer::new(alloc, 4096);
    framer.feed(&DWR[..at]).is_ok()
        && framer.feed(&DWR[at..]) == Ok(1)
        && framer.feed(&DWR[..19]).is_ok()
        && both_have_dwr_and_19_octets(&mut framer)
}

/// Feeds the octets one by one, and says whether so many frames wait after each.
fn waits_at_each(framer: &mut Framer, octets: &[u8], count: usize) -> bool {
    for octet in octets {
        if framer.feed(&[*octet]) != Ok(count) {
            return false;
        }
    }
    true
}

/// The first place where the DWR is cut and isn't one frame.
fn wrong_cut(alloc: Global) -> Option<usize> {
    for at in 0..=DWR.len() {
        if !is_one_frame(alloc, at) {
            return Some(at);
        }
    }
    None
}

/// Whether the DWR, octet by octet, is one frame.
fn is_one_frame_of_octets(alloc: Global) -> bool {
    let mut framer = Framer::new(alloc, 4096);
    waits_at_each(&mut framer, &DWR[..55], 0)
        && waits_at_each(&mut framer, &DWR[55..], 1)
        && waits_at_each(&mut framer, &DWR[..19], 1)
        && both_have_dwr_and_19_octets(&mut framer)
}

#[test]
fn a_message_is_one_frame_however_it_is_cut(rt: HostRuntime) {
    let cut = wrong_cut(rt.alloc());
    assert!(rt; cut.is_none(), "cut at {cut:?}");
    assert!(rt; is_one_frame_of_octets(rt.alloc()), "octet by octet");
}

/// Whether a part of the DWR is held and can be let go, and neither its last octets nor a fault are held.
fn is_held(alloc: Global) -> bool {
    let mut framer = Framer::new(alloc, 4096);
    let held = matches!(framer.hold(&DWR[..55]), Ok(true)) && framer.rest_len() == 55;
    let others = matches!(framer.hold(&DWR[55..]), Ok(false)) && framer.rest_len() == 55;
    framer.truncate_rest(3);
    let fault = matches!(framer.hold(&[18]), Ok(false)) && framer.rest_len() == 3;
    held && others && fault && framer.feed(&DWR[3..]) == Ok(1) && gives(&mut framer, &DWR)
}

#[test]
fn a_part_of_a_message_is_held(rt: HostRuntime) {
    assert!(rt; is_held(rt.alloc()));
}

/// Whether a length whose last octets are these is refused by the feed of the fourth octet.
fn is_bad_length(alloc: Global, high: u8, low: u8) -> bool {
    let mut framer = Framer::new(alloc, 4096);
    framer.feed(&[1, 0, high]) == Ok(0)
        && framer.feed(&[low]) == LENGTH
        && framer.feed(&DWR) == BROKEN
        && framer.rest_len() == 0
        && framer.next_frame().is_none()
}

/// Whether a message of 4,096 octets is a frame with its last octet.
fn is_longest(alloc: Global) -> bool {
    let mut message = [0; 4096];
    message[0] = 1;
    message[2] = 16;
    let mut framer = Framer::new(alloc, 4096);
    framer.feed(&message[..4095]) == Ok(0)
        && framer.feed(&message[4095..]) == Ok(1)
        && framer.rest_len() == 0
        && gives(&mut framer, &message)
}

/// The last two octets of lengths that are refused.
const BAD_LENGTHS: &[(u8, u8)] = &[(0, 16), (0, 22), (16, 4)];

/// The first of them that isn't refused.
fn wrong_length(alloc: Global) -> Option<(u8, u8)> {
    for (high, low) in BAD_LENGTHS {
        if !is_bad_length(alloc, *high, *low) {
            return Some((*high, *low));
        }
    }
    None
}

/// Whether two frames before a bad version are kept.
fn keeps_two_frames(alloc: Global) -> bool {
    let mut framer = Framer::new(alloc, 4096);
    framer.feed(&DWR).is_ok()
        && framer.feed(&DWR[..55]).is_ok()
        && framer.feed(&[DWR[55], 2, 0]) == VERSION
        && framer.feed(&DWR) == BROKEN
        && framer.next_frame().is_some()
        && framer.next_frame().is_some()
        && framer.next_frame().is_none()
        && framer.rest_len() == 0
}

/// Whether a stream that begins with another version is refused.
fn is_bad_version(alloc: Global) -> bool {
    let mut framer = Framer::new(alloc, 4096);
    framer.feed(&[2]) == VERSION
}

#[test]
fn a_version_is_1_and_a_length_20_to_the_limit_and_a_multiple_of_4(rt: HostRuntime) {
    let length = wrong_length(rt.alloc());
    assert!(rt; length.is_none(), "{length:?}");
    assert!(rt; is_longest(rt.alloc()), "the longest");
    assert!(rt; is_bad_version(rt.alloc()), "a version");
    assert!(rt; keeps_two_frames(rt.alloc()), "frames before a fault");
}

/// Each fault with its number and its text.
const FAULTS: &[(FrameFault, u8, &str)] = &[
    (FrameFault::Version, 1, "the next message's version isn't 1"),
    (
        FrameFault::Length,
        2,
        "the next message's length is below 20, over the limit or no multiple of 4",
    ),
    (
        FrameFault::Broken,
        3,
        "an earlier message of the stream had a bad version or length",
    ),
];

/// Whether an error is printed so.
fn is_printed(alloc: Global, error: FeedError, text: &str) -> bool {
    match &format!(in alloc; "{error}") {
        Ok(printed) => printed.as_str() == text,
        Err(_) => false,
    }
}

/// The text of the first fault that has another number or text.
fn wrong_fault(alloc: Global) -> Option<&'static str> {
    for (fault, number, text) in FAULTS {
        if fault.number() != *number || !is_printed(alloc, FeedError::Fault(*fault), text) {
            return Some(text);
        }
    }
    if is_printed(alloc, FeedError::NoMemory, "out of memory") {
        None
    } else {
        Some("no memory")
    }
}

#[test]
fn faults_have_numbers_and_texts(rt: HostRuntime) {
    let fault = wrong_fault(rt.alloc());
    assert!(rt; fault.is_none(), "{fault:?}");
}
