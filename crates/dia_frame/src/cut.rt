//! The whole messages at the front of octets.

ghost use Rattle.std.specs.Prelude.{◌≡◌, ◌≤◌, ◌<◌, ◌+◌, ◌⊎◌, [], ◌∷◌, ◌++◌, drop, vec_len, vec_capacity};
ghost use Rattle.std.specs.Prelude.{Option, Some, None, slice_get, IfOk, OnOk, OnErr};
ghost use Rattle.dia_frame.specs.Frames.{fault_of, is_bad_length};
ghost use Rattle.dia_frame.specs.Whole.{is_part, length_in, whole_len, room_of, Cuts, CutsUpTo};

use crate::fault::FrameFault;
use base_codes::{HEADER_LEN, VERSION};
use base_list::Octets;
use byteorder::{BigEndian, ByteOrder};
use std::alloc::{AllocError, Global};
use std::collections::VecDeque;

fn is_bad_length(limit: usize, len: usize) -> bool
    ensures { result ≡ is_bad_length limit len }
{
    len < HEADER_LEN || len % 4 != 0 || limit < len
}

/// The fault that the first four octets show, or those of them that are there.
pub(crate) fn fault_of(limit: usize, octets: &[u8]) -> Option<FrameFault>
    ensures { result ≡ fault_of limit octets.now }
{
    match octets {
        [] => None,
        [version, octets @ ..] => {
            if *version != VERSION {
                return Some(FrameFault::Version);
            }
            if octets.len() < 3 {
                return None;
            }
            if is_bad_length(limit, BigEndian::read_u24(octets) as usize) {
                return Some(FrameFault::Length);
            }
            None
        }
    }
}

// The octet at a place of two pieces joined.
fn octet_at(front: &[u8], back: &[u8], place: usize) -> Option<u8>
    ensures { result ≡ slice_get (front.now ++ back.now) place }
{
    if place < front.len() {
        return Some(front[place]);
    }
    back.get(place - front.len()).copied()
}

// The length in the header of two pieces joined, where its octets are there.
fn length_across(front: &[u8], back: &[u8]) -> Option<usize>
    ensures { result ≡ length_in (front.now ++ back.now) }
{
    let octets = [
        octet_at(front, back, 1)?,
        octet_at(front, back, 2)?,
        octet_at(front, back, 3)?,
    ];
    Some(BigEndian::read_u24(&octets) as usize)
}

/// The fault that the first four octets of two pieces joined show, or those of them that are there.
pub(crate) fn fault_across(limit: usize, front: &[u8], back: &[u8]) -> Option<FrameFault>
    ensures { result ≡ fault_of limit (front.now ++ back.now) }
{
    if octet_at(front, back, 0)? != VERSION {
        return Some(FrameFault::Version);
    }
    if is_bad_length(limit, length_across(front, back)?) {
        return Some(FrameFault::Length);
    }
    None
}

/// The length of the message at the front, where all of it is there.
fn whole_len(limit: usize, octets: &[u8]) -> Option<usize>
    ensures { result ≡ whole_len limit octets.now }
{
    if octets.len() < 4 || fault_of(limit, octets).is_some() {
        return None;
    }
    let len = BigEndian::read_u24(&octets[1..]) as usize;
    if octets.len() < len {
        return None;
    }
    Some(len)
}

/// Whether two pieces joined are a part of a message: none is whole at the front, and no fault shows.
pub(crate) fn is_part(limit: usize, front: &[u8], back: &[u8]) -> bool
    ensures { result ≡ is_part limit (front.now ++ back.now) }
{
    if fault_across(limit, front, back).is_some() {
        return false;
    }
    match length_across(front, back) {
        Some(len) => front.len() + back.len() < len,
        None => true,
    }
}

fn push_frame(
    alloc: Global,
    octets: &[u8],
    waiting: &mut VecDeque<Octets>,
) -> Result<(), AllocError>
    ensures ok { OnOk result (waiting.new.items ≡ waiting.old.items ++ octets.now ∷ []) }
    ensures err { OnErr result (waiting.new.items ≡ waiting.old.items) }
{
    let frame = Octets::from_slice(alloc, octets)?;
    waiting.push_back(frame)?;
    Ok(())
}

// Puts a frame for each whole message at the front of `octets` behind those that wait, and says
// where the rest begins.
fn push_frames(
    alloc: Global,
    limit: usize,
    octets: &[u8],
    waiting: &mut VecDeque<Octets>,
) -> Result<usize, AllocError>
    ensures ok { IfOk result (CutsUpTo octets.now limit waiting.old.items waiting.new.items) }
    ensures err { OnErr result (waiting.new.items ≡ waiting.old.items) }
    ensures need { OnErr result (whole_len limit octets.now ≡ None → ⊥) }
{
    let waited = waiting.len();
    let mut end = 0;
    while let Some(len) = whole_len(limit, &octets[end..]) {
        match push_frame(alloc, &octets[end..end + len], waiting) {
            Ok(()) => end += len,
            Err(refused) => {
                waiting.truncate(waited);
                return Err(refused);
            }
        }
    }
    Ok(end)
}

/// How many octets a rest is given room for.
pub(crate) fn room_of(limit: usize, rest: &[u8]) -> usize
    ensures { result ≡ room_of limit rest.now }
{
    if rest.is_empty() || fault_of(limit, rest).is_some() {
        return 0;
    }
    if rest.len() < 4 {
        return 4;
    }
    BigEndian::read_u24(&rest[1..]) as usize
}

/// Drops the first `end` octets. Only those behind them are moved.
fn drop_front(octets: &mut Vec<u8>, end: usize)
    requires { end ≤ vec_len octets.old }
    ensures items { octets.new.items ≡ drop end octets.old.items }
    ensures capacity { vec_capacity octets.new ≡ vec_capacity octets.old }
{
    if end == 0 {
        return;
    }
    let left = octets.len() - end;
    octets.copy_within(end.., 0);
    octets.truncate(left);
}

// Drops the first `end` octets, once there is room for what the others begin.
fn keep_from(limit: usize, octets: &mut Vec<u8>, end: usize) -> Result<(), AllocError>
    requires { end ≤ vec_len octets.old }
    ensures ok { OnOk result (octets.new.items ≡ drop end octets.old.items) }
    ensures err { OnErr result (octets.new.items ≡ octets.old.items) }
    ensures room { OnOk result (room_of limit (drop end octets.old.items) ≤ vec_capacity octets.new) }
    ensures capacity { vec_capacity octets.old ≤ vec_capacity octets.new }
    ensures need { OnErr result (vec_capacity octets.old < room_of limit (drop end octets.old.items)) }
{
    let room = room_of(limit, &octets[end..]);
    if octets.capacity() < room {
        octets.reserve_exact(room.saturating_sub(octets.len()))?;
    }
    drop_front(octets, end);
    Ok(())
}

/// Cuts the whole messages off the front of `octets`: a frame for each waits behind the others, and
/// there is room for the message that the rest begins.
pub(crate) fn cut_frames(
    alloc: Global,
    limit: usize,
    octets: &mut Vec<u8>,
    waiting: &mut VecDeque<Octets>,
) -> Result<(), AllocError>
    ensures ok { OnOk result (Cuts octets.old.items limit waiting.old.items waiting.new.items octets.new.items) }
    ensures room { OnOk result (room_of limit octets.new.items ≤ vec_capacity octets.new) }
    ensures err { OnErr result ((waiting.new.items ≡ waiting.old.items) × (octets.new.items ≡ octets.old.items)) }
    ensures capacity { vec_capacity octets.old ≤ vec_capacity octets.new }
    ensures need { OnErr result ((whole_len limit octets.old.items ≡ None → ⊥)
        ⊎ (vec_capacity octets.old < room_of limit octets.old.items)) }
{
    let waited = waiting.len();
    let end = push_frames(alloc, limit, octets, waiting)?;
    if let Err(refused) = keep_from(limit, octets, end) {
        waiting.truncate(waited);
        return Err(refused);
    }
    Ok(())
}
