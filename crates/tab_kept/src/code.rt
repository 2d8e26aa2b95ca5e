//! Numbers in as few octets as they need.
ghost use Rattle.std.specs.Prelude.{◌≡◌, ◌++◌, ◌+◌, ◌<◌, ◌≤◌, ◌^◌, ◌∷◌, [], All, IfOk, IsOk, length, slice_index, take};
ghost use Rattle.std.specs.Int.{w64, from_le_bytes};
ghost use Rattle.tab_law.specs.declared.limits.TheConstants.{PLACES};
ghost use Rattle.tab_kept.specs.declared.code.TheConstants.{MAX_OCTETS};
ghost use Rattle.tab_kept.specs.Coded.{behind, code, coded, first, width};

use base_list::Octets;
use std::alloc::{AllocError, Global};
use tab_law::PLACES;

/// So many octets have the numbers of all places at most: nine each.
pub(crate) const MAX_OCTETS: usize = 9 * PLACES;

/// Where the octets of numbers are put together.
type Room = [u8; MAX_OCTETS];

/// Puts octets at a place. Answers the place behind them.
fn put(room: &mut Room, at: usize, octets: &[u8]) -> usize
    requires { at + length octets.now ≤ MAX_OCTETS }
    ensures behind { result ≡ at + length octets.now }
    ensures put { take result room.new ≡ take at room.old ++ octets.now }
{
    let end = at + octets.len();
    room[at..end].copy_from_slice(octets);
    end
}

/// Puts an octet and those of a number at a place. Answers the place behind them.
fn put_long(room: &mut Room, at: usize, head: u8, number: &[u8]) -> usize
    requires { at + length number.now < MAX_OCTETS }
    ensures behind { result ≡ at + length (head ∷ number.now) }
    ensures put { take result room.new ≡ take at room.old ++ head ∷ number.now }
{
    let next = put(room, at, &[head]);
    put(room, next, number)
}

/// Puts the octets of a number at a place. Answers the place behind them.
fn put_number(room: &mut Room, at: usize, number: u64) -> usize
    requires { at + 9 ≤ MAX_OCTETS }
    ensures behind { result ≡ at + length (code number) }
    ensures put { take result room.new ≡ take at room.old ++ code number }
    ensures fits { number < 2 ^ 64 }
{
    if number < 253 {
        put(room, at, &[number as u8])
    } else if number < 65_536 {
        put_long(room, at, 253, &(number as u16).to_le_bytes())
    } else if number < 4_294_967_296 {
        put_long(room, at, 254, &(number as u32).to_le_bytes())
    } else {
        put_long(room, at, 255, &number.to_le_bytes())
    }
}

/// The octets of numbers, one after the other. They are put together in room of fixed size; where they are few, as
/// mostly, they take no memory.
pub(crate) fn octets_of(alloc: Global, numbers: &[u64]) -> Result<Octets, AllocError>
    requires few { length numbers.now ≤ PLACES }
    ensures octets { IfOk result (λ octets. octets ≡ coded numbers.now) }
    ensures fit { IfOk result (λ _. All (λ n. n < 2 ^ 64) numbers.now) }
    ensures short { length (coded numbers.now) ≤ 32 → IsOk result }
{
    let mut room = [0; MAX_OCTETS];
    // Beside the room, not in it: a processor then need not wait for each octet before the next.
    let mut at = 0;
    for number in numbers {
        at = put_number(&mut room, at, *number);
    }
    Octets::from_slice(alloc, &room[..at])
}

/// The octet at a place, 0 behind the last.
fn octet(octets: &[u8], place: usize) -> u8
    ensures { result ≡ slice_index octets.now place }
{
    match octets.get(place) {
        None => 0,
        Some(octet) => *octet,
    }
}

/// The first number of octets.
fn first(s: &[u8]) -> u64
    ensures { result ≡ first s.now }
{
    let head = octet(s, 0);
    if head == 253 {
        u64::from(u16::from_le_bytes([octet(s, 1), octet(s, 2)]))
    } else if head == 254 {
        let number = [octet(s, 1), octet(s, 2), octet(s, 3), octet(s, 4)];
        u64::from(u32::from_le_bytes(number))
    } else if head == 255 {
        long(s)
    } else {
        u64::from(head)
    }
}

/// The number of the eight octets behind the first.
fn long(s: &[u8]) -> u64
    ensures { result
        ≡ from_le_bytes w64 (slice_index s.now 1 ∷ slice_index s.now 2 ∷ slice_index s.now 3 ∷ slice_index s.now 4
        ∷ slice_index s.now 5 ∷ slice_index s.now 6 ∷ slice_index s.now 7 ∷ slice_index s.now 8 ∷ []) }
{
    u64::from_le_bytes([
        octet(s, 1),
        octet(s, 2),
        octet(s, 3),
        octet(s, 4),
        octet(s, 5),
        octet(s, 6),
        octet(s, 7),
        octet(s, 8),
    ])
}

/// How many octets a number has, by its first.
fn width(head: u8) -> usize
    ensures { result ≡ width head }
{
    match head {
        253 => 3,
        254 => 5,
        255 => 9,
        _ => 1,
    }
}

/// The octets behind the first number.
fn behind(s: &[u8]) -> &[u8]
    ensures { result.now ≡ behind s.now }
{
    let width = width(octet(s, 0)).min(s.len());
    &s[width..]
}

/// The first number of octets, and the octets behind it.
pub(crate) fn next(s: &[u8]) -> (u64, &[u8])
    ensures first { result.0 ≡ first s.now }
    ensures behind { result.1.now ≡ behind s.now }
{
    match s.split_first() {
        Some((head, rest)) if *head < 253 => (u64::from(*head), rest),
        _ => (first(s), behind(s)),
    }
}
