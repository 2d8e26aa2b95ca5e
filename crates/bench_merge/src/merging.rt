//! Parts are merged: the least of the next stamps is taken, again and again.
ghost use Rattle.std.specs.Prelude.{◌≡◌, ◌≤◌, ◌<◌, IfOk, MatchOption, length, option_map, slice_index};
ghost use Rattle.bench_merge.specs.Order.{Merges, stamps_at};
ghost use Rattle.bench_merge.specs.Heads.{IsHeadOf, UpTo, is_late, lesser};

use bench_item::Series;
use std::alloc::{AllocError, Global};

/// Where a stamp stands: in which part, and at which place there, both from 0.
#[derive(Clone, Copy)]
pub struct Placed {
    pub stamp: u64,
    pub part: usize,
    pub place: usize,
}

/// The next stamp of a part, if one is left.
fn head_of(parts: &[Series<u64>], heads: &[usize], part: usize) -> Option<Placed>
    requires part { part < length parts.now }
    requires each { length heads.now ≡ length parts.now }
    ensures { MatchOption result (length (stamps_at parts.now part) ≤ slice_index heads.now part)
        (IsHeadOf parts.now heads.now part) }
{
    let place = heads[part];
    let stamps = parts[part].as_slice();
    if place >= stamps.len() {
        return None;
    }
    Some(Placed {
        stamp: stamps[place],
        part,
        place,
    })
}

/// The one with the lesser stamp; the first of two that are the same.
fn lesser(found: Option<Placed>, head: Option<Placed>) -> Option<Placed>
    ensures { result ≡ lesser found head }
{
    match (found, head) {
        (None, head) => head,
        (found, None) => found,
        (Some(found), Some(head)) => {
            if head.stamp < found.stamp {
                Some(head)
            } else {
                Some(found)
            }
        }
    }
}

/// The least of the next stamps, if one is left.
fn least(parts: &[Series<u64>], heads: &[usize]) -> Option<Placed>
    requires { length heads.now ≡ length parts.now }
    ensures { UpTo parts.now heads.now (length parts.now) result }
{
    let mut found = None;
    for part in 0..parts.len() {
        found = lesser(found, head_of(parts, heads, part));
    }
    found
}

/// Whether a stamp is not above the last one.
fn is_late(last: Option<Placed>, next: Placed) -> bool
    ensures { result ≡ is_late last next }
{
    match last {
        None => false,
        Some(last) => next.stamp <= last.stamp,
    }
}

/// The stamps of all parts in the order in which they rise;
/// none where a part's own don't rise, or two parts have one in common.
pub fn merge(alloc: Global, parts: &[Series<u64>]) -> Result<Option<Vec<Placed>>, AllocError>
    ensures { IfOk result (λ order. Merges parts.now (option_map (λ o. o.items) order)) }
{
    let mut heads = vec![in alloc; 0usize; parts.len()]?;
    let mut order = Vec::new(alloc);
    let mut last = None;
    while let Some(next) = least(parts, &heads) {
        if is_late(last, next) {
            return Ok(None);
        }
        order.push(next)?;
        heads[next.part] = next.place + 1;
        last = Some(next);
    }
    Ok(Some(order))
}
