//! The tests: each tries one case.

use crate::calls::tried;
use crate::case::Case;
use std::test::Fail;

#[test]
fn a_worker_waits_for_another(rt: HostRuntime) -> Result<(), Fail> {
    tried(&rt, rt.alloc(), Case::Other)
}

#[test]
fn two_workers_are_after_work_at_once(rt: HostRuntime) -> Result<(), Fail> {
    tried(&rt, rt.alloc(), Case::Both)
}

#[test]
fn what_was_told_waits_and_then_was_handled(rt: HostRuntime) -> Result<(), Fail> {
    tried(&rt, rt.alloc(), Case::Paused)
}

#[test]
fn stamps_rise_where_two_desks_tell_at_once(rt: HostRuntime) -> Result<(), Fail> {
    tried(&rt, rt.alloc(), Case::Crowd)
}

#[test]
fn stamps_rise_where_shards_and_desks_meet(rt: HostRuntime) -> Result<(), Fail> {
    tried(&rt, rt.alloc(), Case::Crossing)
}

#[test]
fn each_item_wakes_its_worker(rt: HostRuntime) -> Result<(), Fail> {
    tried(&rt, rt.alloc(), Case::Turns)
}

#[test]
fn an_item_waits_in_the_hand_for_room(rt: HostRuntime) -> Result<(), Fail> {
    tried(&rt, rt.alloc(), Case::Full)
}
