//! The tests: each tries one case.

use crate::calls::tried;
use crate::case::Case;
use std::test::Fail;

#[test]
fn what_is_fed_is_kept(rt: HostRuntime) -> Result<(), Fail> {
    tried(&rt, rt.alloc(), Case::Fed)
}

#[test]
fn two_clients_charge_one_account(rt: HostRuntime) -> Result<(), Fail> {
    tried(&rt, rt.alloc(), Case::Charged)
}

#[test]
fn a_connection_is_lost_after_half_a_request(rt: HostRuntime) -> Result<(), Fail> {
    tried(&rt, rt.alloc(), Case::CutShort)
}
