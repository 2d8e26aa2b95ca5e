//! A node lives, in one thread or in several.
#![tactic(auto, using(bench_node::proofs::GoingLemmas::goes_same))]

ghost use Rattle.std.specs.Prelude.{◌≡◌, IfSome};

use crate::threads::{live_in_threads, threads_of};
use live_turns::{Lived, Living, live_in_turns};
use std::alloc::{AllocError, Global};
use std::io::Write;
use std::net::Net;
use std::rt::Clock;
use std::sync::Wait;
use std::thread::Threads;

/// Makes the turns of a node, with callbacks of its own, in one thread or in several; where it is watched, its lines
/// are written to `terminal`. Its world is then one of the bench that it was. None where there is no memory for the
/// callbacks.
pub fn live_one<R: Net + Threads + Wait + Clock + Copy + Send + 'static, W: Write + Drop>(
    rt: &R,
    alloc: Global,
    terminal: W,
    living: Living,
) -> Option<Lived>
    ensures { IfSome result (λ lived. lived.core.settings ≡ living.sockets.port.node.node.settings) }
{
    if threads_of(&living) > 0 {
        return live_in_threads(rt, alloc, living).ok();
    }
    match live_in_turns(rt, alloc, terminal, living) {
        Ok(lived) => Some(lived),
        Err(AllocError) => None,
    }
}
