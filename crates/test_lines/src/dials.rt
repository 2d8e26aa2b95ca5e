//! Connections that are dialled, lost and taken back, and what is refused.

use crate::node::{connections, joined, lifted};
use bench_item::{LineState, StepFault};
use bench_line::Lines;
use line_message::Listener;
use std::alloc::Global;
use std::test::Fail;

/// Whether a connection is closed.
fn is_closed(lines: &Lines<Listener>, line: u64) -> bool {
    matches!(lines.state(line), Some(LineState::Closed))
}

/// The first message of an accepted connection is no CER: it closes, and is then neither lost nor heard.
fn is_closed_for_good(alloc: Global) -> Result<bool, Fail> {
    let mut lines = connections(alloc)?;
    let words = "0100003880000118000000000000000100000001 peer";
    let first = lines.joined();
    let came = lines.came(1, joined(alloc, words)?.as_slice());
    let is_quiet = came.is_ok_and(|came| came.posted == 0 && came.ended.is_none());
    let lost = lines.lost(1).err();
    let unknown = lines.lost(2).err();
    let again = lines.came(1, b"").err();
    Ok(
        matches!(first, Ok(1))
            && is_quiet
            && is_closed(&lines, 1)
            && lines.sent(1).is_empty()
            && matches!(lost, Some(StepFault::Closed))
            && matches!(unknown, Some(StepFault::Unknown))
            && matches!(again, Some(StepFault::Closed)),
    )
}

/// A dial that is acknowledged, and lost; another that is refused.
fn is_dialled(alloc: Global) -> Result<bool, Fail> {
    let mut lines = connections(alloc)?;
    let numbers = (lines.dial(4096, 3), lines.dial(4096, 4));
    let early = lines.came(1, b"").err();
    let first = lines.dialled(1).is_ok();
    let twice = lines.dialled(1).err();
    let gone = lines.lost(1).is_ok() && lines.lost(2).is_ok();
    let text = lifted(alloc, &mut lines, 1)?;
    let other = lifted(alloc, &mut lines, 2)?;
    Ok(
        matches!(numbers, (Ok(1), Ok(2)))
            && matches!(early, Some(StepFault::Closed))
            && first
            && matches!(twice, Some(StepFault::Nothing))
            && gone
            && text.as_slice()
                == b"told 0 p:c.example I-Rcv-Conn-Ack 0=4096 1=1 if 2=3\n\
                    told 0 p:c.example I-Peer-Disc 0=4096 1=1 if 0=1\n"
                    .as_slice()
            && other.as_slice()
                == b"told 0 p:c.example I-Rcv-Conn-Nack 0=4096 1=2 if 2=4\n".as_slice(),
    )
}

/// A CER in two pieces.
const FRONT: &str = "0100006c80000101000000000000000100000001 peer";

const REST: &str = "address vendor product credit";

/// A lift that is taken back leaves the item waiting.
fn is_unlifted(lines: &mut Lines<Listener>) -> bool {
    let lift = lines.lift(1);
    let none_waits = lines.next(1).is_none();
    lines.take_back(lift);
    none_waits && lines.next(1).is_some()
}

/// A piece that completes no message is taken back, and may come again.
fn is_front_again(lines: &mut Lines<Listener>, piece: &[u8]) -> bool {
    let Ok(came) = lines.came(1, piece) else {
        return false;
    };
    let is_quiet = came.posted == 0 && came.ended.is_none();
    lines.take_back(came.change);
    is_quiet && lines.came(1, piece).is_ok()
}

/// A piece that is taken back may come again, and posts the same.
fn is_taken_back(lines: &mut Lines<Listener>, piece: &[u8]) -> bool {
    let Ok(came) = lines.came(1, piece) else {
        return false;
    };
    let is_unlifted = is_unlifted(lines);
    lines.take_back(came.change);
    let none_waits = lines.next(1).is_none();
    match lines.came(1, piece) {
        Ok(again) => is_unlifted && none_waits && again.posted == 1 && came.posted == 1,
        Err(_) => false,
    }
}

/// Whether the second piece of a CER is taken back and comes again.
fn is_cer_again(alloc: Global) -> Result<bool, Fail> {
    let mut lines = connections(alloc)?;
    let first = lines.joined();
    let is_front = is_front_again(&mut lines, joined(alloc, FRONT)?.as_slice());
    let is_again = is_taken_back(&mut lines, joined(alloc, REST)?.as_slice());
    let text = lifted(alloc, &mut lines, 1)?;
    Ok(
        matches!(first, Ok(1))
            && is_front
            && is_again
            && text.as_slice()
                == b"told 0 p:c.example R-Conn-CER 0=4096 1=1 2=1 3=1 5=1\n".as_slice(),
    )
}

#[test]
fn a_first_message_that_is_no_cer_closes(rt: HostRuntime) -> Result<(), Fail> {
    let holds = is_closed_for_good(rt.alloc())?;
    assert!(rt; holds);
    Ok(())
}

#[test]
fn dials_are_acknowledged_lost_and_refused(rt: HostRuntime) -> Result<(), Fail> {
    let holds = is_dialled(rt.alloc())?;
    assert!(rt; holds);
    Ok(())
}

#[test]
fn what_came_is_taken_back(rt: HostRuntime) -> Result<(), Fail> {
    let holds = is_cer_again(rt.alloc())?;
    assert!(rt; holds);
    Ok(())
}
