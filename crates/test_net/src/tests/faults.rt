//! Each read and each write failing in turn, turns that run out, and the end of the input.

use crate::board::Board;
use crate::devices::{Pieces, Slate};
use base_device::Counting;
use bench_net::{Pipe, PumpCode, PumpFault, Pumped, pump};
use std::io::ErrorKind;

/// A Device-Watchdog-Request of 56 octets.
const TEXT: &[u8] = b"\x01\x00\x008\x80\x00\x01\x18\x00\x00\x00\x00\x00\x00\x00\x01\x00\x00\x00\x01\
\x00\x00\x01\x08@\x00\x00\x11a.example\x00\x00\x00\x00\x00\x01(@\x00\x00\x0fexample\x00";

/// What one call leaves.
#[derive(Drop)]
struct Left {
    outcome: Result<Pumped, PumpFault>,
    board: Board,
    sink: Counting<Slate>,
    source: Counting<Pieces>,
}

/// One call over a board that takes so many pieces.
fn pumped(room: usize, pieces: Pieces, slate: Slate) -> Left {
    let mut board = Board::new(room);
    let mut pipe = Pipe::new();
    let mut source = Counting::new(pieces);
    let mut sink = Counting::new(slate);
    let outcome = pump(&mut board, &mut pipe, &mut source, &mut sink);
    Left {
        outcome,
        board,
        sink,
        source,
    }
}

/// Whether a front of the text of that length came, and one was sent back, and the port was told of the loss so often.
fn has_left(left: &Left, read: usize, written: usize, lost: usize) -> bool {
    TEXT.get(..read) == Some(left.board.octets())
        && TEXT.get(..written) == Some(left.sink.device.octets())
        && left.board.lost == lost
}

/// A call that ended before all was done.
fn fault(code: PumpCode, read: u64, written: u64) -> Result<Pumped, PumpFault> {
    Err(PumpFault {
        code,
        read,
        written,
    })
}

/// Whether the reading call of that number, in pieces of 7 octets, fails.
fn fails_at_read(call: usize) -> bool {
    let mut pieces = Pieces::new(TEXT, 7);
    pieces.first = call;
    pieces.last = call;
    let left = pumped(100, pieces, Slate::new(9));
    let read = call.saturating_sub(1).min(8) * 7;
    left.outcome == fault(PumpCode::ReadFault, read as u64, 0)
        && has_left(&left, read, 0, 1)
        && left.source.failures == 1
}

/// Whether the writing call of that number, of 9 octets at most, fails.
fn fails_at_write(call: usize) -> bool {
    let mut slate = Slate::new(9);
    slate.first = call;
    slate.last = call;
    let left = pumped(100, Pieces::new(TEXT, 7), slate);
    let written = call.saturating_sub(1).min(6) * 9;
    left.outcome == fault(PumpCode::WriteFault, 56, written as u64)
        && has_left(&left, 56, written, 1)
        && left.sink.failures == 1
}

#[test]
fn each_read_fails_in_turn(rt: HostRuntime) {
    for call in 1..9 {
        assert!(rt; fails_at_read(call), "read {call}");
    }
}

#[test]
fn each_write_fails_in_turn(rt: HostRuntime) {
    for call in 1..8 {
        assert!(rt; fails_at_write(call), "write {call}");
    }
}

/// Whether 65,536 reads that are interrupted are too many turns.
fn runs_out() -> bool {
    let mut pieces = Pieces::new(TEXT, 7);
    pieces.first = 2;
    pieces.last = 100_000;
    pieces.error = ErrorKind::Interrupted;
    let left = pumped(100, pieces, Slate::new(9));
    left.outcome == fault(PumpCode::TurnsOver, 7, 0)
        && has_left(&left, 7, 0, 1)
        && left.source.reads == 65_536
        && left.source.failures == 0
}

/// Whether two reads and a write that are interrupted do no harm.
fn is_interrupted() -> bool {
    let mut pieces = Pieces::new(TEXT, 7);
    pieces.first = 2;
    pieces.last = 3;
    pieces.error = ErrorKind::Interrupted;
    let mut slate = Slate::new(9);
    slate.first = 3;
    slate.last = 3;
    slate.error = ErrorKind::Interrupted;
    let left = pumped(100, pieces, slate);
    left.outcome
        == Ok(Pumped {
            read: 56,
            written: 56,
        })
        && has_left(&left, 56, 56, 0)
        && left.sink.writes == 8
}

/// Whether the end of the input is told, and what was sent goes out.
fn ends() -> bool {
    let mut pieces = Pieces::new(TEXT, 60);
    pieces.ends = true;
    let left = pumped(100, pieces, Slate::new(100));
    left.outcome
        == Ok(Pumped {
            read: 56,
            written: 56,
        })
        && has_left(&left, 56, 56, 1)
        && left.source.reads == 2
}

#[test]
fn calls_end(rt: HostRuntime) {
    assert!(rt; runs_out(), "turns");
    assert!(rt; is_interrupted(), "interrupted");
    assert!(rt; ends(), "end");
    for (code, number) in [
        (PumpCode::ReadFault, 1),
        (PumpCode::WriteFault, 2),
        (PumpCode::TurnsOver, 3),
        (PumpCode::Full, 4),
        (PumpCode::NoMemory, 5),
    ] {
        assert!(rt; code.number() == number, "{number}");
    }
}
