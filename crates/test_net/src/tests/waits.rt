//! A sink that takes nothing for now.

use crate::board::Board;
use crate::devices::{Pieces, Slate};
use base_device::Counting;
use bench_net::{Pipe, Pumped, pump};
use std::io::ErrorKind;

const TEXT: &[u8] = b"0123456789abcdefghijklmnopqrstuvwxyz";

/// Whether a sink that takes nothing from its third call on gets the rest later, each octet once.
fn waits_to_write() -> bool {
    let mut board = Board::new(100);
    let mut pipe = Pipe::new();
    let mut source = Counting::new(Pieces::new(TEXT, 50));
    let mut slate = Slate::new(10);
    slate.first = 3;
    slate.last = 4;
    slate.error = ErrorKind::WouldBlock;
    let mut sink = Counting::new(slate);
    let first = pump(&mut board, &mut pipe, &mut source, &mut sink);
    let second = pump(&mut board, &mut pipe, &mut source, &mut sink);
    let third = pump(&mut board, &mut pipe, &mut source, &mut sink);
    first
        == Ok(Pumped {
            read: 36,
            written: 20,
        })
        && second
            == Ok(Pumped {
                read: 0,
                written: 0,
            })
        && third
            == Ok(Pumped {
                read: 0,
                written: 16,
            })
        && sink.blocked == 2
        && source.blocked == 3
        && sink.device.octets() == TEXT
        && board.lost == 0
}

#[test]
fn a_sink_waits(rt: HostRuntime) {
    assert!(rt; waits_to_write(), "sink");
}
