//! A port that is full keeps what was read in the pipe.

use crate::board::Board;
use crate::devices::{Pieces, Slate};
use base_device::Counting;
use bench_net::{Pipe, PumpCode, PumpFault, Pumped, lose, pump};

static SEVENS: [u8; 600] = [7; 600];

const TEXT: &[u8] = b"0123456789abcdefghijklmnopqrstuvwxyz";

/// Whether a port that takes two pieces of 10 octets keeps the third in the pipe,
/// sends back what it heard all the same, and gets the third first once there is room.
fn keeps_a_piece() -> bool {
    let mut board = Board::new(2);
    let mut pipe = Pipe::new();
    let mut source = Counting::new(Pieces::new(TEXT, 10));
    let mut sink = Counting::new(Slate::new(100));
    let first = pump(&mut board, &mut pipe, &mut source, &mut sink);
    let full = PumpFault {
        code: PumpCode::Full,
        read: 30,
        written: 20,
    };
    let held = first == Err(full)
        && pipe.is_waiting()
        && board.octets() == b"0123456789abcdefghij".as_slice()
        && sink.device.octets() == board.octets();
    let again = pump(&mut board, &mut pipe, &mut source, &mut sink);
    let idle = PumpFault {
        code: PumpCode::Full,
        read: 0,
        written: 0,
    };
    let unread = again == Err(idle) && source.reads == 3;
    board.room = 100;
    let last = pump(&mut board, &mut pipe, &mut source, &mut sink);
    held && unread
        && last
            == Ok(Pumped {
                read: 6,
                written: 16,
            })
        && !pipe.is_waiting()
        && pipe.out() == 36
        && board.pieces == 4
        && board.octets() == TEXT
        && sink.device.octets() == TEXT
}

/// Whether the loss waits too, behind a piece or by itself, and is told once.
fn keeps_a_loss(room: usize) -> bool {
    let mut board = Board::new(room);
    let mut pipe = Pipe::new();
    let mut pieces = Pieces::new(TEXT, 10);
    pieces.ends = true;
    let mut source = Counting::new(pieces);
    let mut sink = Counting::new(Slate::new(100));
    let first = pump(&mut board, &mut pipe, &mut source, &mut sink);
    lose(&mut board, &mut pipe);
    let held = pipe.is_waiting() && first.is_err() && board.lost == 0;
    board.room = 100;
    let last = pump(&mut board, &mut pipe, &mut source, &mut sink);
    held && last.is_ok() && !pipe.is_waiting() && board.lost == 1
}

/// Whether what finds no memory is kept, and a board without room for it never gets it.
fn keeps_without_memory() -> bool {
    let mut board = Board::new(100);
    let mut pipe = Pipe::new();
    let mut source = Counting::new(Pieces::new(&SEVENS, 500));
    let mut sink = Counting::new(Slate::new(100));
    let first = pump(&mut board, &mut pipe, &mut source, &mut sink);
    let fault = PumpFault {
        code: PumpCode::NoMemory,
        read: 600,
        written: 500,
    };
    first == Err(fault) && pipe.is_waiting() && board.octets().len() == 500
}

#[test]
fn what_is_refused_is_kept(rt: HostRuntime) {
    assert!(rt; keeps_a_piece(), "piece");
    // The second or the fourth piece waits, and then the loss; or the loss alone.
    assert!(rt; keeps_a_loss(1), "piece and loss");
    assert!(rt; keeps_a_loss(3), "last piece and loss");
    assert!(rt; keeps_a_loss(4), "loss");
    assert!(rt; keeps_without_memory(), "memory");
}
