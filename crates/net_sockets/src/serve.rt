//! What is done for one socket in a turn.
#![tactic(auto, using(crate::proofs::TurnLemmas::turning))]

ghost use Rattle.net_sockets.specs.Turns.{Turned};

use crate::node::{Node, OnLine};
use crate::socket::{Socket, Stand};
use base_device::Counting;
use bench_net::{Pipe, Port, PumpCode, PumpFault, Refusal, lose, pump};
use mio::net::TcpStream;

/// What becomes of a socket.
#[derive(Clone, Copy, PartialEq, Eq)]
pub(crate) enum Fate {
    /// It stays.
    Stays,
    /// Its dial was acknowledged.
    Opens,
    /// It is lost, and its line was told, or will be.
    Lost,
    /// It is done with.
    Closes,
}

// Whether a line has sent what isn't out yet.
fn has_unsent<N: Node>(port: &OnLine<N>, pipe: &Pipe) -> bool {
    let mut buffer = [0u8; 1];
    port.unsent(pipe.out(), &mut buffer) > 0
}

// A dial: acknowledged, refused, or neither yet.
fn answer_dial<N: Node>(port: &mut OnLine<N>, pipe: &mut Pipe, stream: &TcpStream) -> Fate
    ensures { Turned N.takes N.moves port.old.node port.new.node }
{
    let is_refused = !matches!(stream.take_error(), Ok(None));
    if is_refused {
        lose(port, pipe);
        return Fate::Lost;
    }
    if stream.peer_addr().is_err() {
        return Fate::Stays;
    }
    let line = port.line;
    match port.node.dialled(line) {
        Ok(()) => Fate::Opens,
        Err(Refusal::Full) | Err(Refusal::NoMemory) => Fate::Stays,
        Err(Refusal::Unknown) | Err(Refusal::Closed) => Fate::Closes,
    }
}

// Whether reading or writing may come to something.
fn is_due<N: Node>(port: &OnLine<N>, socket: &Socket) -> bool {
    socket.is_ready
        || socket.pipe.is_waiting()
        || (!socket.is_blocked && has_unsent(port, &socket.pipe))
}

// Where a call of `pump` leaves a socket.
fn fate_of(outcome: Result<(), PumpCode>) -> Fate {
    match outcome {
        Ok(()) | Err(PumpCode::Full) | Err(PumpCode::NoMemory) => Fate::Stays,
        Err(PumpCode::ReadFault) | Err(PumpCode::WriteFault) | Err(PumpCode::TurnsOver) => {
            Fate::Lost
        }
    }
}

// Reads and writes.
fn carry<N: Node>(port: &mut OnLine<N>, pipe: &mut Pipe, stream: &TcpStream) -> Result<(), PumpCode>
    ensures { Turned N.takes N.moves port.old.node port.new.node }
{
    let mut source = Counting::new(stream);
    let mut sink = Counting::new(stream);
    match pump(port, pipe, &mut source, &mut sink) {
        Ok(_) => Ok(()),
        Err(PumpFault { code, .. }) => Err(code),
    }
}

// Whether a line is closed and all that it sent is out.
fn is_done<N: Node>(port: &OnLine<N>, pipe: &Pipe) -> bool {
    port.node.is_closed(port.line) && !has_unsent(port, pipe)
}

// Reads and writes an open socket.
fn carry_open<N: Node>(port: &mut OnLine<N>, socket: &mut Socket) -> Fate
    ensures { Turned N.takes N.moves port.old.node port.new.node }
{
    let outcome = match &socket.stand {
        Stand::Open(stream) => carry(port, &mut socket.pipe, stream),
        Stand::Dialling(_) | Stand::Gone => Ok(()),
    };
    socket.is_ready = outcome.is_err();
    socket.is_blocked = outcome.is_ok() && has_unsent(port, &socket.pipe);
    fate_of(outcome)
}

// A socket that is open: it is read and written where that may come to something, and closes once its line is done.
fn serve_open<N: Node>(port: &mut OnLine<N>, socket: &mut Socket) -> Fate
    ensures { Turned N.takes N.moves port.old.node port.new.node }
{
    let fate = if is_due(port, socket) {
        carry_open(port, socket)
    } else {
        Fate::Stays
    };
    if fate == Fate::Stays && is_done(port, &socket.pipe) {
        return Fate::Closes;
    }
    fate
}

// What is done for a socket, as it stands.
fn serve_once<N: Node>(port: &mut OnLine<N>, socket: &mut Socket) -> Fate
    ensures { Turned N.takes N.moves port.old.node port.new.node }
{
    match &socket.stand {
        Stand::Gone => {
            lose(port, &mut socket.pipe);
            Fate::Lost
        }
        Stand::Dialling(stream) => answer_dial(port, &mut socket.pipe, stream),
        Stand::Open(_) => serve_open(port, socket),
    }
}

/// Serves a socket, and says whether it is kept.
pub(crate) fn serve<N: Node>(port: &mut OnLine<N>, socket: &mut Socket) -> bool
    ensures { Turned N.takes N.moves port.old.node port.new.node }
{
    port.line = socket.line;
    match serve_once(port, socket) {
        Fate::Stays => true,
        Fate::Opens => {
            socket.open();
            socket.wake();
            true
        }
        Fate::Lost => {
            socket.stand = Stand::Gone;
            socket.pipe.is_waiting()
        }
        Fate::Closes => false,
    }
}
