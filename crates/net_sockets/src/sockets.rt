//! All sockets of a bench, and their event loop.
#![tactic(auto, using(crate::proofs::TurnLemmas::turning))]

ghost use Rattle.std.specs.Prelude.{◌≡◌, IfOk};
ghost use Rattle.net_sockets.specs.declared.sockets.SocketsFault.TheVariants.{NoMemory, Refused};
ghost use Rattle.net_sockets.specs.Turns.{Turned};
ghost use Rattle.slab.specs.Slab.{HasRoomFor};

use crate::node::{Node, OnLine};
use crate::serve::serve;
use crate::socket::{Socket, Stand};
use mio::net::{TcpListener, TcpStream};
use mio::{Events, Interest, Poll, Token, Waker};
use slab::Slab;
use std::alloc::{AllocError, Global};
use std::io;
use std::io::ErrorKind;
use std::net::{Net, SocketAddr};
use std::time::Duration;
use thiserror::Error;

/// How many events are taken up in a turn.
const EVENTS: usize = 1_024;

/// How many connections are accepted, and how many dialled, in a turn.
const OPENINGS: u32 = 1_024;

/// The listening socket's name in events; the other sockets are named by their places.
const LISTENER: Token = Token(usize::MAX);

/// The waker's name in events. No socket stands at such a place, so its event wakes none: it ends a wait, and no more.
const WAKER: Token = Token(usize::MAX - 1);

/// Why the loop can't go on.
#[derive(Clone, Copy, Debug, PartialEq, Eq, Error)]
pub enum SocketsFault {
    /// The system refused to listen or to wait.
    #[error("the system refused a socket")]
    Refused,
    #[error("out of memory")]
    NoMemory,
}

impl From<AllocError> for SocketsFault {
    ghost from_gives = { λ _ e. e ≡ NoMemory };

    fn from(_e: AllocError) -> SocketsFault {
        SocketsFault::NoMemory
    }
}

impl From<io::Error> for SocketsFault {
    ghost from_gives = { λ _ e. e ≡ Refused };

    fn from(_e: io::Error) -> SocketsFault {
        SocketsFault::Refused
    }
}

/// All sockets of a bench. Each has a line; the bench answers for the lines.
#[derive(Drop)]
pub struct Sockets<N> {
    /// The bench, and the line that was served last.
    pub port: OnLine<N>,
    poll: Poll,
    events: Events,
    listener: Option<TcpListener>,
    is_accepting: bool,
    sockets: Slab<Socket>,
}

/// Sockets without the bench behind them. Until there is one again, nothing is read, written or accepted.
#[derive(Drop)]
pub struct Bare {
    poll: Poll,
    events: Events,
    listener: Option<TcpListener>,
    is_accepting: bool,
    sockets: Slab<Socket>,
}

impl Bare {
    /// What ends the wait of a turn from another thread; a call while none waits ends the next wait.
    pub fn waker(&self) -> Result<Waker, SocketsFault> {
        Ok(Waker::new(self.poll.registry(), WAKER)?)
    }

    /// That bench stands behind them. Its lines are to have the numbers that those of the bench before have.
    pub fn with<N>(self, node: N) -> Sockets<N>
        ensures node { result.port.node ≡ node }
        ensures poll { (result.poll ≡ self.poll) × (result.events ≡ self.events) }
        ensures listener { (result.listener ≡ self.listener) × (result.is_accepting ≡ self.is_accepting) }
        ensures sockets { result.sockets ≡ self.sockets }
    {
        let Bare {
            poll,
            events,
            listener,
            is_accepting,
            sockets,
        } = self;
        Sockets {
            port: OnLine { node, line: 0 },
            poll,
            events,
            listener,
            is_accepting,
            sockets,
        }
    }
}

impl<N> Sockets<N> {
    /// The bench behind the sockets, and these without it.
    pub fn apart(self) -> (N, Bare)
        ensures node { result.0 ≡ self.port.node }
        ensures poll { (result.1.poll ≡ self.poll) × (result.1.events ≡ self.events) }
        ensures listener { (result.1.listener ≡ self.listener) × (result.1.is_accepting ≡ self.is_accepting) }
        ensures sockets { result.1.sockets ≡ self.sockets }
    {
        let Sockets {
            port,
            poll,
            events,
            listener,
            is_accepting,
            sockets,
        } = self;
        let OnLine { node, line: _ } = port;
        let bare = Bare {
            poll,
            events,
            listener,
            is_accepting,
            sockets,
        };
        (node, bare)
    }
}

impl<N: Node> Sockets<N> {
    /// No sockets but the one that listens at that address, where one is given.
    pub fn new<R: Net>(
        rt: &R,
        alloc: Global,
        node: N,
        address: Option<SocketAddr>,
    ) -> Result<Sockets<N>, SocketsFault>
    where
        N: Drop,
        ensures { IfOk result (λ sockets. sockets.port.node ≡ node) }
    {
        let poll = Poll::new(rt)?;
        let listener = listen(rt, &poll, address)?;
        Ok(Sockets {
            port: OnLine { node, line: 0 },
            poll,
            events: Events::with_capacity(alloc, EVENTS)?,
            listener,
            is_accepting: true,
            sockets: Slab::new(alloc),
        })
    }

    /// The bench behind the sockets.
    pub fn node(&self) -> &N
        ensures { result.now ≡ self.now.port.node }
    {
        &self.port.node
    }

    /// Where it listens, if it does.
    pub fn address(&self) -> Option<SocketAddr> {
        match &self.listener {
            Some(listener) => listener.local_addr().ok(),
            None => None,
        }
    }

    /// How many sockets there are, but for the one that listens.
    pub fn count(&self) -> usize {
        self.sockets.len()
    }

    /// Makes turns until the bench says that it is over, at most so many, and says how many were made. A turn waits at
    /// most so long.
    pub fn run<R: Net>(&mut self, rt: &R, turns: u64, wait: Duration) -> Result<u64, SocketsFault>
        ensures { Turned N.takes N.moves self.old.port.node self.new.port.node }
    {
        for turn in 0..turns {
            if self.port.node.is_over() {
                return Ok(turn);
            }
            self.turn(rt, wait)?;
        }
        Ok(turns)
    }

    /// Makes one turn: dials what is to be dialled, waits at most so long for something to happen, accepts, and serves
    /// each socket.
    pub fn turn<R: Net>(&mut self, rt: &R, wait: Duration) -> Result<(), SocketsFault>
        ensures { Turned N.takes N.moves self.old.port.node self.new.port.node }
    {
        self.dial_all(rt);
        self.poll.poll(&mut self.events, Some(wait))?;
        if wake_all(&self.events, &mut self.sockets) {
            self.is_accepting = true;
        }
        self.accept_all();
        self.serve_all();
        Ok(())
    }

    // Begins each dial that is to be made, as long as there is memory. One that can't begin is lost.
    fn dial_all<R: Net>(&mut self, rt: &R)
        ensures { Turned N.takes N.moves self.old.port.node self.new.port.node }
    {
        for _ in 0..OPENINGS {
            if self.sockets.reserve(1).is_err() {
                return;
            }
            let Some(dial) = self.port.node.next_dial() else {
                return;
            };
            let stand = match TcpStream::connect(rt, dial.address) {
                Ok(stream) => Stand::Dialling(stream),
                Err(_) => Stand::Gone,
            };
            add(&self.poll, &mut self.sockets, Socket::new(dial.line, stand));
        }
    }

    // Accepts a connection that waits, if one does, and there is memory. One that the bench doesn't want closes. Says
    // whether another may wait.
    fn accept(&mut self) -> bool
        ensures { Turned N.takes N.moves self.old.port.node self.new.port.node }
    {
        if !self.is_accepting || self.sockets.reserve(1).is_err() {
            return false;
        }
        let Some(listener) = &self.listener else {
            return false;
        };
        match listener.accept() {
            Ok((stream, _)) => {
                if let Some(line) = self.port.node.joined() {
                    let socket = Socket::new(line, Stand::Open(stream));
                    add(&self.poll, &mut self.sockets, socket);
                }
                true
            }
            Err(error) => {
                self.is_accepting = error.kind() != ErrorKind::WouldBlock;
                self.is_accepting
            }
        }
    }

    // Accepts the connections that wait, as long as there is memory.
    fn accept_all(&mut self)
        ensures { Turned N.takes N.moves self.old.port.node self.new.port.node }
    {
        for _ in 0..OPENINGS {
            if !self.accept() {
                return;
            }
        }
    }

    // Serves each socket, and takes those away that are done with.
    fn serve_all(&mut self)
        ensures { Turned N.takes N.moves self.old.port.node self.new.port.node }
    {
        for key in 0..self.sockets.capacity() {
            let is_kept = match self.sockets.get_mut(key) {
                Some(socket) => serve(&mut self.port, socket),
                None => true,
            };
            if !is_kept {
                let _ = self.sockets.try_remove(key);
            }
        }
    }
}

// Listens at an address, where one is given.
fn listen<R: Net>(
    rt: &R,
    poll: &Poll,
    address: Option<SocketAddr>,
) -> io::Result<Option<TcpListener>> {
    let Some(address) = address else {
        return Ok(None);
    };
    let mut listener = TcpListener::bind(rt, address)?;
    poll.registry()
        .register(&mut listener, LISTENER, Interest::READABLE)?;
    Ok(Some(listener))
}

// Puts a socket behind its place's name. One that the system doesn't watch is gone.
fn add(poll: &Poll, sockets: &mut Slab<Socket>, mut socket: Socket)
    requires { HasRoomFor sockets.old 1 }
{
    let token = Token(sockets.vacant_key());
    let is_watched = match &mut socket.stand {
        Stand::Dialling(stream) => watch(poll, stream, token),
        Stand::Open(stream) => watch(poll, stream, token),
        Stand::Gone => true,
    };
    if !is_watched {
        socket.stand = Stand::Gone;
    }
    sockets.insert_reserved(socket);
}

// Whether the system watches a socket from here on.
fn watch(poll: &Poll, stream: &mut TcpStream, token: Token) -> bool {
    let both = Interest::READABLE | Interest::WRITABLE;
    poll.registry().register(stream, token, both).is_ok()
}

// Wakes the sockets to which something happened, and says whether a connection waits to be accepted.
fn wake_all(events: &Events, sockets: &mut Slab<Socket>) -> bool {
    let mut is_joined = false;
    for event in events.iter() {
        let token = event.token();
        if token == LISTENER {
            is_joined = true;
        } else if let Some(socket) = sockets.get_mut(token.0) {
            socket.wake();
        }
    }
    is_joined
}
