//! What is read of a socket comes on a node's connection: devices of memory stand for the socket.
ghost use Rattle.std.specs.Prelude.{◌≡◌};
ghost use Rattle.std.specs.List.{AllByRecursion as Each};
ghost use Rattle.role_tables.specs.Roles.{all_laws};

use crate::pair::{Side, opened};
use base_device::Counting;
use base_text::put_number;
use bench_net::{Pipe, Pumped, pump};
use bench_setup::{Setup, WithCalls};
use net_sockets::{Node, OnLine};
use node_port::NodePort;
use std::alloc::{AllocError, Global};
use std::io;
use std::io::{ErrorKind, Read, Write};
use tab_call::Registry;

/// Octets that are read, and then nothing for now.
#[derive(Drop)]
struct Given<'a> {
    octets: &'a [u8],
}

impl Read for Given<'_> {
    fn read(&mut self, buffer: &mut [u8]) -> io::Result<usize> {
        if self.octets.is_empty() {
            return Err(io::Error::from(ErrorKind::WouldBlock));
        }
        let count = self.octets.len().min(buffer.len());
        buffer[..count].copy_from_slice(&self.octets[..count]);
        self.octets = &self.octets[count..];
        Ok(count)
    }
}

/// Takes all that is written.
#[derive(Clone, Copy, Drop)]
struct Taken;

impl Write for Taken {
    fn write(&mut self, octets: &[u8]) -> io::Result<usize> {
        Ok(octets.len())
    }

    fn flush(&mut self) -> io::Result<()> {
        Ok(())
    }
}

/// Octets come on a connection that a node accepts.
#[derive(Drop)]
pub struct Heard {
    pub alloc: Global,
    pub server: Setup,
    pub octets: Vec<u8>,
}

/// How many octets were read and written in one call, and whether the connection is closed.
fn put_outcome(alloc: Global, pumped: Pumped, is_closed: bool) -> Result<Vec<u8>, AllocError> {
    let mut row = Vec::new(alloc);
    put_number(&mut row, b"read ", pumped.read)?;
    put_number(&mut row, b" written ", pumped.written)?;
    row.extend_from_slice(if is_closed { b" closed\n" } else { b" open\n" })?;
    Ok(row)
}

/// One call of `pump` over a connection that a node accepts.
fn hear(heard: Heard, registries: &[Registry]) -> Result<Vec<u8>, AllocError>
    requires { Each (λ r. r.book ≡ all_laws) registries.now }
{
    let Heard {
        alloc,
        server,
        octets,
    } = heard;
    let Side { live, .. } = opened(alloc, registries, server, None, 2)?;
    let mut node = NodePort { node: live };
    let Some(line) = node.joined() else {
        return Err(AllocError);
    };
    let mut port = OnLine { node, line };
    let mut pipe = Pipe::new();
    let mut source = Counting::new(Given { octets: &octets });
    let mut sink = Counting::new(Taken);
    match pump(&mut port, &mut pipe, &mut source, &mut sink) {
        Ok(pumped) => put_outcome(alloc, pumped, port.node.is_closed(line)),
        Err(_) => Err(AllocError),
    }
}

impl WithCalls for Heard {
    type Answer = Vec<u8>;

    ghost fits = { λ _ laws. Each (λ l. l ≡ all_laws) laws };

    ghost answers = { λ _ _ _. Unit {0} };

    fn run(self, registries: Vec<Registry>) -> Result<Vec<u8>, AllocError> {
        hear(self, &registries)
    }
}
