//! Two benches over loopback, and a dial that nobody answers. Each test makes a bounded number of turns.

use crate::flow::Flow;
use net_sockets::Sockets;
use std::io;
use std::net::{Ipv4Addr, SocketAddr, TcpListener};
use std::test::Fail;
use std::time::Duration;

/// How many octets go each way: more than the buffers of a socket hold.
const OCTETS: usize = 3_000_000;

/// How many turns each side makes at most.
const TURNS: u64 = 200_000;

fn any_port() -> SocketAddr {
    SocketAddr::from((Ipv4Addr::LOCALHOST, 0))
}

// A port at which nobody listens any more.
fn closed_port(rt: &HostRuntime) -> io::Result<SocketAddr> {
    let gone = TcpListener::bind(rt, any_port())?;
    gone.local_addr()
}

#[test]
fn octets_come_back(rt: HostRuntime) -> Result<(), Fail> {
    let alloc = rt.alloc();
    let mut server = Flow::new(0, true, usize::MAX, None);
    server.room = 1;
    let mut server = Sockets::new(&rt, alloc, server, Some(any_port()))?;
    let address = server.address();
    assert!(rt; address.is_some(), "no address");
    let client = Flow::new(OCTETS, false, OCTETS, address);
    let mut client = Sockets::new(&rt, alloc, client, None)?;
    let mut was_full = false;
    for _ in 0..TURNS {
        if server.node().lost > 0 && server.count() == 0 {
            break;
        }
        client.turn(&rt, Duration::from_millis(0))?;
        server.turn(&rt, Duration::from_millis(1))?;
        let far = &mut server.port.node;
        was_full = was_full || far.pieces == far.room;
        far.room = far.pieces.saturating_add(100);
    }
    let (near, far) = (client.node(), server.node());
    assert!(rt; near.dialled == 1 && far.joined == 1, "opened");
    assert!(rt; far.came == OCTETS && far.is_right, "went");
    assert!(rt; near.came == OCTETS && near.is_right, "came back");
    assert!(rt;
        near.lost == 0 && client.count() == 0,
        "closed by the one that dialled"
    );
    assert!(rt; far.lost == 1 && server.count() == 0, "lost at the other");
    assert!(rt; was_full, "was full");
    Ok(())
}

#[test]
fn a_dial_is_refused(rt: HostRuntime) -> Result<(), Fail> {
    let address = closed_port(&rt)?;
    let mut client = Sockets::new(&rt, rt.alloc(), Flow::new(1, false, 1, Some(address)), None)?;
    let turns = client.run(&rt, 2_000, Duration::from_millis(1))?;
    assert!(rt; turns < 2_000, "never lost");
    assert!(rt;
        client.node().lost == 1 && client.node().dialled == 0,
        "lost once"
    );
    assert!(rt; client.count() == 0, "gone");
    Ok(())
}
