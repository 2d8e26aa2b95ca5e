//! Whether laws have the kinds of all roles' events.
ghost use Rattle.std.specs.Prelude.{◌≡◌, is_none};
ghost use Rattle.std.specs.List.{list_any};
ghost use Rattle.base_list.specs.Named.{place_of};
ghost use Rattle.client_rules.specs.Kinds as client;
ghost use Rattle.peer_rules.specs.Kinds as peer;
ghost use Rattle.server_rules.specs.Kinds as server;
ghost use Rattle.bench_open.specs.Kinds.{lacks_role_kind};

use client_rules::ClientKind;
use peer_rules::PeerKind;
use server_rules::ServerKind;
use tab_law::LawBook;

/// The kinds of a peer's events.
const PEER: [PeerKind; 22] = [
    PeerKind::Start,
    PeerKind::RConnCer,
    PeerKind::IRcvConnAck,
    PeerKind::IRcvConnNack,
    PeerKind::Timeout,
    PeerKind::IRcvCea,
    PeerKind::IPeerDisc,
    PeerKind::IRcvNonCea,
    PeerKind::RPeerDisc,
    PeerKind::WinElection,
    PeerKind::SendMessage,
    PeerKind::RRcvMessage,
    PeerKind::RRcvDwr,
    PeerKind::RRcvDwa,
    PeerKind::Stop,
    PeerKind::RRcvDpr,
    PeerKind::IRcvMessage,
    PeerKind::IRcvDwr,
    PeerKind::IRcvDwa,
    PeerKind::IRcvDpr,
    PeerKind::IRcvDpa,
    PeerKind::RRcvDpa,
];

/// The kinds of a client's events.
const CLIENT: [ClientKind; 11] = [
    ClientKind::Begin,
    ClientKind::One,
    ClientKind::CcaI,
    ClientKind::CcaFault,
    ClientKind::SendFail,
    ClientKind::Tx,
    ClientKind::More,
    ClientKind::End,
    ClientKind::CcaU,
    ClientKind::CcaT,
    ClientKind::CcaE,
];

/// The kinds of a server's events.
const SERVER: [ServerKind; 5] = [
    ServerKind::Initial,
    ServerKind::Update,
    ServerKind::Terminate,
    ServerKind::Event,
    ServerKind::Tcc,
];

/// Whether a name is no kind of these laws.
fn lacks(laws: &LawBook, name: &str) -> bool
    ensures { result ≡ is_none (place_of name.now laws.now.kinds) }
{
    laws.kinds().find(name.as_bytes()).is_none()
}

/// Whether laws lack one of these kinds of a peer's events.
fn lacks_peer(laws: &LawBook, kinds: &[PeerKind]) -> bool
    ensures { result ≡ list_any (λ kind. is_none (place_of (peer.name_of kind) laws.now.kinds)) kinds.now }
{
    kinds.iter().any(|kind| lacks(laws, kind.name()))
}

/// Whether laws lack one of these kinds of a client's events.
fn lacks_client(laws: &LawBook, kinds: &[ClientKind]) -> bool
    ensures { result ≡ list_any (λ kind. is_none (place_of (client.name_of kind) laws.now.kinds)) kinds.now }
{
    kinds.iter().any(|kind| lacks(laws, kind.name()))
}

/// Whether laws lack one of these kinds of a server's events.
fn lacks_server(laws: &LawBook, kinds: &[ServerKind]) -> bool
    ensures { result ≡ list_any (λ kind. is_none (place_of (server.name_of kind) laws.now.kinds)) kinds.now }
{
    kinds.iter().any(|kind| lacks(laws, kind.name()))
}

/// Whether laws lack a kind of a role's events.
pub(crate) fn lacks_kind(laws: &LawBook) -> bool
    ensures { result ≡ lacks_role_kind laws.now }
{
    if lacks_peer(laws, &PEER) {
        return true;
    }
    if lacks_client(laws, &CLIENT) {
        return true;
    }
    lacks_server(laws, &SERVER)
}
