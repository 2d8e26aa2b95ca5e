//! What a credit-control server does with a message, joined of public calls: from a request's octets by way of its
//! peer's machine, its session's machine and the account book to the answer's octets (RFC 8506 sections 3, 5 and 6).

use crate::roles::Roles;
use acct_book::{Op, Page};
use base_codes::{DeedCode, HEADER_LEN, avp_code, peer_fact, peer_register, session_register};
use base_list::Octets;
use charge_message::answer_message;
use charge_session::{Quotes, ServiceUnits, Want, fill_quotes, needs, op_of, server_event};
use deed_message::Names;
use dia_avp::first_avp;
use dia_command::header_of;
use dia_dict::Dictionary;
use dia_msg::{Command, Identity, MsgError, MsgFault, error_answer, read_message, write_message};
use peer_rules::PeerKind;
use server_rules::ServerKind;
use sess_dir::Directory;
use std::alloc::{AllocError, Global};
use tab_law::{Deed, PLACES};
use tab_step::{Event, MachineState, Stepped};

/// The account that is open, and that requests are for where they name no other.
pub const ACCOUNT: u64 = 100;

/// The octets that a Requested-Service-Unit without an amount asks for.
const DEFAULT_UNITS: u64 = 500;

/// The line of the peer's connection.
const LINE: u64 = 1;

/// A server's node: one peer, whose machine has number 0, its sessions, whose machines are numbered from 1, and a page
/// of the account book. It keeps room for the operations and for the step of one request.
pub struct Server {
    alloc: Global,
    dictionary: Dictionary,
    identity: Identity,
    peer: MachineState,
    names: Directory,
    sessions: Vec<MachineState>,
    pub page: Page,
    ops: Vec<Op>,
    room: Stepped,
}

impl Drop for Server {
    fn drop(self) {
        let Server {
            alloc: _,
            dictionary,
            identity,
            peer: _,
            names,
            sessions,
            page,
            ops,
            room: _,
        } = self;
    }
}

/// A machine of this number in the first state of its table.
fn start(number: u64) -> MachineState {
    let mut regs = [0; PLACES];
    regs[session_register::MACHINE] = number;
    MachineState { state: 0, regs }
}

/// The Session-Id of a faulty message, where it stands first (RFC 6733 section 8.8).
fn session_in(octets: &[u8]) -> Option<&str> {
    let (avp, _) = first_avp(octets.get(HEADER_LEN..)?).ok()?;
    if avp.code == avp_code::SESSION_ID && avp.vendor.is_none() {
        avp.as_text().ok()
    } else {
        None
    }
}

/// The first deed of this code.
fn deed_of(deeds: &[Deed], code: DeedCode) -> Option<Deed> {
    for deed in deeds {
        if deed.code == code.number() {
            return Some(*deed);
        }
    }
    None
}

/// The Session-Id of a Credit-Control-Request.
pub fn session_of(request: &Command) -> Option<&[u8]> {
    match request {
        Command::Ccr(request) => Some(request.session_id.value.as_bytes()),
        _ => None,
    }
}

/// The operations that deeds ask of the account book.
fn put_ops(ops: &mut Vec<Op>, deeds: &[Deed], want: &Want) -> Result<(), AllocError> {
    ops.clear();
    for deed in deeds {
        if let Some(op) = op_of(deed, want) {
            ops.push(op)?;
        }
    }
    Ok(())
}

/// A node of the realm example.
pub fn node(alloc: Global, host: &str, address: [u8; 4]) -> Result<Identity, AllocError> {
    let host = Octets::from_slice(alloc, host.as_bytes())?;
    let realm = Octets::from_slice(alloc, b"example")?;
    Ok(Identity {
        host,
        realm,
        address,
    })
}

impl Server {
    /// The node s.example whose account is given so much, without sessions. Its peer has not connected yet.
    /// None where memory is wanting, or the account can't be given so much.
    pub fn new(alloc: Global, given: u64) -> Option<Server> {
        let mut page = Page::new(alloc);
        if page.open_account(ACCOUNT, given).is_err() {
            return None;
        }
        let Ok(identity) = node(alloc, "s.example", [192, 0, 2, 1]) else {
            return None;
        };
        let Ok(dictionary) = Dictionary::base(alloc) else {
            return None;
        };
        Some(Server {
            alloc,
            dictionary,
            identity,
            peer: start(0),
            names: Directory::new(alloc),
            sessions: Vec::new(alloc),
            page,
            ops: Vec::new(alloc),
            room: Stepped::new(),
        })
    }

    /// Steps the peer's machine, and gives its first deed of a code.
    fn step_peer(
        &mut self,
        roles: &Roles<'_>,
        kind: PeerKind,
        facts: &[u64; PLACES],
        code: DeedCode,
    ) -> Option<Deed> {
        roles.step_peer(&self.peer, kind, facts, &mut self.room);
        self.peer = self.room.after;
        deed_of(self.room.deeds.as_slice(), code)
    }

    /// The peer connects (RFC 6733 section 5.3): whether its request is answered.
    pub fn connect(&mut self, roles: &Roles<'_>) -> bool {
        let mut facts = [0; PLACES];
        facts[peer_fact::LINE] = LINE;
        self.step_peer(roles, PeerKind::RConnCer, &facts, DeedCode::SndCea)
            .is_some()
    }

    /// The message's octets as a command.
    pub fn read(&self, octets: &[u8]) -> Result<Command, MsgError> {
        read_message(self.alloc, &self.dictionary, octets)
    }

    /// The event that a request is: it came from the peer on its line.
    pub fn event_of(&self, request: &Command) -> Option<Event> {
        let Event { kind, mut facts } = server_event(request, DEFAULT_UNITS)?;
        let regs = self.peer.regs;
        facts[peer_fact::PEER] = regs[peer_register::MACHINE];
        facts[peer_fact::LINE] = LINE;
        Some(Event { kind, facts })
    }

    /// The event of a request as the peer's machine hands it on to the session.
    fn handed_on(&mut self, roles: &Roles<'_>, request: &Command) -> Option<Event> {
        let Event { kind, facts } = self.event_of(request)?;
        let deed = self.step_peer(roles, PeerKind::RRcvMessage, &facts, DeedCode::ToSession)?;
        let facts = deed.a;
        Some(Event { kind, facts })
    }

    /// Adds a session's machine.
    fn adds_machine(&mut self) -> bool {
        let number = self.sessions.len() as u64;
        self.sessions.push(start(number + 1)).is_ok()
    }

    /// The place of a session, which has a machine from now on. None where there is no room.
    pub fn session(&mut self, name: &[u8]) -> Option<usize> {
        let Ok(place) = self.names.find_or_add(name) else {
            return None;
        };
        if place == self.sessions.len() && !self.adds_machine() {
            return None;
        }
        Some(place)
    }

    /// Fills what the account book would answer into the facts of an event.
    pub fn quote(&self, place: usize, event: &mut Event) -> Option<Want> {
        let want = needs(event, self.sessions.get(place)?)?;
        let (account, session) = (want.account, want.session);
        let quotes = match want.asked {
            ServiceUnits::One(slot) => Quotes::One(
                self.page
                    .quote(account, session, slot.group, slot.used, slot.want),
            ),
            ServiceUnits::Several(slots) => {
                Quotes::Several(self.page.quote_groups(account, session, &slots))
            }
        };
        fill_quotes(&mut event.facts, &quotes);
        Some(want)
    }

    /// Steps the machine of a session.
    pub fn step(&mut self, roles: &Roles<'_>, place: usize, event: &Event) {
        if let Some(machine) = self.sessions.get_mut(place) {
            roles.step_server(machine, event, &mut self.room);
            *machine = self.room.after;
        }
    }

    /// Books the deeds of the last step, all or none.
    pub fn book(&mut self, want: &Want) -> bool {
        put_ops(&mut self.ops, self.room.deeds.as_slice(), want).is_ok()
            && self.page.apply_all(self.ops.as_slice()).is_ok()
    }

    /// Writes the answer of a session that a deed sends.
    pub fn write(&self, place: usize, deed: &Deed, out: &mut Vec<u8>) -> bool {
        let Some(session) = self.names.name(place) else {
            return true;
        };
        let names = Names {
            identity: &self.identity,
            session,
        };
        match &answer_message(self.alloc, deed, &names) {
            Ok(Some(answer)) => write_message(answer, out).is_ok(),
            Ok(None) => true,
            Err(_) => false,
        }
    }

    /// Quotes, steps and books an event of a session.
    fn charge(&mut self, roles: &Roles<'_>, place: usize, event: &mut Event) -> bool {
        match self.quote(place, event) {
            Some(want) => {
                self.step(roles, place, event);
                self.book(&want)
            }
            None => true,
        }
    }

    /// Writes what the last step of a session has for the peer, as the peer's machine hands it on.
    fn send(&mut self, roles: &Roles<'_>, place: usize, out: &mut Vec<u8>) -> bool {
        let Some(deed) = deed_of(self.room.deeds.as_slice(), DeedCode::ToPeer) else {
            return true;
        };
        match self.step_peer(roles, PeerKind::SendMessage, &deed.a, DeedCode::SndMsg) {
            Some(deed) => self.write(place, &deed, out),
            None => true,
        }
    }

    /// Writes the answer to a request.
    fn answer(&mut self, roles: &Roles<'_>, request: &Command, out: &mut Vec<u8>) -> bool {
        let Some(name) = session_of(request) else {
            return true;
        };
        let Some(mut event) = self.handed_on(roles, request) else {
            return true;
        };
        match self.session(name) {
            Some(place) => { self.charge(roles, place, &mut event) && self.send(roles, place, out) }
            None => false,
        }
    }

    /// Writes the answer to a faulty message, as a line does by itself.
    fn refuse(&self, octets: &[u8], fault: &MsgFault, out: &mut Vec<u8>) -> bool {
        if octets.len() < HEADER_LEN {
            return true;
        }
        let header = header_of(octets);
        let session = session_in(octets);
        match &error_answer(self.alloc, &self.identity, &header, session, fault) {
            Ok(answer) => write_message(answer, out).is_ok(),
            Err(_) => false,
        }
    }

    /// Appends the octets of the answer to those of a message; nothing where it gets none.
    /// Whether there was room for all.
    pub fn serve(&mut self, roles: &Roles<'_>, octets: &[u8], out: &mut Vec<u8>) -> bool {
        match &self.read(octets) {
            Ok(request) => self.answer(roles, request, out),
            Err(MsgError::Fault(fault)) => self.refuse(octets, fault, out),
            Err(MsgError::NoMemory) => false,
        }
    }

    /// The timer of a session fires (RFC 8506 section 13).
    pub fn fire(&mut self, roles: &Roles<'_>, name: &[u8]) -> bool {
        let mut event = Event {
            kind: ServerKind::Tcc.place(),
            facts: [0; PLACES],
        };
        match self.session(name) {
            Some(place) => self.charge(roles, place, &mut event),
            None => false,
        }
    }

    /// The machine of a session.
    pub fn machine(&self, name: &[u8]) -> Option<&MachineState> {
        self.sessions.get(self.names.find(name)?)
    }
}
