//! The machines of a peer, and of a session's server and client, over callbacks that keep their laws:
//! what is printed of walks, as a separate reading of the tables and the laws gives it.

ghost use Rattle.tab_law.specs.Acts.{Permits};

use crate::peer_steps::wins_the_election;
use base_device::{Counting, Status};
use base_list::AddError;
use client_rules::{client_laws, register_client};
use peer_rules::{peer_laws, register_peer};
use role_tables::{CLIENT_TABLE, SERVER_TABLE};
use server_rules::{register_server, server_laws};
use std::alloc::{AllocError, Global};
use std::test::Fail;
use tab_call::{Ask, Calls, Do, Registry, StoredAct, StoredGuard};
use tab_law::{ActLaw, Acted, LawBook, Scene, emitted, high_into, holds, permits};
use tab_walk::{WalkOptions, walk_on};

/// A walk from the start, that doesn't say why.
const PLAIN: WalkOptions<'static> = WalkOptions {
    why: false,
    from: None,
};

/// Writes the answer that a law permits with 1 unit granted, if it permits one, else with as many as it permits.
fn grants_one(law: &ActLaw, scene: &Scene, room: &mut Acted)
    ensures { Permits law.now scene.now room.new.regs room.new.deeds }
{
    high_into(law, scene, room);
    let mut regs = room.regs;
    regs[3] = 1;
    let deeds = emitted(law, scene, &regs);
    if permits(law, scene, &regs, deeds.as_slice()) {
        room.regs = regs;
        room.deeds = deeds;
    }
}

/// Whether a table's walk on these events prints this text.
fn walks(alloc: Global, registry: &Registry, table: &str, events: &str, printed: &str) -> bool {
    let mut sink = Counting::new(Vec::new(alloc));
    let status = walk_on(
        alloc,
        table.as_bytes(),
        registry,
        PLAIN,
        events.as_bytes(),
        &mut sink,
    );
    sink.device.as_slice() == printed.as_bytes() && status == Status::Done
}

/// Events and what is printed of a walk on them.
type Walk = (&'static str, &'static str);

/// The events of the first walk that prints another text.
fn wrong_walk(
    alloc: Global,
    registry: &Registry,
    table: &str,
    rows: &[Walk],
) -> Option<&'static str> {
    for (events, printed) in rows {
        if !walks(alloc, registry, table, events, printed) {
            return Some(events);
        }
    }
    None
}

/// A session that is granted units twice and ends.
const GRANT: Walk = (
    "\
Initial 0=4097 1=1 2=7 3=7 4=1 5=1 6=1 7=100 9=60 10=3 12=2001 13=60
Update 0=4097 1=1 2=8 3=8 4=1 5=2 6=2 7=100 8=50 9=60 10=3 12=2001 13=50 14=1 15=50
Terminate 0=4097 1=1 2=9 3=9 4=1 5=3 6=3 7=100 8=30 12=2001 15=30
",
    "\
Initial Idle Open row 3
  Reserve 60
  To-Peer 4097 1 7 7 2 1 1 0 0 0 3 0 2001 60
  Arm 1 600
Update Open Open row 24
  Debit 50
  Reserve 50
  To-Peer 4097 1 8 8 2 2 2 0 0 0 3 0 2001 50 1
  Arm 2 600
Terminate Open Idle row 29
  Debit 30
  Release
  To-Peer 4097 1 9 9 2 3 3 0 0 0 0 0 2001
  Disarm
",
);

/// A session that is refused once, repeats itself, comes late, and reaches the limit of its account.
const REFUSED: Walk = (
    "\
Update 2=1 3=2 5=2 6=4 12=2001
Initial 2=3 3=4 5=1 6=1 7=100 9=60 10=3 12=5030
Terminate 2=4 3=5 5=3 6=1
Initial 2=5 3=6 5=1 6=2 7=100 9=60 10=3 12=2001 13=60
Initial 2=5 3=6 5=1 6=2 7=100 9=60 10=3 12=2001 13=60
Initial 2=6 3=7 5=1 6=3 7=100 9=60 10=3 12=2001 13=40
Update 2=8 3=9 5=2 6=1 8=70 9=10 10=3 12=2001
Terminate 2=9 3=10 5=3 6=1
Event 2=10 3=11 5=4 6=9 11=1 12=2001
Update 2=11 3=12 5=2 6=3 8=70 9=10 10=3 12=4012 15=60
Update 2=11 3=12 5=2 6=3 8=70 9=10 10=3 12=4012 15=60
Initial 2=12 3=13 5=1 6=2 7=100 12=2001
Initial 2=13 3=14 5=1 6=4 7=100 12=2001
Tcc
",
    "\
Update Idle Idle row 6
  To-Peer 0 0 1 2 2 2 4 0 0 0 0 0 5002
Initial Idle Idle row 4
  To-Peer 0 0 3 4 2 1 1 0 0 0 0 0 5030
Terminate Idle Idle row 7
  To-Peer 0 0 4 5 2 1 1 0 0 0 0 0 5030
Initial Idle Open row 3
  Reserve 60
  To-Peer 0 0 5 6 2 1 2 0 0 0 3 0 2001 60
  Arm 1 600
Initial Open Open row 18
  To-Peer 0 0 5 6 2 1 2 0 0 0 3 0 2001 60
Initial Open Open row 19
  To-Peer 0 0 6 7 2 1 3 0 0 0 0 0 5012
Update Open Open row 21
  To-Peer 0 0 8 9 2 2 1 0 0 0 0 0 5012
Terminate Open Open row 27
  To-Peer 0 0 9 10 2 3 1 0 0 0 0 0 5012
Event Open Open row 30
  To-Peer 0 0 10 11 2 4 9 0 0 0 0 0 5012
Update Open Idle row 25
  Debit 70
  Release
  To-Peer 0 0 11 12 2 2 3 0 0 0 0 0 4012
  Disarm
Update Idle Idle row 5
  To-Peer 0 0 11 12 2 2 3 0 0 0 0 0 4012
Initial Idle Idle row 1
  To-Peer 0 0 12 13 2 1 2 0 0 0 0 0 5012
Initial Idle Open row 3
  Reserve
  To-Peer 0 0 13 14 2 1 4 0 0 0 0 0 2001
  Arm 3 600
Tcc Open Idle row 31
  Release
",
);

/// One-time events.
const EVENTS: Walk = (
    "\
Event 5=4 6=8 7=100 9=30 10=3 11=1 12=2001 13=30
Event 5=4 6=8 7=100 9=30 10=3 11=1 12=2001 13=30
Event 5=4 6=7 11=1
Event 5=4 6=9 7=100 9=80 10=3 11=1 12=2001 13=70 14=1
Event 5=4 6=10 7=100 9=50 10=3 11=2 12=4012
Event 5=4 6=11 7=100 9=80 10=3 11=3 12=2001 13=80
Event 5=4 6=12 7=100 9=80 10=3 11=3 12=4012 13=70
Event 5=4 6=13 7=100 9=1 10=3 11=4 12=2001 13=1
Event 5=4 6=14 7=999 9=80 10=3 11=3 12=5030
",
    "\
Event Idle Idle row 11
  Charge 30
  To-Peer 0 0 0 0 2 4 8 0 0 0 3 0 2001 30
Event Idle Idle row 9
  To-Peer 0 0 0 0 2 4 8 0 0 0 3 0 2001 30
Event Idle Idle row 10
  To-Peer 0 0 0 0 2 4 7 0 0 0 0 0 5012
Event Idle Idle row 12
  To-Peer 0 0 0 0 2 4 9 0 0 0 0 0 4012
Event Idle Idle row 13
  Refund 50
  To-Peer 0 0 0 0 2 4 10 0 0 0 0 0 2001
Event Idle Idle row 14
  To-Peer 0 0 0 0 2 4 11 0 0 0 0 1 2001
Event Idle Idle row 15
  To-Peer 0 0 0 0 2 4 12 0 0 0 0 2 2001
Event Idle Idle row 16
  To-Peer 0 0 0 0 2 4 13 0 0 0 0 0 5031
Event Idle Idle row 17
  To-Peer 0 0 0 0 2 4 14 0 0 0 0 0 5030
",
);

/// Two services, of which one reaches its limit; then the session's time is over. Four services that are all refused.
const GROUPS: Walk = (
    "\
Initial 0=4097 1=1 2=7 3=7 4=1 5=1 6=1 7=100 12=2001 16=2 17=3 19=70 20=2 21=2001 22=70 25=4 27=50 28=2 29=2001 30=30 \
    31=1
Update 0=4097 1=1 2=8 3=8 4=1 5=2 6=2 7=100 12=2001 16=2 17=3 18=80 19=10 20=2 21=4012 24=70 25=4 26=10 27=10 28=2 \
    29=2001 30=10 32=10
Tcc
Initial 2=9 3=9 5=1 6=3 7=100 12=2001 16=4 17=1 20=1 21=2001 22=1 25=2 28=2 29=2001 30=2 33=4294967297 36=3 37=2001 \
    38=3 41=5 44=3 45=2001 46=4 47=1
Update 2=10 3=10 5=2 6=4 7=100 12=4012 16=4 17=1 18=5 25=2 26=6 33=4294967297 34=7 41=5 42=8
Initial 2=12 3=12 5=1 6=6 7=100 12=2001 16=1 17=3 20=2 21=2001 22=40 23=1
Terminate 2=13 3=13 5=3 6=7 7=100 12=2001 16=2 17=3 18=40 25=4 26=1
",
    "\
Initial Idle Open row 2
  Debit 0 3
  Reserve 70 3
  Debit 0 4
  Reserve 30 4
  To-Peer 4097 1 7 7 2 1 1 0 0 0 0 0 2001 0 0 0 2 3 0 0 2 2001 70 0 0 4 0 0 2 2001 30 1
  Arm 1 600
Update Open Open row 22
  Debit 80 3
  Reserve 0 3
  Debit 10 4
  Reserve 10 4
  To-Peer 4097 1 8 8 2 2 2 0 0 0 0 0 2001 0 0 0 2 3 0 0 2 4012 0 0 0 4 0 0 2 2001 10
  Arm 2 600
Tcc Open Idle row 31
  Release
Initial Idle Open row 2
  Debit 0 1
  Reserve 1 1
  Debit 0 2
  Reserve 2 2
  Debit 0 4294967297
  Reserve 3 4294967297
  Debit 0 5
  Reserve 4 5
  To-Peer 0 0 9 9 2 1 3 0 0 0 0 0 2001 0 0 0 4 1 0 0 1 2001 1 0 0 2 0 0 2 2001 2 0 0 4294967297 0 0 3 2001 3 0 0 5 0 0 \
    3 2001 4 1
  Arm 3 600
Update Open Idle row 23
  Debit 5 1
  Debit 6 2
  Debit 7 4294967297
  Debit 8 5
  Release
  To-Peer 0 0 10 10 2 2 4 0 0 0 0 0 4012 0 0 0 0 1 0 0 1 2001 1 0 0 2 0 0 2 2001 2 0 0 4294967297 0 0 3 2001 3 0 0 5 0 \
    0 3 2001 4 1
  Disarm
Initial Idle Open row 2
  Debit 0 3
  Reserve 40 3
  To-Peer 0 0 12 12 2 1 6 0 0 0 0 0 2001 0 0 0 1 3 0 0 2 2001 40 1
  Arm 5 600
Terminate Open Idle row 28
  Debit 40 3
  Debit 1 4
  Release
  To-Peer 0 0 13 13 2 3 7 0 0 0 0 0 2001 0 0 0 0 3 0 0 2 2001 40 1
  Disarm
",
);

/// No answer comes, and the service is cut off; the late answer finds no session.
const CUT_OFF: Walk = (
    "\
Begin 12=0
Tx
CCA-I 6=1 12=2001
",
    "\
Begin Idle PendingI row 0
  To-Peer 0 0 0 0 1 1 1
  Arm 1 10
Tx PendingI Idle row 11
  Service 2
CCA-I Idle Idle row -
  Unlisted 0 0 0 0 0 0 1 0 0 0 0 0 2001
",
);

/// No answer comes, and the service goes on.
const GOES_ON: Walk = (
    "\
Begin 12=1
Tx
",
    "\
Begin Idle PendingI row 0
  To-Peer 0 0 0 0 1 1 1
  Arm 1 10
Tx PendingI PendingI row 12
  Service 1
",
);

/// A session with two services; answers of other requests don't count.
const SESSION: Walk = (
    "\
Begin 0=4097 7=100 12=2 16=2 17=3 19=70 20=2 25=4 27=50 28=2
CCA-I 6=2 12=2001
CCA-I 6=1 12=2001 13=60 16=2 17=3 20=2 21=2001 22=70 25=4 28=2 29=2001 30=30 31=1
More 8=50 9=70 16=2 17=3 18=80 19=10 20=2 25=4 26=10 27=10 28=2
CCA-U 6=2 12=2001 13=50 14=1
End 8=45 9=5 16=4 17=3 18=1 19=9 20=2 25=4 26=2 27=9 28=2 33=5 34=3 35=9 41=6 42=4 43=9
CCA-T 6=3 12=5012
One 0=4097 7=100 9=80 10=3 11=3 12=1
CCA-E 6=4 11=2 12=2001
One 0=4097 7=100 9=80 10=3 11=1
CCA-E 6=5 12=5030
Begin 7=100
CCA-I 6=6 12=4011
Begin 7=100 12=1
CCA-I 6=7 12=4012
Begin 7=100
CCA-Fault 12=3004
Begin 7=100 12=1
Send-Fail
",
    "\
Begin Idle PendingI row 0
  To-Peer 4097 0 0 0 1 1 1 100 0 0 0 0 0 0 0 0 2 3 0 70 2 0 0 0 0 4 0 50 2
  Arm 1 10
CCA-I PendingI PendingI row -
  Unlisted 0 0 0 0 0 0 2 0 0 0 0 0 2001
CCA-I PendingI Open row 2
  Disarm
  Service 1
More Open PendingU row 13
  To-Peer 4097 0 0 0 1 2 2 100 50 70 0 0 0 0 0 0 2 3 80 10 2 0 0 0 0 4 10 10 2
  Arm 3 10
CCA-U PendingU Open row 15
  Disarm
  Service 1
End Open PendingT row 14
  To-Peer 4097 0 0 0 1 3 3 100 45 0 0 0 0 0 0 0 4 3 1 0 2 0 0 0 0 4 2 0 2 0 0 0 0 5 3 0 0 0 0 0 0 6 4
  Arm 5 10
CCA-T PendingT Idle row 26
  Disarm
  Service 2
One Idle PendingE row 1
  To-Peer 4097 0 0 0 1 4 4 100 0 80 3 3
  Arm 7 10
CCA-E PendingE Idle row 30
  Disarm
  Service 1
One Idle PendingE row 1
  To-Peer 4097 0 0 0 1 4 5 100 0 80 3 1
  Arm 9 10
CCA-E PendingE Idle row 32
  Disarm
  Service 2
Begin Idle PendingI row 0
  To-Peer 0 0 0 0 1 1 6 100
  Arm 11 10
CCA-I PendingI Idle row 3
  Disarm
  Service 1
Begin Idle PendingI row 0
  To-Peer 0 0 0 0 1 1 7 100
  Arm 13 10
CCA-I PendingI Idle row 5
  Disarm
  Service 1
Begin Idle PendingI row 0
  To-Peer 0 0 0 0 1 1 8 100
  Arm 15 10
CCA-Fault PendingI Idle row 8
  Disarm
  Service 2
Begin Idle PendingI row 0
  To-Peer 0 0 0 0 1 1 9 100
  Arm 17 10
Send-Fail PendingI Idle row 9
  Disarm
  Service 1
",
);

/// A walk on which 1 unit of 60 is granted.
const ONE_OF_SIXTY: Walk = (
    "Initial 2=7 3=7 4=1 5=1 6=1 7=100 9=60 10=3 12=2001 13=60\n",
    "\
Initial Idle Open row 3
  Reserve 1
  To-Peer 0 0 7 7 2 1 1 0 0 0 3 0 2001 1
  Arm 1 600
",
);

#[derive(Clone, Copy)]
enum Role {
    Peer,
    Client,
    Server,
    /// A server whose callbacks grant 1 unit where they may.
    Sparing,
}

/// What is shown of a role.
const ROLES: &[(&str, Role)] = &[
    ("a peer wins the election", Role::Peer),
    ("a session of a client goes as its table says", Role::Client),
    ("a session of a server goes as its table says", Role::Server),
    ("a callback may reserve less than is offered", Role::Sparing),
];

fn laws_of(alloc: Global, role: Role) -> Result<LawBook, AllocError> {
    match role {
        Role::Peer => peer_laws(alloc),
        Role::Client => client_laws(alloc),
        Role::Server | Role::Sparing => server_laws(alloc),
    }
}

/// Writes what a role's callback answers by its law.
fn answer(law: &ActLaw, scene: &Scene, role: Role, room: &mut Acted)
    ensures { Permits law.now scene.now room.new.regs room.new.deeds }
{
    match role {
        Role::Sparing => grants_one(law, scene, room),
        _ => high_into(law, scene, room),
    }
}

/// Whether a role is registered with its callbacks.
fn is_registered(alloc: Global, registry: &mut Registry, role: Role, calls: Calls) -> bool {
    match role {
        Role::Peer => register_peer(alloc, registry, calls).is_ok(),
        Role::Client => register_client(alloc, registry, calls).is_ok(),
        Role::Server | Role::Sparing => register_server(alloc, registry, calls).is_ok(),
    }
}

/// What goes wrong over a role's callbacks.
fn wrong_over(alloc: Global, registry: &Registry, role: Role) -> Option<&'static str> {
    match role {
        Role::Peer if wins_the_election(alloc, registry) => None,
        Role::Peer => Some("the steps of a peer"),
        Role::Client => { wrong_walk(alloc, registry, CLIENT_TABLE, &[CUT_OFF, GOES_ON, SESSION]) }
        Role::Server => {
            wrong_walk(
                alloc,
                registry,
                SERVER_TABLE,
                &[GRANT, REFUSED, EVENTS, GROUPS],
            )
        }
        Role::Sparing => wrong_walk(alloc, registry, SERVER_TABLE, &[ONE_OF_SIXTY]),
    }
}

/// What goes wrong over callbacks of a role that answer by these laws.
fn wrong_by(alloc: Global, laws: &LawBook, role: Role) -> Result<Option<&'static str>, AddError> {
    let mut guards = Vec::new(alloc);
    for entry in laws.guards().as_slice() {
        let own = entry.value.copy(alloc)?;
        let ask: Ask = Box::new(alloc, move |scene: &Scene| holds(&own, scene))?;
        guards.push(StoredGuard::new(entry.value.copy(alloc)?, ask))?;
    }
    let mut acts = Vec::new(alloc);
    for entry in laws.acts().as_slice() {
        let own = entry.value.copy(alloc)?;
        let act: Do = Box::new(alloc, move |scene: &Scene, room: &mut Acted| {
            answer(&own, scene, role, room);
        })?;
        acts.push(StoredAct::new(entry.value.copy(alloc)?, act))?;
    }
    let mut registry = Registry::new(alloc);
    if !is_registered(alloc, &mut registry, role, Calls { guards, acts }) {
        return Ok(Some("the registry"));
    }
    Ok(wrong_over(alloc, &registry, role))
}

/// What goes wrong with a role.
fn wrong_with(alloc: Global, role: Role) -> Result<Option<&'static str>, AddError> {
    let laws = laws_of(alloc, role)?;
    wrong_by(alloc, &laws, role)
}

#[test]
fn machines_go_as_their_tables_say(rt: HostRuntime) -> Result<(), Fail> {
    for (name, role) in ROLES {
        let wrong = wrong_with(rt.alloc(), *role)?;
        assert!(rt; wrong.is_none(), "{name}: {wrong:?}");
    }
    Ok(())
}
