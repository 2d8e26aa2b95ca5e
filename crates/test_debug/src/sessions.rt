//! A server with one peer, debugged.
ghost use Rattle.std.specs.Prelude.{IfOk, IfSome, OnOk, map};
ghost use Rattle.bench_debug.specs.Seen.{seen};
ghost use Rattle.bench_script.specs.Ran.{IsRunBy};

use base_list::Octets;
use base_text::put_hex;
use bench_core::Core;
use bench_debug::{Debugger, tables_in};
use bench_item::Step;
use bench_open::{Account, Config};
use debug_text::{put_fault, put_reply};
use dia_dict::Dictionary;
use dia_write::Identity;
use role_tables::{CLIENT_TABLE, PEER_TABLE, SERVER_TABLE, all_laws};
use script_text::read_script;
use std::alloc::{AllocError, Global};
use std::test::Fail;
use tab_call::{Ask, Calls, Do, Registry, StoredAct, StoredGuard};
use tab_law::{Acted, Scene, high_into, holds};
use tab_role::TakesRoles;
use tab_step::Stepped;
use tab_text::parse;

/// So many shards and pages, the peer c.example, 100 units on account 100.
fn config(alloc: Global, shards: u64) -> Result<Config, Fail> {
    let identity = Identity {
        host: Octets::from_slice(alloc, b"s.example")?,
        realm: Octets::from_slice(alloc, b"example")?,
        address: [192, 0, 2, 1],
    };
    let mut peers = Vec::new(alloc);
    peers.push(Octets::from_slice(alloc, b"c.example")?)?;
    let mut accounts = Vec::new(alloc);
    let (id, given) = (100, 100);
    accounts.push(Account { id, given })?;
    Ok(Config {
        identity,
        peers,
        accounts,
        shards,
        pages: shards,
        desks: 1,
        default_units: 500,
        dictionary: Dictionary::base(alloc)?,
        peer: parse(alloc, PEER_TABLE.as_bytes())?,
        client: parse(alloc, CLIENT_TABLE.as_bytes())?,
        server: parse(alloc, SERVER_TABLE.as_bytes())?,
    })
}

/// Puts what each command is answered.
fn put_answers(
    alloc: Global,
    debugger: &mut Debugger,
    registries: &[Registry],
    commands: &str,
    out: &mut Vec<u8>,
) -> Result<(), Fail>
    requires { IsRunBy (seen debugger.old).world (map (λ r. r.book) registries.now) }
{
    for line in commands.split('\n') {
        match debugger.command(registries, line.as_bytes()) {
            Ok(reply) => put_reply(alloc, out, &tables_in(debugger.core()), &reply)?,
            Err(fault) => put_fault(out, fault)?,
        }
    }
    Ok(())
}

/// A session of a debugger.
#[derive(Clone, Copy)]
pub(crate) struct Session {
    pub(crate) shards: u64,
    /// Whether a connection is accepted before the debugger is made.
    pub(crate) joined: bool,
    pub(crate) script: &'static str,
    pub(crate) commands: &'static str,
    /// So many of the last octets that connection 1 sent are printed at the end.
    pub(crate) sent: usize,
}

/// Puts the last octets that connection 1 sent.
fn put_sent(core: &Core, count: usize, out: &mut Vec<u8>) -> Result<(), Fail> {
    let sent = core.sent(1);
    put_hex(out, &sent[sent.len().saturating_sub(count)..])?;
    Ok(())
}

/// What a session prints.
pub(crate) fn printed(alloc: Global, session: &Session) -> Result<Vec<u8>, Fail> {
    let laws = all_laws(alloc)?;
    let mut registries = Vec::new(alloc);
    for _shard in 0..session.shards {
        let mut guards = Vec::new(alloc);
        for entry in laws.guards().as_slice() {
            let own = entry.value.copy(alloc)?;
            let ask: Ask = Box::new(alloc, move |scene: &Scene| holds(&own, scene))?;
            guards.push(StoredGuard::new(entry.value.copy(alloc)?, ask))?;
        }
        let mut acts = Vec::new(alloc);
        for entry in laws.acts().as_slice() {
            let own = entry.value.copy(alloc)?;
            let act: Do = Box::new(alloc, move |scene: &Scene, room: &mut Acted| {
                high_into(&own, scene, room);
            })?;
            acts.push(StoredAct::new(entry.value.copy(alloc)?, act))?;
        }
        let mut registry = Registry::new(alloc);
        registry.register(&laws, Calls { guards, acts })?;
        registries.push(registry)?;
    }
    opened_and_debugged(alloc, &registries, session)
}

/// A bench that is opened with these registries.
fn opened(alloc: Global, registries: &[Registry], shards: u64) -> Result<Option<Core>, Fail>
    ensures { IfOk result (λ core. IfSome core (λ core. IsRunBy core (map (λ r. r.book) registries.now))) }
{
    let config = config(alloc, shards)?;
    match Core::new(alloc, config, registries) {
        Ok(core) => Ok(Some(core)),
        Err(_) => Ok(None),
    }
}

/// Accepts a connection.
fn join(alloc: Global, core: &mut Core, registries: &[Registry]) -> Result<(), Fail>
    requires { IsRunBy core.old (map (λ r. r.book) registries.now) }
    ensures { OnOk result (IsRunBy core.new (map (λ r. r.book) registries.now)) }
{
    let mut room = Box::new(alloc, Stepped::new())?;
    match core.step(registries, Step::Joined, &mut room) {
        Ok(()) => Ok(()),
        Err(_) => Err(AllocError.into()),
    }
}

/// What a session prints on a bench.
fn debugged(
    alloc: Global,
    core: Core,
    registries: &[Registry],
    session: &Session,
) -> Result<Vec<u8>, Fail>
    requires { IsRunBy core (map (λ r. r.book) registries.now) }
{
    let mut out = Vec::new(alloc);
    let Ok(asked) = read_script(alloc, core.laws(), session.script.as_bytes()) else {
        return Ok(out);
    };
    let mut debugger = Debugger::new(alloc, core, asked)?;
    put_answers(alloc, &mut debugger, registries, session.commands, &mut out)?;
    put_sent(debugger.core(), session.sent, &mut out)?;
    Ok(out)
}

/// The same, on a bench that is opened with these registries.
fn opened_and_debugged(
    alloc: Global,
    registries: &[Registry],
    session: &Session,
) -> Result<Vec<u8>, Fail> {
    let Some(mut core) = opened(alloc, registries, session.shards)? else {
        return Ok(Vec::new(alloc));
    };
    if session.joined {
        join(alloc, &mut core, registries)?;
    }
    debugged(alloc, core, registries, session)
}

/// A connection, capabilities exchanged, and a session that asks for 60 units (RFC 6733 section
/// 5.3, RFC 8506 section 5.2.1).
pub(crate) const SCRIPT: &str = "\
join
came 1 0100006c800001010000000000000001000000010000010840000011632e6578616d706c65000000000001284000000f6578616d706c6500\
    000001014000000e00017f00000100000000010a4000000c000000000000010d0000000978000000000001024000000c00000004010000bcc00\
    00110000000040000000700000007000001074000000c63313b310000010840000011632e6578616d706c65000000000001284000000f657861\
    6d706c65000000011b4000000f6578616d706c6500000001024000000c00000004000001cd4000000b78407900000001a04000000c000000010\
    000019f4000000c00000000000001bb40000020000001c24000000c00000000000001bc4000000b31303000000001b540000018000001a14000\
    0010000000000000003c
lift line 1
drop line 1
work 0
lift line 1
drop line 1
work 0
lift shard 0
drop shard 0
lift shard 0
drop shard 0
lift shard 0
drop shard 0
work 0
";

/// The same with two shards: the peer is in shard 1, the session in shard 0.
/// At the end the answer goes to the connection.
const SPREAD: &str = "\
join
came 1 0100006c800001010000000000000001000000010000010840000011632e6578616d706c65000000000001284000000f6578616d706c6500\
    000001014000000e00017f00000100000000010a4000000c000000000000010d0000000978000000000001024000000c00000004010000bcc00\
    00110000000040000000700000007000001074000000c63313b310000010840000011632e6578616d706c65000000000001284000000f657861\
    6d706c65000000011b4000000f6578616d706c6500000001024000000c00000004000001cd4000000b78407900000001a04000000c000000010\
    000019f4000000c00000000000001bb40000020000001c24000000c00000000000001bc4000000b31303000000001b540000018000001a14000\
    0010000000000000003c
lift line 1
drop line 1
work 1
lift line 1
drop line 1
work 1
lift shard 1
drop shard 1
lift shard 1
drop shard 1
lift shard 1
drop shard 1
work 0
lift shard 0
drop shard 0
work 1
lift shard 1
drop shard 1
";

/// What is commanded.
const STEPPED_COMMANDS: &str = "\
break state s:c1;1 Open
back
go
go
show s:c1;1
totals 100
back
back
back
back
show s:c1;1
step
step
step
where
step
show s:c1;1
totals 100
step
clear 1
clear 1
break row server 400
list 3
list server 3
list server 400
list nobody 3
show x
totals 7";

/// What that is answered.
const STEPPED_ANSWERS: &str = "\
break 1
fault 5
stopped at 15 by 1
end at 15
s:c1;1 Open r0=100 r1=1 r2=2001 r3=60 r4=3 r8=1 r14=1 r15=1
given 100 reserved 60 debited 0 unpaid 0
at 14
at 13
at 12
at 11
fault 3
drop shard 0
lift shard 0
drop shard 0
at 14 script 14 of 15
work 0
  s:c1;1 Initial Idle Open row 3
    Reserve 60 = 60 0
    To-Peer 0 1 7 7 2 1 1 0 0 0 3 0 2001 60
    Arm 1 600
s:c1;1 Open r0=100 r1=1 r2=2001 r3=60 r4=3 r8=1 r14=1 r15=1
given 100 reserved 60 debited 0 unpaid 0
end
cleared 1
fault 4
fault 10
fault 1
  Idle   Initial when enough                     Open-Account, Reserve, Snd-CCA, \
    Start-Tcc                                          Open
fault 10
fault 1
fault 3
fault 9
";

#[test]
fn a_session_is_stepped_back_and_forth(rt: HostRuntime) -> Result<(), Fail> {
    let session = Session {
        shards: 1,
        joined: false,
        script: SCRIPT,
        commands: STEPPED_COMMANDS,
        sent: 0,
    };
    assert!(rt; printed(rt.alloc(), &session)?.as_slice() == STEPPED_ANSWERS.as_bytes());
    Ok(())
}

/// What is commanded.
const GONE_COMMANDS: &str = "\
goto 8
where
goto 20
break machine s:c1;1
break kind Initial
rgo
show s:c1;1
rgo
rgo
go
clear 1
break value s:c1;1 r3=60
rgo
goto 0
where
go
clear 2
goto 3
go
clear 2
break state p:c.example R-Open
break row server 3
goto 0
go
go
break row client x
break kind Nobody
break value s:c1;1 r64=1

step now";

/// What that is answered.
const GONE_ANSWERS: &str = "\
at 8
at 8 script 8 of 15
end at 15
break 1
break 2
stopped at 14 by 1
fault 3
at 0
fault 5
stopped at 15 by 1
cleared 1
break 3
stopped at 14 by 2
at 0
at 0 script 0 of 15
stopped at 15 by 2
cleared 2
at 3
stopped at 15 by 3
fault 4
break 4
break 5
at 0
stopped at 5 by 4
stopped at 8 by 4
fault 2
fault 1
fault 2
fault 1
fault 1
";

#[test]
fn places_are_gone_to_and_breakpoints_met(rt: HostRuntime) -> Result<(), Fail> {
    let session = Session {
        shards: 1,
        joined: false,
        script: SCRIPT,
        commands: GONE_COMMANDS,
        sent: 0,
    };
    assert!(rt; printed(rt.alloc(), &session)?.as_slice() == GONE_ANSWERS.as_bytes());
    Ok(())
}

#[test]
fn refused_steps_are_passed_over(rt: HostRuntime) -> Result<(), Fail> {
    let session = Session {
        shards: 1,
        joined: false,
        script: "work 0\ncame 1 00\njoin\nwork 0\n",
        commands: "back
step
where
step
go
where
go
goto 9
goto 0
where
go",
        sent: 0,
    };
    let wanted = "fault 5
fault 8 1
at 0 script 1 of 4
fault 8 2
fault 8 1
at 1 script 4 of 4
end at 1
end at 1
at 0
at 0 script 2 of 4
fault 8 1
";
    assert!(rt; printed(rt.alloc(), &session)?.as_slice() == wanted.as_bytes());
    Ok(())
}

#[test]
fn a_step_from_before_is_taken_back_to_the_start_of_the_script(
    rt: HostRuntime,
) -> Result<(), Fail> {
    let session = Session {
        shards: 1,
        joined: true,
        script: "lost 1\n",
        commands: "where
step
back
back
where
step
back",
        sent: 0,
    };
    let wanted = "at 1 script 0 of 1
lost 1
at 1
at 0
at 0 script 0 of 1
fault 8 2
fault 5
";
    assert!(rt; printed(rt.alloc(), &session)?.as_slice() == wanted.as_bytes());
    Ok(())
}

#[test]
fn a_session_is_spread_over_two_shards(rt: HostRuntime) -> Result<(), Fail> {
    let session = Session {
        shards: 2,
        joined: false,
        script: SPREAD,
        commands: "goto 15
show s:c1;1
show p:c.example
totals 100
go",
        sent: 140,
    };
    let wanted = "at 15
s:c1;1 Open r0=100 r1=1 r2=2001 r3=60 r4=3 r8=1 r15=1
p:c.example R-Open r1=1 r3=1 r4=1 r5=1 r14=4096 r15=1
given 100 reserved 60 debited 0 unpaid 0
end at 20
0100008c40000110000000040000000700000007000001074000000c63313b310000010c4000000c000007d10000010840000011732e6578616d706\
    c65000000000001284000000f6578616d706c6500000001024000000c00000004000001a04000000c000000010000019f4000000c0000000000\
    0001af40000018000001a140000010000000000000003c";
    assert!(rt; printed(rt.alloc(), &session)?.as_slice() == wanted.as_bytes());
    Ok(())
}

/// As many breakpoints as may be set, and one more.
const MANY: &str = "\
break machine p:c.example
break machine p:c.example
break machine p:c.example
break machine p:c.example
break machine p:c.example
break machine p:c.example
break machine p:c.example
break machine p:c.example
break machine p:c.example
break machine p:c.example
break machine p:c.example
break machine p:c.example
break machine p:c.example
break machine p:c.example
break machine p:c.example
break machine p:c.example
break machine p:c.example
break machine p:c.example
break machine p:c.example
break machine p:c.example
break machine p:c.example
break machine p:c.example
break machine p:c.example
break machine p:c.example
break machine p:c.example
break machine p:c.example
break machine p:c.example
break machine p:c.example
break machine p:c.example
break machine p:c.example
break machine p:c.example
break machine p:c.example
break machine p:c.example
clear 32
break kind Start
break kind Start";

/// What that is answered.
const MANY_ANSWERS: &str = "\
break 1
break 2
break 3
break 4
break 5
break 6
break 7
break 8
break 9
break 10
break 11
break 12
break 13
break 14
break 15
break 16
break 17
break 18
break 19
break 20
break 21
break 22
break 23
break 24
break 25
break 26
break 27
break 28
break 29
break 30
break 31
break 32
fault 6
cleared 32
break 33
fault 6
";

#[test]
fn thirty_two_breakpoints_are_set_at_a_time(rt: HostRuntime) -> Result<(), Fail> {
    let session = Session {
        shards: 1,
        joined: false,
        script: "",
        commands: MANY,
        sent: 0,
    };
    assert!(rt; printed(rt.alloc(), &session)?.as_slice() == MANY_ANSWERS.as_bytes());
    Ok(())
}
