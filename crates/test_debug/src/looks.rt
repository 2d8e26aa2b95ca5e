//! What a debugger tells of a bench at its place, and where commands are refused.
use crate::sessions::{SCRIPT, Session, printed};
use std::test::Fail;

/// What is told of a session that has moved, and of one that has not.
const TOLD_COMMANDS: &str = "\
lines
go
history s:c1;1
why s:c1;1
lines
history s:c1;2
why s:c1;2
why c:c1;1
sent 1
sent 0
sent 2
sent x
sent";

/// What that is answered.
const TOLD_ANSWERS: &str = "\
end at 15
15 work 0
  s:c1;1 Initial Idle Open row 3
    Reserve 60 = 60 0
    To-Peer 0 1 7 7 2 1 1 0 0 0 3 0 2001 60
    Arm 1 600
15 work 0
  s:c1;1 Initial Idle Open row 3
    Reserve 60 = 60 0
    To-Peer 0 1 7 7 2 1 1 0 0 0 3 0 2001 60
    Arm 1 600
event Initial 1=1 2=7 3=7 4=1 5=1 6=1 7=100 9=60 10=3 12=2001 13=60
  Idle   Initial when enough                     Open-Account, Reserve, Snd-CCA, \
    Start-Tcc                                          Open
  row 0: repeat no
  row 1: old no
  row 2: grouped no enough yes
  row 3: enough yes
line 1 open sent 124
fault 3
fault 3
fault 3
message 1 at octet 0: CEA Capabilities-Exchange-Answer ----, version 1, length 124, command 257, application 0, \
    hop-by-hop 1, end-to-end 1
  20: 268 Result-Code -M- 12 2001 DIAMETER_SUCCESS
  32: 264 Origin-Host -M- 17 \"s.example\"
  52: 296 Origin-Realm -M- 15 \"example\"
  68: 257 Host-IP-Address -M- 14 192.0.2.1
  84: 266 Vendor-Id -M- 12 0
  96: 269 Product-Name --- 14 \"dbench\"
  112: 258 Auth-Application-Id -M- 12 4
fault 2
fault 2
fault 2
fault 1
";

#[test]
fn moves_are_told(rt: HostRuntime) -> Result<(), Fail> {
    let session = Session {
        shards: 1,
        joined: false,
        script: SCRIPT,
        commands: TOLD_COMMANDS,
        sent: 0,
    };
    assert!(rt; printed(rt.alloc(), &session)?.as_slice() == TOLD_ANSWERS.as_bytes());
    Ok(())
}

/// What waits on the way of a request.
const QUEUED_COMMANDS: &str = "\
queues
goto 3
queues
goto 4
queues
goto 11
queues
history p:c.example
accounts
go
queues
accounts
queues 1
accounts 1";

/// What that is answered.
const QUEUED_ANSWERS: &str = "\
at 3
line 1 outbox p:c.example R-Rcv-Message 1=1 2=7 3=7 4=1 5=1 6=1 7=100 9=60 10=3
line 1 hand p:c.example R-Conn-CER 1=1 2=1 3=1 5=1
at 4
line 1 outbox p:c.example R-Rcv-Message 1=1 2=7 3=7 4=1 5=1 6=1 7=100 9=60 10=3
shard 0 inbox p:c.example R-Conn-CER 1=1 2=1 3=1 5=1
at 11
shard 0 outbox s:c1;1 Initial 1=1 2=7 3=7 4=1 5=1 6=1 7=100 9=60 10=3
shard 0 hand p:c.example Disarm
5 work 0
  p:c.example R-Conn-CER Closed R-Open row 1
    Snd-CEA 0 1 1 1 2001
    Disarm
8 work 0
  p:c.example R-Rcv-Message R-Open R-Open row 23
    To-Session 0 1 7 7 1 1 1 100 0 60 3
account 100 given 100 reserved 0 debited 0 unpaid 0
end at 15
shard 0 outbox p:c.example Send-Message 1=1 2=7 3=7 4=2 5=1 6=1 10=3 12=2001 13=60
shard 0 outbox s:c1;1 Arm 1 600
account 100 given 100 reserved 60 debited 0 unpaid 0
fault 1
fault 1
";

#[test]
fn what_waits_is_shown(rt: HostRuntime) -> Result<(), Fail> {
    let session = Session {
        shards: 1,
        joined: false,
        script: SCRIPT,
        commands: QUEUED_COMMANDS,
        sent: 0,
    };
    assert!(rt; printed(rt.alloc(), &session)?.as_slice() == QUEUED_ANSWERS.as_bytes());
    Ok(())
}

/// A request for 60 units, and a timer that is armed and fires (RFC 8506 section 13).
const TIMED: &str = "\
told 0 c:x;2 Begin 7=100 9=60 10=3
lift desk 0
drop desk 0
work 0
lift shard 0
drop shard 0
lift shard 0
drop shard 0
fired c:x;2 1
";

/// What that is answered.
const TIMED_ANSWERS: &str = "\
at 1
desk 0 outbox c:x;2 Begin 7=100 9=60 10=3
at 4
shard 0 outbox p:c.example Send-Message 2=1 4=1 5=1 6=1 7=100 9=60 10=3
shard 0 outbox c:x;2 Arm 1 10
at 8
timer c:x;2 1
shard 0 inbox p:c.example Send-Message 2=1 4=1 5=1 6=1 7=100 9=60 10=3
end at 9
shard 0 inbox p:c.example Send-Message 2=1 4=1 5=1 6=1 7=100 9=60 10=3
clock outbox c:x;2 Tx
";

#[test]
fn timers_are_shown(rt: HostRuntime) -> Result<(), Fail> {
    let session = Session {
        shards: 1,
        joined: false,
        script: TIMED,
        commands: "goto 1
queues
goto 4
queues
timers
goto 8
timers
queues
go
timers
queues",
        sent: 0,
    };
    assert!(rt; printed(rt.alloc(), &session)?.as_slice() == TIMED_ANSWERS.as_bytes());
    Ok(())
}

/// The last step is taken back alone.
const UNDONE_COMMANDS: &str = "\
go
back
totals 100
accounts
show s:c1;1
history s:c1;1
why s:c1;1
queues
where
step
totals 100
history s:c1;1";

/// What that is answered.
const UNDONE_ANSWERS: &str = "\
end at 15
at 14
given 100 reserved 0 debited 0 unpaid 0
account 100 given 100 reserved 0 debited 0 unpaid 0
fault 3
fault 3
fault 3
shard 0 inbox s:c1;1 Initial 1=1 2=7 3=7 4=1 5=1 6=1 7=100 9=60 10=3
at 14 script 14 of 15
work 0
  s:c1;1 Initial Idle Open row 3
    Reserve 60 = 60 0
    To-Peer 0 1 7 7 2 1 1 0 0 0 3 0 2001 60
    Arm 1 600
given 100 reserved 60 debited 0 unpaid 0
15 work 0
  s:c1;1 Initial Idle Open row 3
    Reserve 60 = 60 0
    To-Peer 0 1 7 7 2 1 1 0 0 0 3 0 2001 60
    Arm 1 600
";

#[test]
fn the_last_step_is_taken_back_alone(rt: HostRuntime) -> Result<(), Fail> {
    let session = Session {
        shards: 1,
        joined: false,
        script: SCRIPT,
        commands: UNDONE_COMMANDS,
        sent: 0,
    };
    assert!(rt; printed(rt.alloc(), &session)?.as_slice() == UNDONE_ANSWERS.as_bytes());
    Ok(())
}

/// A connection is dialled and lost before it is there; its timer has fired by then (RFC 6733 section 5.6).
const DIALLED: &str = "\
told 0 p:c.example Start
lift desk 0
drop desk 0
work 0
lift shard 0
drop shard 0
lift shard 0
drop shard 0
fired p:c.example 1
lost 1
lift line 1
drop line 1
work 0
lift clock
drop clock
work 0
";

/// What is commanded: the stale firing is met by kind and by machine, and not by state, row or value.
const DIALLED_COMMANDS: &str = "\
break kind Timeout
go
rgo
step
goto 0
clear 1
break state p:c.example Closed
go
show p:c.example
go
rgo
break row peer 3
clear 2
goto 0
go
clear 3
break value p:c.example r15=2
goto 0
go
go
break machine p:c.example
clear 4
rgo
rgo
step
rgo
rgo
history p:c.example
why p:c.example
go
why p:c.example";

/// What that is answered.
const DIALLED_ANSWERS: &str = "\
break 1
stopped at 16 by 1
stopped at 15 by 1
work 0
  p:c.example Timeout Closed Closed stale
at 0
cleared 1
break 2
stopped at 13 by 2
p:c.example Closed r2=1 r15=2
end at 16
stopped at 12 by 2
break 3
cleared 2
at 0
stopped at 13 by 3
cleared 3
break 4
at 0
stopped at 13 by 4
end at 16
break 5
cleared 4
stopped at 15 by 5
stopped at 12 by 5
work 0
  p:c.example I-Rcv-Conn-Nack Wait-Conn-Ack Closed row 3
    Disarm
stopped at 12 by 5
stopped at 3 by 5
fault 3
stopped at 4 by 5
4 work 0
  p:c.example Start Closed Wait-Conn-Ack row 0
    Dial 0 1
    Arm 1 30
event Start
  Closed               Start            I-Snd-Conn-Req                    Wait-Conn-Ack
  row 0: always
";

#[test]
fn stale_items_meet_kinds_and_machines(rt: HostRuntime) -> Result<(), Fail> {
    let session = Session {
        shards: 1,
        joined: false,
        script: DIALLED,
        commands: DIALLED_COMMANDS,
        sent: 0,
    };
    assert!(rt; printed(rt.alloc(), &session)?.as_slice() == DIALLED_ANSWERS.as_bytes());
    Ok(())
}

/// What waits on the way of a connection that is dialled and lost.
const LOST_COMMANDS: &str = "\
goto 5
queues
lines
goto 6
lines
goto 8
timers
goto 9
queues
timers
goto 10
queues
lines
goto 14
queues
goto 15
queues
sent 1
goto 0
queues
timers
lines
accounts";

/// What that is answered.
const LOST_ANSWERS: &str = "\
at 5
shard 0 outbox p:c.example Arm 1 30
shard 0 hand p:c.example Dial 1
at 6
line 1 dialling c.example sent 0
at 8
timer p:c.example 1
at 9
clock outbox p:c.example Timeout
at 10
line 1 outbox p:c.example I-Rcv-Conn-Nack 1=1
clock outbox p:c.example Timeout
line 1 closed sent 0
at 14
shard 0 outbox p:c.example Disarm
clock hand p:c.example Timeout
at 15
shard 0 outbox p:c.example Disarm
shard 0 inbox p:c.example Timeout
at 0
account 100 given 100 reserved 0 debited 0 unpaid 0
";

#[test]
fn a_connection_is_dialled_and_lost(rt: HostRuntime) -> Result<(), Fail> {
    let session = Session {
        shards: 1,
        joined: false,
        script: DIALLED,
        commands: LOST_COMMANDS,
        sent: 0,
    };
    assert!(rt; printed(rt.alloc(), &session)?.as_slice() == LOST_ANSWERS.as_bytes());
    Ok(())
}

/// Commands where no step was taken and none is asked for, and numbers at their limits and past them.
const EDGE_COMMANDS: &str = "\
where
step
go
back
rgo
goto 0
goto 18446744073709551615
goto 18446744073709551616
show p:c.example
history p:c.example
why p:c.example
why s:c1;1
queues
timers
lines
sent 1
sent 4294967296
break row server 31
break row server 32
break value s:c1;1 r63=18446744073709551615
break value s:c1;1 r64=0
break value s:c1;1 r63=18446744073709551616
break state s:c1;1 R-Open
break machine x
break nothing
list server 32
clear 18446744073709551616
totals 0
show
help me";

/// What that is answered.
const EDGE_ANSWERS: &str = "\
at 0 script 0 of 0
end
end at 0
fault 5
fault 5
at 0
end at 0
fault 2
p:c.example Closed
fault 3
fault 3
fault 2
fault 2
break 1
fault 10
break 2
fault 2
fault 2
fault 1
fault 1
fault 1
fault 10
fault 2
fault 9
fault 1
fault 1
";

#[test]
fn limits_are_kept_where_nothing_is_done(rt: HostRuntime) -> Result<(), Fail> {
    let session = Session {
        shards: 1,
        joined: false,
        script: "",
        commands: EDGE_COMMANDS,
        sent: 0,
    };
    assert!(rt; printed(rt.alloc(), &session)?.as_slice() == EDGE_ANSWERS.as_bytes());
    Ok(())
}

/// A line for each command.
const HELP_LINES: &str = "\
step                      the next step of the script
back                      the last step is taken back
go                        steps up to a breakpoint, or to the end of the script
rgo                       back to the last entry that meets a breakpoint
goto N                    to the place where N steps are taken
break row ROLE R          stop at row R of a table: peer, client or server
break state KEY STATE     stop where a machine comes to stand in a state
break kind KIND           stop where an event of a kind is handled
break machine KEY         stop where an item for a machine is handled
break value KEY rR=V      stop where a register comes to have a value
clear B                   without breakpoint B
show KEY                  where a machine stands: state, registers that aren't 0
history KEY               the moves of a machine
why KEY                   its last move: event, row, guards
list ROLE R               row R of a table
totals ACCOUNT            what stands on an account
accounts                  what stands on each
queues                    what waits in each outbox, hand and inbox
timers                    which timers are armed
lines                     where each connection stands
sent L                    what connection L has sent
where                     the place, and the place in the script
";

#[test]
fn each_command_has_a_line_of_help(rt: HostRuntime) -> Result<(), Fail> {
    let session = Session {
        shards: 1,
        joined: false,
        script: "",
        commands: "help",
        sent: 0,
    };
    assert!(rt; printed(rt.alloc(), &session)?.as_slice() == HELP_LINES.as_bytes());
    Ok(())
}
