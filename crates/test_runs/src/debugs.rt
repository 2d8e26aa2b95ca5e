//! Debuggers are told commands, and what is printed of these is compared.

use crate::runs::{server, session_log};
use base_device::{Counting, Inputs, Status};
use cmd_debug::debug_on;
use std::test::Fail;

/// Whether a debugger on a script prints this text of commands, and ends so.
fn replies(
    rt: &HostRuntime,
    script: &[u8],
    commands: &str,
    text: &str,
    status: Status,
) -> Result<bool, Fail> {
    let alloc = rt.alloc();
    let mut source = Counting::new(Inputs::new(rt, commands.as_bytes()));
    let mut sink = Counting::new(Vec::new(alloc));
    let config = server(alloc)?;
    let ended = debug_on(alloc, config, script, None, &mut source, &mut sink);
    Ok(ended == status && sink.device.as_slice() == text.as_bytes())
}

#[test]
fn steps_go_forward_and_back(rt: HostRuntime) -> Result<(), Fail> {
    let script = b"join\nwork 0\n";
    let commands = "where\nstep\nwhere\nstep\nwhere\nstep\nback\nback\nwhere";
    let text =
        "at 0 script 0 of 2\njoin\nat 1 script 1 of 2\nfault 8 1\nat 1 script 2 of 2\nend\nat 0\nfault 5\n\
            at 0 script 0 of 2\n";
    assert!(rt; replies(&rt, script, commands, text, Status::Done)?);
    Ok(())
}

#[test]
fn each_line_is_replied_to(rt: HostRuntime) -> Result<(), Fail> {
    for (commands, text) in [
        ("", ""),
        ("go\n", "end at 1\n"),
        ("go\nrgo\nrgo\n", "end at 1\nat 0\nfault 5\n"),
        ("goto 1\ngoto 0\ngoto 2\n", "at 1\nat 0\nend at 1\n"),
        ("break row server 99\nclear 7\n", "fault 10\nfault 4\n"),
        ("break machine s:c1;1\nclear 1\n", "break 1\ncleared 1\n"),
        ("show s:c1;1\ntotals 7\n", "fault 3\nfault 9\n"),
        ("totals 100\n", "given 100 reserved 0 debited 0 unpaid 0\n"),
        ("\nnonsense\nclear x\n", "fault 1\nfault 1\nfault 2\n"),
    ] {
        assert!(rt; replies(&rt, b"join\n", commands, text, Status::Done)?);
    }
    Ok(())
}

#[test]
fn log_is_a_script(rt: HostRuntime) -> Result<(), Fail> {
    let log = session_log(rt.alloc())?;
    let commands = "break state s:c1;1 Open\ngo\nshow s:c1;1\ntotals 100\nback\nshow s:c1;1\n";
    let text =
        "break 1\nstopped at 16 by 1\ns:c1;1 Open r0=100 r1=1 r2=2001 r3=60 r4=3 r8=1 r14=1 r15=1\n\
            given 100 reserved 60 debited 0 unpaid 0\nat 15\nfault 3\n";
    assert!(rt; replies(&rt, &log, commands, text, Status::Done)?);
    Ok(())
}

#[test]
fn script_is_refused_before_commands(rt: HostRuntime) -> Result<(), Fail> {
    let script = b"join\nsettle\n";
    assert!(rt; replies(&rt, script, "where\n", "bad line 2\n", Status::Refused)?);
    Ok(())
}
