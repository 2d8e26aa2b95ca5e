//! The lines of a script.
ghost use Rattle.std.specs.Prelude.{OnOk, map};
ghost use Rattle.bench_script.specs.Ran.{Does, DoesAsked, IsRunBy, Prints, Ran};

use crate::steps::{fire, settle, try_step};
use bench_core::Core;
use script_text::{RunLine, ScriptStep};
use std::alloc::{AllocError, Global};
use tab_call::Registry;
use tab_step::Stepped;

/// Does what a line of any script can ask for.
fn do_asked(
    alloc: Global,
    core: &mut Core,
    registries: &[Registry],
    room: &mut Stepped,
    asked: ScriptStep,
    out: &mut Vec<u8>,
) -> Result<(), AllocError>
    requires { IsRunBy core.old (map (λ r. r.book) registries.now) }
    ensures { OnOk result (Prints (DoesAsked core.old asked core.new) out.old.items out.new.items) }
{
    match asked {
        ScriptStep::Step(step) => try_step(alloc, core, registries, room, step, out),
        ScriptStep::Fired { key, generation } => {
            fire(alloc, core, registries, room, &key, generation, out)
        }
    }
}

/// Does what a line asks for.
fn do_line(
    alloc: Global,
    core: &mut Core,
    registries: &[Registry],
    room: &mut Stepped,
    line: RunLine,
    out: &mut Vec<u8>,
) -> Result<(), AllocError>
    requires { IsRunBy core.old (map (λ r. r.book) registries.now) }
    ensures { OnOk result (Prints (Does core.old line core.new) out.old.items out.new.items) }
{
    match line {
        RunLine::Asked(asked) => do_asked(alloc, core, registries, room, asked, out),
        RunLine::Settle => settle(alloc, core, registries, room, out),
    }
}

/// Does what the lines of a script ask for, in order, and puts behind what `out` holds the entry of each step that was
/// taken, as `log_text` prints it, and of each that was refused the line `refused CODE`: a refused step is passed over.
/// Want of memory ends the run; what was done and put until then stays. The registries are those that the bench was
/// opened with; `room` is where a move is decided, and what stands there is gone.
pub fn run_script(
    alloc: Global,
    core: &mut Core,
    registries: &[Registry],
    room: &mut Stepped,
    lines: Vec<RunLine>,
    out: &mut Vec<u8>,
) -> Result<(), AllocError>
    requires { IsRunBy core.old (map (λ r. r.book) registries.now) }
    ensures { OnOk result (Prints (Ran core.old lines.items core.new) out.old.items out.new.items) }
{
    let mut left = lines.into_iter();
    'lines: while let Some(line) = left.next() {
        do_line(alloc, core, registries, room, line, out)?;
    }
    Ok(())
}
