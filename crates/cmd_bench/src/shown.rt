//! What is printed of a run.
ghost use Rattle.std.specs.Prelude.{◌≡◌, ◌++◌, IfOk, OnOk, map};
ghost use Rattle.bench_script.specs.Ran.{Does, IsRunBy, Prints};
ghost use Rattle.cmd_bench.specs.Told.{RunShown, RunText, ends_text, if_shown};

use base_progress::Progress;
use bench_nodes::Core;
use bench_script::{put_lines, put_totals, run_script};
use script_text::RunLine;
use std::alloc::{AllocError, Global};
use tab_call::Registry;
use tab_step::Stepped;

/// What is printed of a run.
#[derive(Clone, Copy)]
pub struct Shown {
    /// The entries of steps, and why steps were refused.
    pub steps: bool,
    /// At the end where each line stands and what it sent.
    pub lines: bool,
    /// At the end what stands on each account.
    pub totals: bool,
}

/// Puts what is printed at the end of a run.
fn put_ends(
    out: &mut Vec<u8>,
    core: &Core,
    shown: Shown,
    accounts: &[u64],
) -> Result<(), AllocError>
    ensures { OnOk result (out.new.items ≡ out.old.items ++ ends_text shown core.now accounts.now) }
{
    if shown.lines {
        put_lines(out, core)?;
    }
    if shown.totals {
        put_totals(out, core, accounts)?;
    }
    Ok(())
}

/// After so many lines it is told how far a run is.
const LINES: usize = 1_000;

/// Tells how far a run is, now and then.
fn look<P: Progress>(progress: &mut P, left: usize, total: usize) {
    if left % LINES == 0 {
        progress.at(total.saturating_sub(left), total);
    }
}

/// Does what a line asks for.
fn run_line(
    alloc: Global,
    core: &mut Core,
    registries: &[Registry],
    room: &mut Stepped,
    line: RunLine,
    out: &mut Vec<u8>,
) -> Result<(), AllocError>
    requires { IsRunBy core.old (map (λ r. r.book) registries.now) }
    ensures { OnOk result (Prints (Does core.old line core.new) out.old.items out.new.items) }
{
    let mut lines = Vec::new(alloc);
    lines.push(line)?;
    run_script(alloc, core, registries, room, lines, out)?;
    Ok(())
}

/// Lets go of what was put, where it isn't shown.
fn keep(shown: bool, out: &mut Vec<u8>)
    ensures { out.new.items ≡ if_shown shown out.old.items }
{
    if !shown {
        out.clear();
    }
}

/// What the lines of a script print that are run on a bench, where that is shown. How far the run is, is told.
fn run_lines<P: Progress>(
    alloc: Global,
    core: &mut Core,
    registries: &[Registry],
    room: &mut Stepped,
    lines: Vec<RunLine>,
    steps: bool,
    progress: &mut P,
) -> Result<Vec<u8>, AllocError>
    requires { IsRunBy core.old (map (λ r. r.book) registries.now) }
    ensures { IfOk result (λ text. RunShown core.old lines.items steps core.new text.items) }
{
    let mut text = Vec::new(alloc);
    let total = lines.len();
    let mut left = lines.into_iter();
    'lines: while let Some(line) = left.next() {
        run_line(alloc, core, registries, room, line, &mut text)?;
        keep(steps, &mut text);
        look(progress, left.len(), total);
    }
    Ok(text)
}

/// What is printed where the lines of a script are run on a bench. How far the run is, is told.
pub(crate) fn run_text<P: Progress>(
    alloc: Global,
    core: &mut Core,
    registries: &[Registry],
    room: &mut Stepped,
    lines: Vec<RunLine>,
    shown: Shown,
    accounts: &[u64],
    progress: &mut P,
) -> Result<Vec<u8>, AllocError>
    requires { IsRunBy core.old (map (λ r. r.book) registries.now) }
    ensures { IfOk result (λ text. RunText core.old lines.items shown accounts.now text.items) }
{
    let mut text = run_lines(alloc, core, registries, room, lines, shown.steps, progress)?;
    put_ends(&mut text, core, shown, accounts)?;
    Ok(text)
}
