//! A bench opened with callbacks of all roles, a script run on it, and that told.
ghost use Rattle.std.specs.Prelude.{◌≡◌, ◌<◌, ◌≤◌, ◌-◌, ◌^◌, IfOk, map, max};
ghost use Rattle.bench_script.specs.Ran.{IsRunBy};
ghost use Rattle.bench_open.specs.Given.{config_of};
ghost use Rattle.cmd_bench.specs.Told.{IsBenchRun, IsRunIn, IsRunOn, bad_text, opened_with};

use crate::shown::{Shown, run_text};
use base_device::{ByteSink, MAX_IDLE_WRITES, Status, Told, tell};
use base_progress::{Progress, Unwatched};
use base_text::put_number;
use bench_item::MAX_SHARDS;
use bench_nodes::Core;
use bench_open::{Account, Config};
use bench_setup::{WithCalls, opening_text_at, unbound_at, with_calls};
use event_text::LinesError;
use script_text::read_run_script;
use std::alloc::{AllocError, Global};
use tab_call::Registry;
use tab_step::Stepped;

/// `bad line N`: the first line of a script that has another form.
pub fn bad_line(alloc: Global, line: usize) -> Result<Vec<u8>, AllocError>
    ensures { IfOk result (λ text. text.items ≡ bad_text line) }
{
    let mut text = Vec::new(alloc);
    put_number(&mut text, b"bad line ", line as u64)?;
    text.extend_from_slice(b"\n")?;
    Ok(text)
}

/// A script's run on a bench that is open.
fn run_in<P: Progress>(
    alloc: Global,
    core: &mut Core,
    registries: &[Registry],
    script: &[u8],
    shown: Shown,
    accounts: &[u64],
    progress: &mut P,
) -> Result<Told, AllocError>
    requires { IsRunBy core.old (map (λ r. r.book) registries.now) }
    ensures { IfOk result (λ run. IsRunIn core.old script.now shown accounts.now run.text.items run.refused) }
{
    let mut room = Box::new(alloc, Stepped::new())?;
    match read_run_script(alloc, core.laws(), script) {
        Ok(lines) => Ok(Told {
            text: run_text(
                alloc, core, registries, &mut room, lines, shown, accounts, progress,
            )?,
            refused: false,
        }),
        Err(LinesError::NoMemory) => Err(AllocError),
        Err(LinesError::BadLine(line)) => Ok(Told::refusal(bad_line(alloc, line)?)),
    }
}

/// The numbers of accounts.
pub(crate) fn numbers_of(alloc: Global, accounts: &[Account]) -> Result<Vec<u64>, AllocError>
    ensures { IfOk result (λ numbers. numbers.items ≡ map (λ account. account.id) accounts.now) }
{
    accounts.iter().map(|account| account.id).collect(alloc)
}

/// A script's run on a bench that is opened with these registries.
fn run_with<P: Progress>(
    alloc: Global,
    config: Config,
    registries: &[Registry],
    script: &[u8],
    shown: Shown,
    progress: &mut P,
) -> Result<Told, AllocError>
    ensures { IfOk result (λ run. IsBenchRun (config_of config (map (λ r. r.book) registries.now)) script.now shown
        run.text.items run.refused) }
{
    let accounts = numbers_of(alloc, &config.accounts)?;
    let place = unbound_at(alloc, &config, registries);
    match Core::new(alloc, config, registries) {
        Ok(mut core) => run_in(
            alloc, &mut core, registries, script, shown, &accounts, progress,
        ),
        Err(error) => Ok(Told::refusal(opening_text_at(alloc, registries, place, &error)?)),
    }
}

/// A script that is to be run on a bench.
#[derive(Drop)]
struct Job<'a, P> {
    alloc: Global,
    config: Config,
    script: &'a [u8],
    shown: Shown,
    progress: &'a mut P,
}

impl<P: Progress> WithCalls for Job<'_, P> {
    type Answer = Told;

    ghost answers = { λ job laws run. IsBenchRun (config_of job.config laws) job.script.now job.shown run.text.items
        run.refused };

    fn run(self, registries: Vec<Registry>) -> Result<Told, AllocError> {
        let Job {
            alloc,
            config,
            script,
            shown,
            progress,
        } = self;
        run_with(alloc, config, &registries, script, shown, progress)
    }
}

/// A script's run on a bench with callbacks that answer by the laws of all roles.
fn run_all<P: Progress>(
    alloc: Global,
    config: Config,
    script: &[u8],
    shown: Shown,
    progress: &mut P,
) -> Result<Told, AllocError>
    ensures { IfOk result (λ run. IsBenchRun (opened_with config) script.now shown run.text.items run.refused) }
{
    let count = config.shards.min(MAX_SHARDS as u64) as usize;
    let job = Job {
        alloc,
        config,
        script,
        shown,
        progress,
    };
    with_calls(alloc, count, job)
}

/// Opens a bench with callbacks that answer by the laws of all roles, runs a script on it, and prints that. Refused
/// are, in this order, an opening, and a line of the script that has another form, the first of them;
/// then nothing is run.
pub fn run_on<O: ByteSink>(
    alloc: Global,
    config: Config,
    script: &[u8],
    shown: Shown,
    sink: &mut O,
) -> Status
    requires idle { O.idle sink.old ≡ 0 }
    requires failures { O.failures sink.old < 2 ^ 64 - 1 }
    ensures run { IsRunOn O.contents O.failures O.idle (opened_with config) script.now shown sink.old sink.new result }
    ensures row { O.most_idle sink.new ≤ max (O.most_idle sink.old) MAX_IDLE_WRITES }
{
    run_watched_on(alloc, config, script, shown, sink, &mut Unwatched)
}

/// The same, and `progress` is told how far the run is.
pub(crate) fn run_watched_on<O: ByteSink, P: Progress>(
    alloc: Global,
    config: Config,
    script: &[u8],
    shown: Shown,
    sink: &mut O,
    progress: &mut P,
) -> Status
    requires idle { O.idle sink.old ≡ 0 }
    requires failures { O.failures sink.old < 2 ^ 64 - 1 }
    ensures run { IsRunOn O.contents O.failures O.idle (opened_with config) script.now shown sink.old sink.new result }
    ensures row { O.most_idle sink.new ≤ max (O.most_idle sink.old) MAX_IDLE_WRITES }
{
    match run_all(alloc, config, script, shown, progress) {
        Ok(run) => tell(sink, &run.text, run.status()),
        Err(AllocError) => tell(sink, b"no memory\n", Status::NoMemory),
    }
}
