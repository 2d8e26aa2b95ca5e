//! A debugger on a bench that is opened with callbacks of all roles, or why there is none.
ghost use Rattle.std.specs.Prelude.{◌≡◌, IfOk, map, min};
ghost use Rattle.bench_open.specs.Given.{config_of};
ghost use Rattle.cmd_bench.specs.Told.{opened_with};
ghost use Rattle.cmd_debug.specs.Opened.{IsBegun, IsOpenedBy, laws_for};

use bench_core::Core;
use bench_debug::Debugger;
use bench_item::MAX_SHARDS;
use bench_open::Config;
use bench_setup::{WithCalls, opening_text, with_calls};
use cmd_bench::bad_line;
use event_text::LinesError;
use script_text::read_script;
use std::alloc::{AllocError, Global};
use tab_call::Registry;

/// A debugger, or why there is none.
#[derive(Drop)]
pub(crate) enum Opened {
    Ready(Debugger),
    Refused(Vec<u8>),
}

/// A debugger of a bench that is open, at the start of a script.
fn begin(alloc: Global, core: Core, script: &[u8]) -> Result<Opened, AllocError>
    ensures { IfOk result (IsBegun core script.now) }
{
    match read_script(alloc, core.laws(), script) {
        Ok(asked) => Ok(Opened::Ready(Debugger::new(alloc, core, asked)?)),
        Err(LinesError::NoMemory) => Err(AllocError),
        Err(LinesError::BadLine(line)) => Ok(Opened::Refused(bad_line(alloc, line)?)),
    }
}

/// A debugger of a bench that is opened with these registries.
fn open_with(
    alloc: Global,
    config: Config,
    registries: &[Registry],
    script: &[u8],
) -> Result<Opened, AllocError>
    ensures { IfOk result
        (IsOpenedBy (config_of config (map (λ r. r.book) registries.now))
        (map (λ r. r.book) registries.now) script.now) }
{
    match Core::new(alloc, config, registries) {
        Ok(core) => begin(alloc, core, script),
        Err(error) => Ok(Opened::Refused(opening_text(alloc, registries, &error)?)),
    }
}

/// A bench that is to be opened, and a script.
#[derive(Drop)]
struct Opening<'a> {
    alloc: Global,
    config: Config,
    script: &'a [u8],
}

impl WithCalls for Opening<'_> {
    type Answer = Opened;

    ghost answers = { λ opening laws opened.
        IsOpenedBy (config_of opening.config laws) laws opening.script.now opened };

    fn run(self, registries: Vec<Registry>) -> Result<Opened, AllocError> {
        let Opening {
            alloc,
            config,
            script,
        } = self;
        open_with(alloc, config, &registries, script)
    }
}

/// How many registries a bench has: one for each shard, of which there are no more than may be.
pub(crate) fn count_of(config: &Config) -> usize
    ensures { result ≡ min config.now.shards MAX_SHARDS }
{
    config.shards.min(MAX_SHARDS as u64) as usize
}

/// A debugger on a bench whose callbacks answer by the laws of all roles.
pub(crate) fn open(alloc: Global, config: Config, script: &[u8]) -> Result<Opened, AllocError>
    ensures { IfOk result (IsOpenedBy (opened_with config) (laws_for config) script.now) }
{
    let count = count_of(&config);
    let opening = Opening {
        alloc,
        config,
        script,
    };
    with_calls(alloc, count, opening)
}
