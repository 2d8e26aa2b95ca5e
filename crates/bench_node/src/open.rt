//! A bench opened by callbacks of all roles.
ghost use Rattle.std.specs.Prelude.{◌≡◌, IfErr, IfOk, None, map};
ghost use Rattle.std.specs.List.{AllByRecursion as Each};
ghost use Rattle.bench_open.specs.Given.{config_of};
ghost use Rattle.bench_open.specs.Faults.{IsOpeningError};
ghost use Rattle.bench_spec.specs.Opening.{opening_refusal, settings_of};
ghost use Rattle.bench_spec.specs.Taken.{opened};
ghost use Rattle.role_tables.specs.Roles.{all_laws};

use bench_open::Config;
use bench_spec::OpeningError;
use live_desk::Core;
use std::alloc::Global;
use tab_call::Registry;

/// A bench with a registry for each shard, each of which answers by the laws of all roles: as `Core::new`, and its
/// laws are those.
pub fn open_bench(
    alloc: Global,
    config: Config,
    registries: &[Registry],
) -> Result<Core, OpeningError>
    requires { Each (λ r. r.book ≡ all_laws) registries.now }
    ensures ok { IfOk result (λ core. (opening_refusal (config_of config (map (λ r. r.book) registries.now)) ≡ None)
        × (core ≡ opened (settings_of (config_of config (map (λ r. r.book) registries.now))))) }
    ensures laws { IfOk result (λ core. core.settings.node.laws ≡ all_laws) }
    ensures fault { IfErr result (IsOpeningError (config_of config (map (λ r. r.book) registries.now))) }
{
    match Core::new(alloc, config, registries) {
        Ok(core) => Ok(core),
        Err(error) => Err(error),
    }
}
