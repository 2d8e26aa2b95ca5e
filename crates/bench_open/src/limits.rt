//! Whether numbers are as they may be.
ghost use Rattle.std.specs.Prelude.{◌≡◌, map};
ghost use Rattle.bench_spec.specs.Opening.{is_past_limits, is_within};
ghost use Rattle.bench_open.specs.Given.{config_of};

use crate::config::Config;
use bench_item::{MAX_DESKS, MAX_PAGES, MAX_PEERS, MAX_SHARDS};
use tab_call::Registry;

/// Whether a number is 1 at least and within a limit.
pub(crate) fn is_within(limit: usize, number: u64) -> bool
    ensures { result ≡ is_within limit number }
{
    0 < number && number <= limit as u64
}

/// Whether a number of shards, pages, desks, peers or registries is not as it may be.
pub(crate) fn is_past_limits(config: &Config, registries: &[Registry]) -> bool
    ensures { result ≡ is_past_limits (config_of config.now (map (λ r. r.book) registries.now)) }
{
    !(is_within(MAX_SHARDS, config.shards) && is_within(MAX_PAGES, config.pages))
        || config.desks > MAX_DESKS as u64
        || config.peers.len() > MAX_PEERS
        || registries.len() as u64 != config.shards
}
