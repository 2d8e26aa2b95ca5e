//! The parts of a configuration.
ghost use Rattle.std.specs.Prelude.{◌≡◌, ◌<◌, None, IfOk, IfErr, length, map};
ghost use Rattle.bench_open.specs.Faults.{IsOpeningError};
ghost use Rattle.bench_open.specs.Given.{config_of};
ghost use Rattle.bench_open.specs.Openable.{IsOpenable};
ghost use Rattle.bench_spec.specs.Opening.{opening_refusal, settings_of};
ghost use Rattle.bench_start.specs.Starting.{settings_with};
ghost use Rattle.live_open.specs.Opening.{AreFew, AreOpened, Agree};

use crate::parts::open_shards;
use acct_book::Page;
use bench_desk::ShardPart;
use bench_open::{Config, opening_fault};
use bench_spec::OpeningError;
use bench_start::{open_pages, open_peers, open_roles, opening_error};
use line_message::Listener;
use live_parts::{ClockPart, LinesPart};
use std::alloc::{AllocError, Global};
use std::sync::Arc;
use tab_call::Registry;
use tab_law::LawBook;

/// The parts of a bench to which nothing happened yet:
/// its shards and pages, by their numbers, its connections, its timers, and how many desks it has.
pub struct Opened {
    pub shards: Vec<ShardPart>,
    pub pages: Vec<Page>,
    pub lines: LinesPart,
    pub clock: ClockPart,
    pub desks: u32,
}

impl Opened {
    // The parts of a configuration that nothing is in the way of, with these laws.
    fn open(alloc: Global, config: Config, laws: &LawBook) -> Result<Opened, AllocError>
        requires { IsOpenable config laws.now }
        ensures { IfOk result (λ o. AreOpened (settings_with config laws.now) o.shards.items o.pages.items
            o.lines o.clock o.desks) }
    {
        let Config {
            identity,
            peers,
            accounts,
            shards,
            pages,
            desks,
            default_units,
            dictionary,
            peer,
            client,
            server,
        } = config;
        let roles = Arc::new(alloc, open_roles(alloc, peer, client, server, laws)?)?;
        let peers = open_peers(alloc, shards as usize, &peers)?;
        let listener = Listener::new(alloc, identity, dictionary, &peers, default_units, laws)?;
        let all_shards = open_shards(alloc, &roles, &peers, shards as usize)?;
        let all_pages = open_pages(alloc, pages, &accounts)?;
        Ok(Opened {
            shards: all_shards,
            pages: all_pages,
            lines: LinesPart::new(alloc, listener),
            clock: ClockPart::new(alloc, roles),
            desks: desks as u32,
        })
    }

    /// The parts of a bench of a configuration, with a registry for each shard, whose laws they take. Refused is
    /// the first reason of `opening_refusal`, as where a world is opened; memory may be wanting where there is
    /// none, or for the copy of a name.
    pub fn new(
        alloc: Global,
        config: Config,
        registries: &[Registry],
    ) -> Result<Opened, OpeningError>
        ensures could { IfOk result
            (λ o. opening_refusal (config_of config (map (λ r. r.book) registries.now)) ≡ None) }
        ensures ok { IfOk result (λ o. AreOpened (settings_of (config_of config (map (λ r. r.book) registries.now)))
            o.shards.items o.pages.items o.lines o.clock o.desks) }
        ensures agree { IfOk result (λ o. Agree o.shards.items (map (λ r. r.book) registries.now)) }
        ensures count { IfOk result (λ o. (length o.shards.items ≡ config.shards) × (o.desks ≡ config.desks)) }
        ensures some_page { IfOk result (λ o. 0 < length o.pages.items) }
        ensures few { IfOk result (λ o. AreFew o.shards.items) }
        ensures fault { IfErr result (IsOpeningError (config_of config (map (λ r. r.book) registries.now))) }
    {
        if let Some(fault) = opening_fault(&config, registries) {
            return Err(opening_error(alloc, fault));
        }
        match Opened::open(alloc, config, registries[0].laws()) {
            Ok(opened) => Ok(opened),
            Err(AllocError) => Err(OpeningError::NoMemory),
        }
    }
}
