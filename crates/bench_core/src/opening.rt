//! A world is opened.
ghost use Rattle.std.specs.Prelude.{◌≡◌, None, IfOk, IfErr, map};
ghost use Rattle.bench_open.specs.Faults.{IsOpeningError};
ghost use Rattle.bench_open.specs.Given.{config_of};
ghost use Rattle.bench_open.specs.Openable.{IsOpenable};
ghost use Rattle.bench_spec.specs.Opening.{opening_refusal, settings_of};
ghost use Rattle.bench_spec.specs.Taken.{opened};
ghost use Rattle.bench_start.specs.Starting.{settings_with};

use crate::keeping::Core;
use crate::parts::{open_outboxes, open_shards};
use bench_line::Lines;
use bench_log::Log;
use bench_open::{Config, opening_fault};
use bench_spec::OpeningError;
use bench_start::{open_pages, open_peers, open_roles, opening_error};
use bench_undo::UndoLog;
use line_message::Listener;
use std::alloc::{AllocError, Global};
use tab_call::Registry;
use tab_law::LawBook;
use tick_wheel::Wheel;

impl Core {
    /// A world of a configuration that nothing is in the way of, with these laws.
    fn open(alloc: Global, config: Config, laws: &LawBook) -> Result<Core, AllocError>
        requires { IsOpenable config laws.now }
        ensures { IfOk result (λ core. core ≡ opened (settings_with config laws.now)) }
    {
        let Config {
            identity,
            peers,
            accounts,
            shards,
            pages,
            desks,
            default_units,
            dictionary,
            peer,
            client,
            server,
        } = config;
        let roles = open_roles(alloc, peer, client, server, laws)?;
        let peers = open_peers(alloc, shards as usize, &peers)?;
        let listener = Listener::new(alloc, identity, dictionary, &peers, default_units, laws)?;
        let all_shards = open_shards(alloc, &peers, shards as usize)?;
        let outboxes = open_outboxes(alloc, desks as usize + 1)?;
        let all_pages = open_pages(alloc, pages, &accounts)?;
        Ok(Core {
            alloc,
            roles,
            accounts,
            page_count: pages,
            desk_count: desks as u32,
            shards: all_shards,
            outboxes,
            lines: Lines::new(alloc, listener),
            carried: Vec::new(alloc),
            pages: all_pages,
            wheel: Wheel::new(alloc),
            log: Log::new(alloc),
            undo: UndoLog::new(alloc),
        })
    }

    /// A world of a configuration, with a registry for each shard, whose laws it takes. Refused is the first reason of
    /// `opening_refusal`; memory may be wanting where there is none, or for the copy of a name.
    pub fn new(alloc: Global, config: Config, registries: &[Registry]) -> Result<Core, OpeningError>
        ensures ok { IfOk result (λ core. (opening_refusal (config_of config (map (λ r. r.book) registries.now)) ≡ None)
            × (core ≡ opened (settings_of (config_of config (map (λ r. r.book) registries.now))))) }
        ensures fault { IfErr result (IsOpeningError (config_of config (map (λ r. r.book) registries.now))) }
    {
        if let Some(fault) = opening_fault(&config, registries) {
            return Err(opening_error(alloc, fault));
        }
        match Core::open(alloc, config, registries[0].laws()) {
            Ok(core) => Ok(core),
            Err(AllocError) => Err(OpeningError::NoMemory),
        }
    }
}
