//! The configured peers of a node, and the numbers of their machines.

ghost use Rattle.std.specs.Prelude.{◌≡◌, ◌==◌, ◌<◌, ◌≤◌, ◌++◌, ◌∷◌, [], Some, None, OnOk, OnErr, IfErr, IfOk, IfSome};
ghost use Rattle.std.specs.Prelude.{length, filter, slice_get, option_copied};
ghost use Rattle.base_list.specs.Adding.{error_of};
ghost use Rattle.bench_item.specs.Keys.{numbered};
ghost use Rattle.bench_item.specs.Peers.{configured_host, host_place, is_same_host, numbered_host};
ghost use Rattle.bench_item.specs.Peers.{number_of_peer, refusal};

use crate::limit::{MAX_MACHINES, MAX_PEERS, MAX_SHARDS};
use crate::shard::shard_of;
use base_list::{AddError, AddFault, Octets};
use std::alloc::{AllocError, Global};
use std::marker::Model;

/// Whether two hosts are one: octets are compared, ASCII letters without regard to case (RFC 6733 section 4.3.1).
/// Takes no memory.
pub fn is_same_host(one: &[u8], other: &[u8]) -> bool
    ensures { result ≡ is_same_host one.now other.now }
{
    one.eq_ignore_ascii_case(other)
}

/// How many of these are that one.
fn count_of(homes: &[u64], home: u64) -> u64
    ensures count { result ≡ length (filter (λ one. one == home) homes.now) }
    ensures few { result ≤ length homes.now }
{
    let mut count = 0;
    for one in homes {
        if *one == home {
            count += 1;
        }
    }
    count
}

/// Appends a host and its shard, or neither.
fn append(
    hosts: &mut Vec<Octets>,
    homes: &mut Vec<u64>,
    host: Octets,
    home: u64,
) -> Result<(), AddError>
    ensures hosts { OnOk result (hosts.new.items ≡ hosts.old.items ++ host ∷ []) }
    ensures homes { OnOk result (homes.new.items ≡ homes.old.items ++ home ∷ []) }
    ensures fault { IfErr result (λ e. e ≡ AddError.NoMemory) }
    ensures err { OnErr result ((hosts.new.items ≡ hosts.old.items) × (homes.new.items ≡ homes.old.items)) }
{
    homes.reserve(1)?;
    hosts.push(host)?;
    homes.push(home).unwrap();
    Ok(())
}

/// The hosts of the configured peers in their order, and how many shards the node has. No host is there twice, in
/// another case neither. A peer's machine has a number of its own: a shard's peers come first in its directory, in the
/// order of the configuration.
///
/// In: `add`. Looks: `hosts`, `number`, `find`, `numbered`, `shards`.
pub struct Peers {
    alloc: Global,
    hosts: Vec<Octets>,
    // Of each host its shard.
    homes: Vec<u64>,
    shards: usize,
}

impl Drop for Peers {
    fn drop(self) {
        let Peers {
            alloc: _,
            hosts,
            homes,
            shards: _,
        } = self;
    }
}

impl Model for Peers {
    ghost use Rattle.std.specs.Prelude.{◌≡◌, map};
    ghost use Rattle.bench_item.specs.Keys.{Configured, home};
    ghost use Rattle.bench_item.specs.Peers.{IsConfigured};

    ghost Value = { Configured };

    ghost view = { λ p. record { hosts = p.hosts.items; shards = p.shards } };

    ghost invariant = { λ p. IsConfigured (record { hosts = p.hosts.items; shards = p.shards })
        × (p.homes.items ≡ map (home p.shards) p.hosts.items) };
}

impl Peers {
    /// A node of so many shards, without peers. Takes no memory.
    pub fn new(alloc: Global, shards: usize) -> Peers
        requires some { 0 < shards }
        requires few { shards ≤ MAX_SHARDS }
        ensures { result ≡ record { hosts = []; shards = shards } }
    {
        Peers {
            alloc,
            hosts: Vec::new(alloc),
            homes: Vec::new(alloc),
            shards,
        }
    }

    /// How many shards there are.
    pub fn shards(&self) -> usize
        ensures count { result ≡ self.now.shards }
        ensures some { 0 < result }
        ensures few { result ≤ MAX_SHARDS }
    {
        self.shards
    }

    /// The hosts, as they are configured.
    pub fn hosts(&self) -> &[Octets]
        ensures { result.now ≡ self.now.hosts }
    {
        &self.hosts
    }

    // The place of a host among the peers.
    fn place(&self, host: &[u8]) -> Option<usize>
        ensures { result ≡ host_place self.now host.now }
    {
        self.hosts
            .iter()
            .position(|one| is_same_host(one.as_slice(), host))
    }

    // Why a host may not be added, memory aside.
    fn refusal(&self, host: &[u8]) -> Option<AddFault>
        ensures { result ≡ refusal host.now self.now }
    {
        if self.place(host).is_some() {
            return Some(AddFault::Taken);
        }
        if MAX_PEERS <= self.hosts.len() {
            return Some(AddFault::Full);
        }
        None
    }

    /// Adds a peer behind the others, by its host: `Taken` where that is there in any case of its letters.
    pub fn add(&mut self, host: &[u8]) -> Result<(), AddError>
        ensures ok { OnOk result (self.new ≡ record self.old { hosts = self.old.hosts ++ host.now ∷ [] }) }
        ensures free { OnOk result (refusal host.now self.old ≡ None) }
        ensures fault { IfErr result (λ e. e ≡ error_of (refusal host.now self.old)) }
        ensures err { OnErr result (self.new ≡ self.old) }
    {
        if let Some(fault) = self.refusal(host) {
            return Err(AddError::Fault(fault));
        }
        let home = shard_of(self.shards, host) as u64;
        let host = Octets::from_slice(self.alloc, host)?;
        append(&mut self.hosts, &mut self.homes, host, home)
    }

    /// The number of the machine of the peer at a place, from 0; none where no peer is there. Takes no memory.
    pub fn number(&self, place: usize) -> Option<u64>
        ensures number { result ≡ number_of_peer self.now place }
        // It is that peer's alone.
        ensures own { IfSome result (λ number. numbered self.now number ≡ slice_get self.now.hosts place) }
    {
        let home = *self.homes.get(place)?;
        let before = count_of(&self.homes[..place], home);
        Some(home * MAX_MACHINES as u64 + before)
    }

    /// The number of the machine of the peer that a message names so, in any case of its letters; none where it names
    /// none. Takes no memory.
    pub fn find(&self, host: &[u8]) -> Option<u64>
        ensures number { result ≡ numbered_host self.now host.now }
        ensures own { IfSome result (λ number. numbered self.now number ≡ configured_host self.now host.now) }
    {
        self.number(self.place(host)?)
    }

    // The host of the peer whose machine has that number.
    fn host(&self, number: u64) -> Option<&Octets>
        ensures { option_copied result ≡ numbered self.now number }
    {
        let shard = number / MAX_MACHINES as u64;
        let mut before = number % MAX_MACHINES as u64;
        for (place, home) in self.homes.iter().enumerate() {
            if *home == shard {
                if before == 0 {
                    return self.hosts.get(place);
                }
                before -= 1;
            }
        }
        None
    }

    /// The host of the peer whose machine has that number; none where no peer's has. Takes no memory.
    pub fn numbered(&self, number: u64) -> Option<&Octets>
        ensures host { option_copied result ≡ numbered self.now number }
        // A message that names it so names that peer.
        ensures found { IfSome (option_copied result) (λ host. numbered_host self.now host ≡ Some number) }
    {
        let _ = &self.hosts;
        self.host(number)
    }

    /// The same peers in memory of their own.
    pub fn copy(&self, alloc: Global) -> Result<Peers, AllocError>
        ensures { IfOk result (λ p. p ≡ self.now) }
    {
        let mut hosts = Vec::with_capacity(alloc, self.hosts.len())?;
        for host in &self.hosts {
            hosts.push(host.copy(alloc)?)?;
        }
        Ok(Peers {
            alloc,
            hosts,
            homes: Vec::from_slice(alloc, &self.homes)?,
            shards: self.shards,
        })
    }
}
