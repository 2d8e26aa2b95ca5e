//! Logs that are legal, whole.
ghost use Rattle.bench_spec.specs.BusyLog as busy;
ghost use Rattle.bench_spec.specs.ChargeLog as charge;
ghost use Rattle.bench_spec.specs.Desks.{Gathers};
ghost use Rattle.bench_spec.specs.ExampleLog as example;
ghost use Rattle.bench_spec.specs.Legal.{IsLegal};
ghost use Rattle.bench_spec.specs.Merged.{IsMerged};
ghost use Rattle.bench_spec.specs.MergedLog as merged;
ghost use Rattle.bench_spec.specs.SessionLog as session;
ghost use Rattle.bench_spec.specs.Taken.{opened, with_log};
ghost use Rattle.std.specs.Prelude.{Ok};

/// A log of six entries is legal: a desk tells a peer Start, its machine moves, and its timer is armed.
pub fn example_is_legal()
    ensures { IsLegal example.settings example.log }
{}

/// A log of twenty entries is legal: a session's timer fires twice, late and stale the first time, and ends the session
/// the second time.
pub fn session_log_is_legal()
    ensures { IsLegal session.settings session.log }
{}

/// A log of twenty entries on two shards, two pages and two desks is legal: two sessions reserve units, the second for
/// one of several services.
pub fn charge_log_is_legal()
    ensures { IsLegal charge.settings charge.log }
{}

/// The same where the second session asks for 60 units of the account of which 60 are reserved and 40 are left: it is
/// refused.
pub fn refused_log_is_legal()
    ensures { IsLegal charge.settings charge.log_z }
{}

/// The parts of two shards and two desks, each of which looked once, are merged as that log.
pub fn charge_log_is_merged()
    ensures { IsMerged charge.settings merged.parts charge.log }
{}

/// A log of four entries is legal in which a session finds no room: its shard has the machines of 4,096 peers.
pub fn busy_log_is_legal()
    ensures { IsLegal (busy.settings_with busy.full) busy.log }
{}

/// Those parts are gathered to the world of that log.
pub fn charge_log_is_gathered()
    ensures { Gathers charge.settings merged.parts (Ok (with_log (opened charge.settings) charge.log)) }
{}
