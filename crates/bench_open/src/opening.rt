//! Why a bench is not opened.
ghost use Rattle.std.specs.Prelude.{◌≡◌, ◌<◌, length, map, option_map};
ghost use Rattle.bench_spec.specs.Opening.{Config as Handed, has_bad_laws, opening_refusal};
ghost use Rattle.bench_open.specs.Faults.{error_of};
ghost use Rattle.bench_open.specs.Given.{config_of};

use crate::accounts::has_bad_account;
use crate::books::are_same_books;
use crate::config::Config;
use crate::fault::OpeningFault;
use crate::kinds::lacks_kind;
use crate::limits::is_past_limits;
use crate::names::has_bad_names;
use crate::unbound::first_unbound;
use tab_call::Registry;

/// Whether the registries' laws differ, or lack a kind of a role's events.
fn has_bad_laws(registries: &[Registry]) -> bool
    requires { 0 < length registries.now }
    ensures { (config : Handed) → config.registries ≡ map (λ r. r.book) registries.now
        → result ≡ has_bad_laws config }
{
    if !are_same_books(registries) {
        return true;
    }
    lacks_kind(registries[0].laws())
}

/// Why a bench with one of these registries for each shard is not opened, memory aside: the first of the reasons that
/// holds; none where it is. Takes no memory.
pub fn opening_fault<'a>(config: &'a Config, registries: &[Registry]) -> Option<OpeningFault<'a>>
    ensures { option_map error_of result ≡ opening_refusal (config_of config.now (map (λ r. r.book) registries.now)) }
{
    if is_past_limits(config, registries) {
        return Some(OpeningFault::Limits);
    }
    if has_bad_names(config) {
        return Some(OpeningFault::Names);
    }
    if has_bad_laws(registries) {
        return Some(OpeningFault::Laws);
    }
    if let Some(name) = first_unbound(config, registries[0].laws()) {
        return Some(OpeningFault::Unbound(name));
    }
    if has_bad_account(config.pages, &config.accounts) {
        return Some(OpeningFault::Account);
    }
    None
}
