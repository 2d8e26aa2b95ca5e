//! Whether the registries have the same laws.
ghost use Rattle.std.specs.Prelude.{◌≡◌, ◌↔◌, ◌<◌, IsTrue, length, map};
ghost use Rattle.std.specs.List.{list_all};
ghost use Rattle.bench_spec.specs.SameLaws.{is_same_book};
ghost use Rattle.bench_open.specs.Given.{first_of};

use base_list::Named;
use bench_spec::same_laws;
use tab_call::Registry;
use tab_law::{ActLaw, GuardLaw, LawBook};

/// Whether two kinds have one name.
fn is_same_kind(one: &Named<()>, other: &Named<()>) -> bool
    ensures { IsTrue result ↔ (one.now ≡ other.now) }
{
    one.name.as_slice() == other.name.as_slice()
}

/// Whether two lists of kinds are the same.
fn are_same_kinds(one: &[Named<()>], other: &[Named<()>]) -> bool
    ensures { IsTrue result ↔ (one.now ≡ other.now) }
{
    if one.len() != other.len() {
        return false;
    }
    for (i, entry) in one.iter().enumerate() {
        if !is_same_kind(entry, &other[i]) {
            return false;
        }
    }
    true
}

/// Whether two guards have one name and the same law.
fn is_same_guard(one: &Named<GuardLaw>, other: &Named<GuardLaw>) -> bool
    ensures { IsTrue result ↔ (one.now ≡ other.now) }
{
    one.name.as_slice() == other.name.as_slice() && one.value.is_same(&other.value)
}

/// Whether two lists of guards are the same.
fn are_same_guards(one: &[Named<GuardLaw>], other: &[Named<GuardLaw>]) -> bool
    ensures { IsTrue result ↔ (one.now ≡ other.now) }
{
    if one.len() != other.len() {
        return false;
    }
    for (i, entry) in one.iter().enumerate() {
        if !is_same_guard(entry, &other[i]) {
            return false;
        }
    }
    true
}

/// Whether two actions have one name and the same law.
fn is_same_act(one: &Named<ActLaw>, other: &Named<ActLaw>) -> bool
    ensures { IsTrue result ↔ (one.now ≡ other.now) }
{
    one.name.as_slice() == other.name.as_slice() && one.value.is_same(&other.value)
}

/// Whether two lists of actions are the same.
fn are_same_acts(one: &[Named<ActLaw>], other: &[Named<ActLaw>]) -> bool
    ensures { IsTrue result ↔ (one.now ≡ other.now) }
{
    if one.len() != other.len() {
        return false;
    }
    for (i, entry) in one.iter().enumerate() {
        if !is_same_act(entry, &other[i]) {
            return false;
        }
    }
    true
}

/// Whether two books are the same.
fn is_same_book(one: &LawBook, other: &LawBook) -> bool
    ensures { result ≡ is_same_book one.now other.now }
{
    same_laws();
    are_same_kinds(one.kinds().as_slice(), other.kinds().as_slice())
        && are_same_guards(one.guards().as_slice(), other.guards().as_slice())
        && are_same_acts(one.acts().as_slice(), other.acts().as_slice())
}

/// Whether all registries have the laws of the first.
pub(crate) fn are_same_books(registries: &[Registry]) -> bool
    requires { 0 < length registries.now }
    ensures { result ≡ list_all (is_same_book (first_of (map (λ r. r.book) registries.now)))
        (map (λ r. r.book) registries.now) }
{
    let first = registries[0].laws();
    for registry in registries {
        if !is_same_book(first, registry.laws()) {
            return false;
        }
    }
    true
}
