//! Why a bench is not opened, and what is wanted.
ghost use Rattle.std.specs.Prelude.{◌≡◌, IfOk, Some, map};
ghost use Rattle.bench_open.specs.Given.{first_of};
ghost use Rattle.bench_setup.specs.Opening.{opening_text, opening_text_at, unbound_in};
ghost use Rattle.fault_text.specs.Faults.{unbound_text};

use bench_open::Config;
use bench_spec::OpeningError;
use fault_text::{RowPlace, unbound_place, unbound_text};
use std::alloc::{AllocError, Global};
use tab_call::Registry;
use tab_law::LawBook;

const BAD_LIMITS: &str =
    "not opened: limits\n  wanted: 1 to 16 shards, 1 to 8 pages, at most 16 desks and 64 peers\n";

const BAD_NAMES: &str =
    "not opened: names\n  wanted: a host, a realm and peers of 1 to 255 octets of ASCII, each peer once\n";

const BAD_LAWS: &str = "not opened: laws\n";

const BAD_ACCOUNT: &str =
    "not opened: account\n  wanted: numbers from 1, each once, at most 2^62 units, 1024 accounts on a page\n";

/// The first row of a bench's tables with a name that these laws lack: of the peers' table,
/// of the clients' or of the servers'.
fn unbound_in(laws: &LawBook, config: &Config) -> Option<RowPlace>
    ensures { result ≡ unbound_in laws.now config.now.peer config.now.client config.now.server }
{
    match unbound_place(laws, &config.peer) {
        Some(place) => Some(place),
        None => match unbound_place(laws, &config.client) {
            Some(place) => Some(place),
            None => unbound_place(laws, &config.server),
        },
    }
}

/// The first row of a bench's tables with a name that the laws of the first registry lack,
/// and the line on which it begins.
pub fn unbound_at(alloc: Global, config: &Config, registries: &[Registry]) -> Option<RowPlace>
    ensures { result ≡ unbound_in (first_of (map (λ r. r.book) registries.now)) config.now.peer config.now.client
        config.now.server }
{
    match registries.first() {
        Some(registry) => unbound_in(registry.laws(), config),
        None => unbound_in(&LawBook::new(alloc), config),
    }
}

/// The first name of a table that the laws of the first registry lack, its row, and what is near it.
fn lacking_text(
    alloc: Global,
    registries: &[Registry],
    place: Option<RowPlace>,
    name: &[u8],
) -> Result<Vec<u8>, AllocError>
    ensures { IfOk result (λ text. text.items
        ≡ unbound_text (first_of (map (λ r. r.book) registries.now)) place name.now) }
{
    match registries.first() {
        Some(registry) => unbound_text(alloc, registry.laws(), place, name),
        None => unbound_text(alloc, &LawBook::new(alloc), place, name),
    }
}

/// Why a bench is not opened, and what is wanted; a name that the laws lack with this row.
pub fn opening_text_at(
    alloc: Global,
    registries: &[Registry],
    place: Option<RowPlace>,
    error: &OpeningError,
) -> Result<Vec<u8>, AllocError>
    ensures { IfOk result (λ text. opening_text_at (first_of (map (λ r. r.book) registries.now)) place error.now
        ≡ Some text.items) }
{
    match error {
        OpeningError::Unbound(name) => lacking_text(alloc, registries, place, name.as_slice()),
        OpeningError::Limits
        | OpeningError::Names
        | OpeningError::Laws
        | OpeningError::Account
        | OpeningError::NoMemory => opening_text(alloc, registries, error),
    }
}

/// Why a bench is not opened, and what is wanted, without a row.
pub fn opening_text(
    alloc: Global,
    registries: &[Registry],
    error: &OpeningError,
) -> Result<Vec<u8>, AllocError>
    ensures { IfOk result (λ text. opening_text (first_of (map (λ r. r.book) registries.now)) error.now
        ≡ Some text.items) }
{
    match error {
        OpeningError::Limits => Vec::from_slice(alloc, BAD_LIMITS.as_bytes()),
        OpeningError::Names => Vec::from_slice(alloc, BAD_NAMES.as_bytes()),
        OpeningError::Laws => Vec::from_slice(alloc, BAD_LAWS.as_bytes()),
        OpeningError::Unbound(name) => lacking_text(alloc, registries, None, name.as_slice()),
        OpeningError::Account => Vec::from_slice(alloc, BAD_ACCOUNT.as_bytes()),
        OpeningError::NoMemory => Err(AllocError),
    }
}
