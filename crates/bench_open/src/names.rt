//! Whether the names of hosts are as they may be.
ghost use Rattle.std.specs.Prelude.{◌≡◌, [], nat_lt};
ghost use Rattle.std.specs.List.{list_all};
ghost use Rattle.bench_item.specs.Past.{any_after};
ghost use Rattle.bench_spec.specs.Opening.{has_bad_names, is_name, is_repeated};
ghost use Rattle.bench_open.specs.Given.{config_of};

use crate::config::Config;
use crate::limits::is_within;
use base_list::Octets;
use bench_item::is_same_host;

/// Whether all octets are of ASCII.
fn is_ascii(name: &[u8]) -> bool
    ensures { result ≡ list_all (λ octet. nat_lt octet 128) name.now }
{
    name.iter().all(|octet| *octet < 128)
}

/// Whether octets can be the name of a host or a realm (RFC 6733 section 4.3.1): 1 to 255 octets of ASCII.
fn is_name(name: &[u8]) -> bool
    ensures { result ≡ is_name name.now }
{
    is_within(255, name.len() as u64) && is_ascii(name)
}

/// Whether all can be names.
fn are_names(names: &[Octets]) -> bool
    ensures { result ≡ list_all is_name names.now }
{
    names.iter().all(|name| is_name(name.as_slice()))
}

/// Whether a host is among those before it, in any case of its letters.
fn is_repeated(past: &[Octets], host: &Octets) -> bool
    ensures { result ≡ is_repeated past.now host.now }
{
    past.iter()
        .any(|other| is_same_host(host.as_slice(), other.as_slice()))
}

/// Whether a host is there twice.
fn has_repeated(hosts: &[Octets]) -> bool
    ensures { result ≡ any_after is_repeated [] hosts.now }
{
    for (i, host) in hosts.iter().enumerate() {
        if is_repeated(&hosts[..i], host) {
            return true;
        }
    }
    false
}

/// Whether a host or the realm has no name, or a peer is there twice.
pub(crate) fn has_bad_names(config: &Config) -> bool
    ensures { result ≡ has_bad_names (config_of config.now []) }
{
    let identity = &config.identity;
    let own = is_name(identity.host.as_slice()) && is_name(identity.realm.as_slice());
    !(own && are_names(&config.peers)) || has_repeated(&config.peers)
}
