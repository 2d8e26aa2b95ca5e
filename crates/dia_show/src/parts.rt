//! Octets as text.
ghost use Rattle.std.specs.Prelude.{◌≡◌, ◌++◌, OnOk};
ghost use Rattle.std.specs.List.{flat_map};
ghost use Rattle.std.specs.Net.Text.{ipv4_text, ipv6_text};
ghost use Rattle.std.specs.Net.Addr.{segments_of};
ghost use Rattle.dia_show.specs.Parts.{escaped, quoted, octets_text, seen_address_text};

use base_text::{put_hex, put_number};
use dia_avp::Address;
use std::alloc::AllocError;
use std::net::{Ipv4Addr, Ipv6Addr};

#[tactic(auto, unfolding(crate::specs::Parts::escaped))]
fn put_escaped(out: &mut Vec<u8>, octet: u8) -> Result<(), AllocError>
    ensures { OnOk result (out.new.items ≡ out.old.items ++ escaped octet) }
{
    match octet {
        b'"' => out.extend_from_slice(b"\\\""),
        b'\\' => out.extend_from_slice(b"\\\\"),
        b' '..=b'~' => out.extend_from_slice(&[octet]),
        _ => {
            out.extend_from_slice(b"\\x")?;
            put_hex(out, &[octet])
        }
    }
}

fn put_all_escaped(out: &mut Vec<u8>, octets: &[u8]) -> Result<(), AllocError>
    ensures { OnOk result (out.new.items ≡ out.old.items ++ flat_map escaped octets.now) }
{
    for octet in octets {
        put_escaped(out, *octet)?;
    }
    Ok(())
}

/// Puts a text in quotes. Quotes and `\` in it stand behind `\`,
/// and an octet that isn't a printable character of ASCII is `\x` and two digits.
pub fn put_quoted(out: &mut Vec<u8>, octets: &[u8]) -> Result<(), AllocError>
    ensures { OnOk result (out.new.items ≡ out.old.items ++ quoted octets.now) }
{
    out.extend_from_slice(b"\"")?;
    put_all_escaped(out, octets)?;
    out.extend_from_slice(b"\"")
}

/// Puts octets in hexadecimal behind `0x`.
#[tactic(auto, unfolding(crate::specs::Parts::octets_text))]
pub fn put_octets(out: &mut Vec<u8>, octets: &[u8]) -> Result<(), AllocError>
    ensures { OnOk result (out.new.items ≡ out.old.items ++ octets_text octets.now) }
{
    out.extend_from_slice(b"0x")?;
    put_hex(out, octets)
}

fn put_ipv4(out: &mut Vec<u8>, address: [u8; 4]) -> Result<(), AllocError>
    ensures { OnOk result (out.new.items ≡ out.old.items ++ ipv4_text address) }
{
    let text = format!(in *out.allocator(); "{}", Ipv4Addr::from(address))?;
    out.extend_from_slice(text.as_bytes())
}

fn put_ipv6(out: &mut Vec<u8>, address: [u8; 16]) -> Result<(), AllocError>
    ensures { OnOk result (out.new.items ≡ out.old.items ++ ipv6_text (segments_of address)) }
{
    let text = format!(in *out.allocator(); "{}", Ipv6Addr::from(address))?;
    out.extend_from_slice(text.as_bytes())
}

/// Puts an address (RFC 6733 section 4.3.1): IPv4 with dots, IPv6 as RFC 5952 has it,
/// and another family with its number and in hexadecimal.
pub fn put_address(out: &mut Vec<u8>, address: &Address<'_>) -> Result<(), AllocError>
    ensures { OnOk result (out.new.items ≡ out.old.items ++ seen_address_text address.now) }
{
    match address {
        Address::V4(four) => put_ipv4(out, *four),
        Address::V6(sixteen) => put_ipv6(out, *sixteen),
        Address::Other { family, octets } => {
            put_number(out, b"family ", u64::from(*family))?;
            out.extend_from_slice(b" ")?;
            put_octets(out, octets)
        }
    }
}
