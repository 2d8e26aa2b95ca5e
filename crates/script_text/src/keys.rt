//! Keys of machines, read: `p:`, `c:` or `s:` and the name, in which `%` and two hexadecimal digits are an octet.
ghost use Rattle.std.specs.Prelude.{◌≡◌, ◌<◌, true, None, is_some, length, IfOk, IfNone, IfSome, OnErr};
ghost use Rattle.script_text.specs.Keys.{before, key_of, name_of, octet_of, role_of};
ghost use Rattle.std.specs.Prelude.{Some};

use base_list::Octets;
use base_text::digit_value;
use bench_item::{Key, Role};
use std::alloc::{AllocError, Global};
use step_text::is_plain;

/// The octet of two hexadecimal digits.
pub(crate) fn octet_of(high: u8, low: u8) -> Option<u8>
    ensures { result ≡ octet_of high low }
{
    match (digit_value(high), digit_value(low)) {
        (Some(high), Some(low)) => Some(high * 16 + low),
        _ => None,
    }
}

/// An octet of a name, and what stands behind it.
#[derive(Clone, Copy)]
struct Taken<'a> {
    octet: u8,
    behind: &'a [u8],
}

/// The first octet of a name.
fn take_octet(text: &[u8]) -> Option<Taken<'_>>
    requires { 0 < length text.now }
    ensures some { IfSome result (λ taken. (name_of text.now ≡ before (Some taken.octet) (name_of taken.behind.now))) }
    ensures less { IfSome result (λ taken. length taken.behind.now < length text.now) }
    ensures none { IfNone result (name_of text.now ≡ None) }
{
    match text {
        [b'%', high, low, behind @ ..] => {
            let octet = octet_of(*high, *low)?;
            Some(Taken { octet, behind })
        }
        [first, behind @ ..] => {
            if is_plain(*first) {
                Some(Taken {
                    octet: *first,
                    behind,
                })
            } else {
                None
            }
        }
        [] => unreachable!(),
    }
}

/// Whether a text is a name. Takes no memory.
fn is_name(text: &[u8]) -> bool
    ensures { result ≡ is_some (name_of text.now) }
{
    let mut left = text;
    while !left.is_empty() {
        let Some(taken) = take_octet(left) else {
            return false;
        };
        left = taken.behind;
    }
    true
}

/// The octets of a name.
fn name_of(alloc: Global, text: &[u8]) -> Result<Option<Octets>, AllocError>
    ensures name { IfOk result (λ name. name ≡ name_of text.now) }
    ensures memory { OnErr result (is_some (name_of text.now) ≡ true) }
{
    if !is_name(text) {
        return Ok(None);
    }
    let mut octets = Vec::new(alloc);
    let mut left = text;
    while !left.is_empty() {
        let Some(taken) = take_octet(left) else {
            return Ok(None);
        };
        octets.push(taken.octet)?;
        left = taken.behind;
    }
    Ok(Some(Octets::new(octets)))
}

/// The role of a letter.
fn role_of(mark: u8) -> Option<Role>
    ensures { result ≡ role_of mark }
{
    match mark {
        b'p' => Some(Role::Peer),
        b'c' => Some(Role::Client),
        b's' => Some(Role::Server),
        _ => None,
    }
}

/// Reads a key. None where the word is no key.
pub fn read_key(alloc: Global, word: &[u8]) -> Result<Option<Key>, AllocError>
    ensures key { IfOk result (λ key. key ≡ key_of word.now) }

    // Memory can be wanting only for a key.
    ensures memory { OnErr result (is_some (key_of word.now) ≡ true) }
{
    let [mark, b':', name @ ..] = word else {
        return Ok(None);
    };
    let Some(role) = role_of(*mark) else {
        return Ok(None);
    };
    match name_of(alloc, name)? {
        Some(name) => Ok(Some(Key { role, name })),
        None => Ok(None),
    }
}
