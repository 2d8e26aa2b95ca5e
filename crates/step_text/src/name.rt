//! Names as words.

ghost use Rattle.std.specs.Prelude.{◌≡◌, ◌++◌, IfOk, OnOk};
ghost use Rattle.std.specs.Str.{bytes_eq};
ghost use Rattle.hex.specs.Hex.{IsBytes};
ghost use Rattle.step_text.specs.Names.{is_plain, key_name, prefix_of, shown, shown_octet};

use base_text::put_hex;
use bench_item::{Key, Role};
use std::alloc::{AllocError, Global};

/// Whether an octet stands for itself.
pub fn is_plain(c: u8) -> bool
    ensures { result ≡ is_plain c }
{
    b'!' <= c && c <= b'~' && c != b'%'
}

/// Puts an octet as it is printed.
fn put_octet(out: &mut Vec<u8>, c: u8) -> Result<(), AllocError>
    ensures { OnOk result (out.new.items ≡ out.old.items ++ shown_octet c) }
{
    if is_plain(c) {
        return out.extend_from_slice(&[c]);
    }
    out.extend_from_slice(b"%")?;
    put_hex(out, &[c])
}

/// Puts a name as it is printed.
pub(crate) fn put_shown(out: &mut Vec<u8>, name: &[u8]) -> Result<(), AllocError>
    ensures { OnOk result (out.new.items ≡ out.old.items ++ shown name.now) }
{
    for c in name {
        put_octet(out, *c)?;
    }
    Ok(())
}

/// What stands before a machine's name.
pub(crate) fn prefix_of(role: Role) -> &'static [u8]
    ensures { result.now ≡ prefix_of role }
{
    match role {
        Role::Peer => b"p:",
        Role::Client => b"c:",
        Role::Server => b"s:",
    }
}

/// Whether a name is that of a key. Takes no memory.
pub(crate) fn is_key_name(name: &[u8], key: &Key) -> bool
    ensures { result ≡ bytes_eq name.now (key_name key.now) }
{
    if name.len() < 2 {
        return false;
    }
    let (front, rest) = name.split_at(2);
    front == prefix_of(key.role) && rest == key.name.as_slice()
}

/// A name with the prefix of a role.
fn prefixed(alloc: Global, role: Role, name: &[u8]) -> Result<Vec<u8>, AllocError>
    ensures name { IfOk result (λ whole. whole.items ≡ prefix_of role ++ name.now) }
    ensures octets { IfOk result (λ whole. IsBytes whole.items) }
{
    let mut whole = Vec::new(alloc);
    whole.extend_from_slice(prefix_of(role))?;
    whole.extend_from_slice(name)?;
    Ok(whole)
}

/// The name of a key.
pub(crate) fn key_name(alloc: Global, key: &Key) -> Result<Vec<u8>, AllocError>
    ensures name { IfOk result (λ name. name.items ≡ key_name key.now) }
    ensures octets { IfOk result (λ name. IsBytes name.items) }
{
    prefixed(alloc, key.role, key.name.as_slice())
}
