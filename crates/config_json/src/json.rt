//! Strings, lists, and what may be absent.
ghost use Rattle.std.specs.Prelude.{◌≡◌, ◌++◌, ◌∷◌, [], OnOk, codes, flat_map, option_map};
ghost use Rattle.config_json.specs.Json.{bracketed, string, string_octet, string_or_null};
ghost use Rattle.hex.specs.Hex.{encode_lower};

use base_list::Octets;
use base_text::put_hex;
use std::alloc::AllocError;

/// Puts an octet of a string as its number.
fn put_escaped(out: &mut Vec<u8>, octet: u8) -> Result<(), AllocError>
    ensures { OnOk result (out.new.items ≡ out.old.items ++ codes "\\u00" ++ encode_lower (octet ∷ [])) }
{
    out.extend_from_slice(b"\\u00")?;
    put_hex(out, &[octet])
}

/// Puts an octet of a string.
fn put_string_octet(out: &mut Vec<u8>, octet: u8) -> Result<(), AllocError>
    ensures { OnOk result (out.new.items ≡ out.old.items ++ string_octet octet) }
{
    if octet < 32 || octet == b'"' || octet == b'\\' {
        return put_escaped(out, octet);
    }
    out.extend_from_slice(&[octet])
}

/// Puts the octets of a string.
fn put_string_octets(out: &mut Vec<u8>, text: &[u8]) -> Result<(), AllocError>
    ensures { OnOk result (out.new.items ≡ out.old.items ++ flat_map string_octet text.now) }
{
    for octet in text {
        put_string_octet(out, *octet)?;
    }
    Ok(())
}

/// Puts a label and a string.
#[tactic(auto, unfolding(crate::specs::Json::string))]
pub(crate) fn put_string(out: &mut Vec<u8>, label: &[u8], text: &[u8]) -> Result<(), AllocError>
    ensures { OnOk result (out.new.items ≡ out.old.items ++ label.now ++ string text.now) }
{
    out.extend_from_slice(label)?;
    out.extend_from_slice(b"\"")?;
    put_string_octets(out, text)?;
    out.extend_from_slice(b"\"")
}

/// Puts a label and a string, `null` where there is none.
#[tactic(auto, unfolding(crate::specs::Json::string_or_null))]
pub(crate) fn put_string_or_null(
    out: &mut Vec<u8>,
    label: &[u8],
    text: Option<&Octets>,
) -> Result<(), AllocError>
    ensures { OnOk result (out.new.items ≡ out.old.items ++ label.now
        ++ string_or_null (option_map (λ text. text.now) text.entry)) }
{
    match text {
        Some(text) => put_string(out, label, text.as_slice()),
        None => {
            out.extend_from_slice(label)?;
            out.extend_from_slice(b"null")
        }
    }
}

/// Puts a label and a list, of items each of which stands behind a comma and a blank.
#[tactic(auto, unfolding(crate::specs::Json::bracketed))]
pub(crate) fn put_bracketed(out: &mut Vec<u8>, label: &[u8], items: &[u8]) -> Result<(), AllocError>
    ensures { OnOk result (out.new.items ≡ out.old.items ++ label.now ++ bracketed items.now) }
{
    out.extend_from_slice(label)?;
    out.extend_from_slice(b"[")?;
    out.extend_from_slice(&items[items.len().min(2)..])?;
    out.extend_from_slice(b"]")
}
