//! How names are spelled.
ghost use Rattle.std.specs.Prelude.{◌≡◌};
ghost use Rattle.std.specs.List.{list_all};
ghost use Rattle.tab_text.specs.Names.{is_letter, is_name_byte, is_spelled, is_name};

use crate::limits::MAX_NAME;

/// Whether a byte is a letter.
fn is_letter(byte: u8) -> bool
    ensures { result ≡ is_letter byte }
{
    byte.is_ascii_alphabetic()
}

/// Whether a byte may stand in a name.
fn is_name_byte(byte: u8) -> bool
    ensures { result ≡ is_name_byte byte }
{
    is_letter(byte) || byte.is_ascii_digit() || byte == b'-' || byte == b'/' || byte == b'_'
}

/// Whether bytes may stand in a name.
fn are_name_bytes(octets: &[u8]) -> bool
    ensures { result ≡ list_all is_name_byte octets.now }
{
    octets.iter().all(|b| is_name_byte(*b))
}

/// Whether the bytes are those of a name, but for its length and the two words that are none.
fn is_spelled(octets: &[u8]) -> bool
    ensures { result ≡ is_spelled octets.now }
{
    match octets {
        [] => false,
        [first, rest @ ..] => is_letter(*first) && are_name_bytes(rest),
    }
}

/// Whether these are the bytes of a name: a letter, then letters, digits, `-`, `/`, `_`, 40 at most; not `when`, `and`.
#[tactic(auto, unfolding(crate::specs::Names::is_name))]
pub fn is_name(octets: &[u8]) -> bool
    ensures { result ≡ is_name octets.now }
{
    is_spelled(octets)
        && octets.len() <= MAX_NAME
        && octets != b"when".as_slice()
        && octets != b"and".as_slice()
}
