//! IPv4 addresses from text.
ghost use Rattle.std.specs.Prelude.{◌≡◌};
ghost use Rattle.config_text.specs.Addresses.{address_of, part_of};

use base_text::number_of;
use text_parts::Pieces;

/// A number below 256 in decimal digits, without a zero in front of others.
#[tactic(auto, unfolding(crate::specs::Addresses::part_of))]
fn part_of(word: &[u8]) -> Option<u8>
    ensures { result ≡ part_of word.now }
{
    if let [b'0', _, ..] = word {
        return None;
    }
    let number = number_of(word)?;
    if number < 256 {
        Some(number as u8)
    } else {
        None
    }
}

/// The four octets of an IPv4 address, from four numbers between dots.
#[tactic(auto, unfolding(crate::specs::Addresses::address_of))]
pub(crate) fn address_of(text: &[u8]) -> Option<[u8; 4]>
    ensures { result ≡ address_of text.now }
{
    let mut pieces = Pieces::new(text, b'.');
    let (first, second) = (pieces.next()?, pieces.next()?);
    let (third, fourth) = (pieces.next()?, pieces.next()?);
    if pieces.next().is_some() {
        return None;
    }
    Some([
        part_of(first)?,
        part_of(second)?,
        part_of(third)?,
        part_of(fourth)?,
    ])
}
