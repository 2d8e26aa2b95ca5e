//! What is told of a wrong line.
ghost use Rattle.std.specs.Prelude.{◌≡◌, ◌++◌, take, IfOk, OnOk};
ghost use Rattle.dict_text.specs.Told.{wanted_of, word_text, wrong_text};
ghost use Rattle.dict_text.specs.Wrong.{seen_line};

use crate::wrong::{Want, WrongLine};
use base_text::put_number;
use dia_show::put_quoted;
use std::alloc::{AllocError, Global};

/// How many octets of a word are told.
const TOLD: usize = 40;

/// What was wanted.
#[tactic(auto, unfolding(crate::specs::Told::wanted_of))]
fn wanted(want: Want) -> &'static [u8]
    ensures { result.now ≡ wanted_of want }
{
    match want {
        Want::Code => {
            b"CODE[/VENDOR] NAME KIND [VALUE=NAME ..]: the AVP Code and the Vendor-ID as numbers below 2^32"
        }
        Want::Name => b"a NAME behind the code, of printable characters",
        Want::Kind => {
            b"a KIND behind the name: Unsigned32, Unsigned64, Enumerated, UTF8String, DiameterIdentity, Address, \
                Grouped, Time or OctetString"
        }
        Want::Value => {
            b"VALUE=NAME, each VALUE once and below 2^32, behind Enumerated and Unsigned32 alone"
        }
        Want::NewCode => {
            b"a code and vendor that neither a line before nor the built-in dictionary has"
        }
        Want::NewName => b"a name that neither a line before nor the built-in dictionary has",
        Want::Room => b"at most 200 AVPs, beside the 56 of the built-in dictionary",
    }
}

/// The front of a word.
fn told_front(word: &[u8]) -> &[u8]
    ensures { result.now ≡ take 40 word.now }
{
    &word[..TOLD.min(word.len())]
}

fn put_word(out: &mut Vec<u8>, word: &[u8]) -> Result<(), AllocError>
    ensures { OnOk result (out.new.items ≡ out.old.items ++ word_text word.now) }
{
    match word {
        [] => Ok(()),
        [_, ..] => {
            out.extend_from_slice(b": ")?;
            put_quoted(out, told_front(word))
        }
    }
}

/// `dictionary line N`, the word that is wrong, and what was wanted in its place.
#[tactic(auto, unfolding(crate::specs::Told::wrong_text))]
pub fn wrong_text(alloc: Global, line: &WrongLine<'_>) -> Result<Vec<u8>, AllocError>
    ensures { IfOk result (λ text. text.items ≡ wrong_text (seen_line line.now)) }
{
    let mut text = Vec::new(alloc);
    put_number(&mut text, b"dictionary line ", line.number as u64)?;
    put_word(&mut text, line.word)?;
    text.extend_from_slice(b"\n  wanted: ")?;
    text.extend_from_slice(wanted(line.want))?;
    text.extend_from_slice(b"\n")?;
    Ok(text)
}
