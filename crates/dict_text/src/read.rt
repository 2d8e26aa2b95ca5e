//! The glossary of a text, or its first wrong line.
ghost use Rattle.std.specs.Prelude.{◌≡◌, Ok, IfOk, IfErr, OnOk};
ghost use Rattle.dict_text.specs.Read.{IsRefused, added, glossary_of, line_added};
ghost use Rattle.dict_text.specs.Read.{refusal_of, refused_want, with_namings};
ghost use Rattle.dict_text.specs.Seen.{seen_entry, seen_head};
ghost use Rattle.dict_text.specs.Wrong.{IsWrong};

use crate::entries::{Entry, Head, entry_of};
use crate::words::next_word;
use crate::wrong::{LineError, Want, WrongLine, at_word};
use base_list::{AddError, AddFault, Octets};
use dia_show::{Enumeration, Glossary};
use std::alloc::{AllocError, AllocFailed, Global};
use text_parts::{Lines, Words};

/// Why a text gives no glossary.
#[derive(Clone, Copy)]
pub enum DictError<'a> {
    NoMemory,
    /// The first wrong line.
    Wrong(WrongLine<'a>),
}

impl<'a> From<AllocError> for DictError<'a> {
    ghost use Rattle.dict_text.specs.declared.read.DictError.TheVariants.{NoMemory};

    ghost from_gives = { λ _ e. e ≡ NoMemory };

    fn from(_e: AllocError) -> DictError<'a> {
        DictError::NoMemory
    }
}

/// Adds the names of an AVP's numbers, where it has some.
fn add_names(
    glossary: &mut Glossary,
    head: &Head<'_>,
    names: Vec<(u32, Octets)>,
) -> Result<(), AllocError>
    ensures { OnOk result (glossary.new ≡ with_namings glossary.old (seen_head head.now) names.items) }
{
    if names.is_empty() {
        return Ok(());
    }
    glossary.name(Enumeration::new(head.code, head.vendor, names))
}

fn refused_want(glossary: &Glossary, head: &Head<'_>, fault: AddFault) -> Want
    ensures { result ≡ refused_want glossary.now (seen_head head.now) fault }
{
    match fault {
        AddFault::Full => Want::Room,
        AddFault::Taken => {
            if glossary
                .definitions()
                .find(head.code, head.vendor)
                .is_some()
            {
                Want::NewCode
            } else {
                Want::NewName
            }
        }
    }
}

fn add_entry<'a>(glossary: &mut Glossary, entry: Entry<'a>) -> Result<(), LineError<'a>>
    ensures ok { OnOk result (added glossary.old (seen_entry entry.entry)
        (refusal_of glossary.old (seen_entry entry.entry)) ≡ Ok glossary.new) }
    ensures err { IfErr result
        (IsWrong (added glossary.old (seen_entry entry.entry) (refusal_of glossary.old (seen_entry entry.entry)))) }
{
    let Entry { head, names } = entry;
    match glossary.define(head.code, head.vendor, head.name, head.kind) {
        Ok(()) => {
            add_names(glossary, &head, names)?;
            Ok(())
        }
        Err(AddError::NoMemory) => Err(LineError::NoMemory),
        Err(AddError::Fault(fault)) => {
            let want = refused_want(glossary, &head, fault);
            Err(LineError::Mistake(at_word(want, b"")))
        }
    }
}

/// Adds what a line says.
fn add_line<'a>(alloc: Global, glossary: &mut Glossary, line: &'a [u8]) -> Result<(), LineError<'a>>
    ensures ok { OnOk result (line_added glossary.old line.now ≡ Ok glossary.new) }
    ensures err { IfErr result (IsWrong (line_added glossary.old line.now)) }
{
    let mut words = Words::new(line);
    let Some(word) = next_word(&mut words) else {
        return Ok(());
    };
    match entry_of(alloc, word, &mut words) {
        Ok(entry) => add_entry(glossary, entry),
        Err(error) => Err(error),
    }
}

/// The glossary of a text whose lines are `CODE[/VENDOR] NAME KIND [VALUE=NAME ..]`, or its first wrong line.
/// A word that begins with `#` begins a comment, and a line without words adds nothing.
pub fn read_dictionary<'a>(alloc: Global, text: &'a [u8]) -> Result<Glossary, DictError<'a>>
    ensures read { IfOk result (λ glossary. glossary_of text.now ≡ Ok glossary) }
    ensures err { IfErr result (IsRefused (glossary_of text.now)) }
{
    let mut glossary = Glossary::base(alloc)?;
    let mut lines = Lines::new(text);
    while let Some(line) = lines.next() {
        match add_line(alloc, &mut glossary, line.octets) {
            Ok(()) => {}
            Err(LineError::NoMemory) => return Err(DictError::NoMemory),
            Err(LineError::Mistake(mistake)) => {
                return Err(DictError::Wrong(WrongLine {
                    number: line.number,
                    want: mistake.want,
                    word: mistake.word,
                }));
            }
        }
    }
    Ok(glossary)
}
