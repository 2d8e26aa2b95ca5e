//! The name that is near a word.
ghost use Rattle.std.specs.Prelude.{◌≡◌, ◌++◌, IfOk, OnOk};
ghost use Rattle.std.specs.Option.{option_map};
ghost use Rattle.fault_text.specs.Nearest.{first_near, nearest, nearest_line};

use base_list::NamedList;
use std::alloc::{AllocError, Global};
use strsim::generic_levenshtein;

/// The first name that is made of a word by so many octets put in, taken out or replaced, at most.
fn first_near<'a, T: Drop>(
    alloc: Global,
    limit: usize,
    word: &[u8],
    entries: &'a NamedList<T>,
) -> Result<Option<&'a [u8]>, AllocError>
    ensures { IfOk result (λ found. option_map (λ name. name.now) found ≡ first_near limit word.now entries.now) }
{
    for entry in entries.as_slice() {
        let name = entry.name.as_slice();
        match generic_levenshtein(alloc, word, name) {
            Ok(distance) => {
                if distance <= limit {
                    return Ok(Some(name));
                }
            }
            Err(error) => return Err(error),
        }
    }
    Ok(None)
}

/// The first name that is one off, or else two, where the word has 8 octets or more.
/// Words of 4 to 40 octets alone have one.
#[tactic(auto, unfolding(crate::specs::Nearest::nearest))]
fn nearest<'a, T: Drop>(
    alloc: Global,
    word: &[u8],
    entries: &'a NamedList<T>,
) -> Result<Option<&'a [u8]>, AllocError>
    ensures { IfOk result (λ found. option_map (λ name. name.now) found ≡ nearest word.now entries.now) }
{
    if word.len() < 4 || word.len() > 40 {
        return Ok(None);
    }
    match first_near(alloc, 1, word, entries) {
        Ok(None) => {
            if word.len() < 8 {
                Ok(None)
            } else {
                first_near(alloc, 2, word, entries)
            }
        }
        Ok(Some(name)) => Ok(Some(name)),
        Err(error) => Err(error),
    }
}

/// Puts the name that is near a word, if one is, on a line of its own.
pub(crate) fn put_nearest<T: Drop>(
    alloc: Global,
    out: &mut Vec<u8>,
    word: &[u8],
    entries: &NamedList<T>,
) -> Result<(), AllocError>
    ensures { OnOk result (out.new.items ≡ out.old.items ++ nearest_line word.now entries.now) }
{
    match nearest(alloc, word, entries) {
        Ok(None) => Ok(()),
        Ok(Some(name)) => {
            out.extend_from_slice(b"  nearest: ")?;
            out.extend_from_slice(name)?;
            out.extend_from_slice(b"\n")
        }
        Err(error) => Err(error),
    }
}
