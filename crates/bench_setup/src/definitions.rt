//! What a dictionary adds, in one of its own.
ghost use Rattle.std.specs.Prelude.{◌≡◌, ◌++◌, ◌∷◌, [], IfOk, OnOk};

use dia_dict::{Definition, Dictionary};
use dia_show::Glossary;
use std::alloc::{AllocError, Global};
use std::str;

/// More places than a dictionary has.
const MAX_PLACES: usize = 1_024;

/// Adds a definition.
fn add(dictionary: &mut Dictionary, definition: &Definition) -> Result<(), AllocError>
    ensures { OnOk result (dictionary.new ≡ dictionary.old ++ definition.now ∷ []) }
{
    // Names are text, and no definition is there twice, so what lacks is memory.
    let Ok(name) = str::from_utf8(definition.name.as_slice()) else {
        return Err(AllocError);
    };
    match dictionary.add(definition.code, definition.vendor, name, definition.kind) {
        Ok(()) => Ok(()),
        Err(_) => Err(AllocError),
    }
}

/// The definitions of a glossary, in a dictionary of their own.
pub(crate) fn definitions_of(alloc: Global, glossary: &Glossary) -> Result<Dictionary, AllocError>
    ensures { IfOk result (λ dictionary. dictionary ≡ glossary.now.definitions) }
{
    let all = glossary.definitions();
    let mut dictionary = Dictionary::base(alloc)?;
    'places: for place in 0..MAX_PLACES {
        let Some(definition) = all.at(place) else {
            return Ok(dictionary);
        };
        match dictionary.at(place) {
            Some(_) => {}
            None => add(&mut dictionary, definition)?,
        }
    }
    // No dictionary has so many.
    Err(AllocError)
}
