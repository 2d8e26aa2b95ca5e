//! The names of an image.

ghost use Rattle.std.specs.Prelude.{◌≡◌, ◌++◌, [], ◌+◌, ◌<◌, ◌≤◌, slice_index_or, drop, length};
ghost use Rattle.std.specs.Prelude.{true, false, IfSome, IfOk, IfErr, OnOk, None, Some, is_none};
ghost use Rattle.std.specs.List.{list_any};
ghost use Rattle.std.specs.Str.{bytes_eq};
ghost use Rattle.tab_asm.specs.Images.{name_octets};
ghost use Rattle.tab_load.specs.Code.{IsRefusal, UnlessRefused};
ghost use Rattle.tab_load.specs.Names.{place_in, name_fault, next_fault, NamesWrong};
ghost use Rattle.tab_load.specs.Loading.{NamesIn, NextFine, lists, NamesAre, AnyNameWrong};

use crate::counts::Counts;
use crate::fault::{ImageFault, LoadError, fault_at};
use base_list::{NamedList, Octets};
use std::alloc::Global;
use tab_law::LawBook;
use tab_text::is_name;

/// Names in order, and their places in a book.
pub struct Names {
    pub names: Vec<Octets>,
    pub places: Vec<u8>,
    /// Where they end in the image.
    pub end: usize,
}

// By hand, here and below: a derived `drop` is proved anew at each way out of each function that holds it.
impl Drop for Names {
    fn drop(self) {
        let Names {
            names,
            places,
            end: _,
        } = self;
    }
}

/// The place of a name among those of a book; names that aren't bound, those of states, are in no book.
fn place_in<T: Drop>(bound: bool, entries: &NamedList<T>, name: &[u8]) -> Option<usize>
    ensures place { result ≡ place_in bound entries.now name.now }
    ensures within { bound ≡ true → IfSome result (λ place. place < length entries.now) }
    ensures first { bound ≡ false → result ≡ Some 0 }
{
    if bound { entries.find(name) } else { Some(0) }
}

/// Whether a name is one of these.
fn is_one_of(names: &[Octets], name: &[u8]) -> bool
    ensures { result ≡ list_any (λ other. bytes_eq other name.now) names.now }
{
    names.iter().any(|other| other.as_slice() == name)
}

/// What is wrong with a name behind others.
fn name_fault<T: Drop>(
    bound: bool,
    entries: &NamedList<T>,
    before: &[Octets],
    name: &[u8],
) -> Option<ImageFault>
    ensures { result ≡ name_fault bound entries.now before.now name.now }
{
    if !is_name(name) || is_one_of(before, name) {
        return Some(ImageFault::Name);
    }
    if place_in(bound, entries, name).is_none() {
        return Some(ImageFault::Unbound);
    }
    None
}

/// The place of a name that is there.
fn place_of<T: Drop>(bound: bool, entries: &NamedList<T>, name: &[u8]) -> u8
    requires small { length entries.now ≤ 256 }
    requires there { is_none (place_in bound entries.now name.now) ≡ false }
    ensures { place_in bound entries.now name.now ≡ Some result }
{
    match place_in(bound, entries, name) {
        Some(place) => place as u8,
        None => unreachable!(),
    }
}

/// The number in the first octet, and 0 where there is none.
fn first_number(octets: &[u8]) -> usize
    ensures { result ≡ slice_index_or octets.now 0 0 }
{
    octets.get(0).copied().unwrap_or(0) as usize
}

/// The name at a place of the image, behind others.
fn read_name<'a, T: Drop>(
    bound: bool,
    entries: &NamedList<T>,
    before: &[Octets],
    octets: &'a [u8],
    at: usize,
) -> Result<&'a [u8], ImageFault>
    requires { at ≤ length octets.now }
    ensures stands { IfOk result (λ name. drop at octets.now
        ≡ name_octets name.now ++ drop (1 + length name.now) (drop at octets.now)) }
    ensures whole { IfOk result (λ name. at + 1 + length name.now ≤ length octets.now) }
    ensures fine { IfOk result (λ name. name_fault bound entries.now before.now name.now ≡ None) }
    ensures next { OnOk result (next_fault bound entries.now before.now (drop at octets.now) ≡ None) }
    ensures err { IfErr result (λ fault. next_fault bound entries.now before.now (drop at octets.now) ≡ Some fault) }
{
    let rest = &octets[at..];
    let size = first_number(rest);
    if rest.len() < 1 + size {
        return Err(ImageFault::Cut);
    }
    let name = &rest[1..1 + size];
    match name_fault(bound, entries, before, name) {
        None => Ok(name),
        Some(fault) => Err(fault),
    }
}

/// Reads one more name.
fn put_name<T: Drop>(
    alloc: Global,
    names: &mut Names,
    bound: bool,
    entries: &NamedList<T>,
    octets: &[u8],
    begin: usize,
    count: usize,
) -> Result<(), LoadError>
    requires small { length entries.now ≤ 256 }
    requires before { NamesIn bound entries.now octets.now begin (length names.old.names.items) names.old }
    requires few { length names.old.names.items < count }
    ensures ok { OnOk result (NamesIn bound entries.now octets.now begin (length names.old.names.items + 1) names.new) }
    ensures err { IfErr result (IsRefusal (NamesWrong bound entries.now octets.now begin count)) }
    ensures next { UnlessRefused result (NextFine bound entries.now octets.now names.old) }
{
    let name = match read_name(bound, entries, names.names.as_slice(), octets, names.end) {
        Ok(name) => name,
        Err(fault) => return Err(LoadError::Refused(fault_at(fault, names.end, octets.len()))),
    };
    let place = place_of(bound, entries, name);
    names.names.push(Octets::from_slice(alloc, name)?)?;
    names.places.push(place)?;
    names.end += 1 + name.len();
    Ok(())
}

/// The names of a list of that many, which begins there in the image.
pub(crate) fn read_names<T: Drop>(
    alloc: Global,
    bound: bool,
    entries: &NamedList<T>,
    octets: &[u8],
    begin: usize,
    count: usize,
) -> Result<Names, LoadError>
    requires inside { begin ≤ length octets.now }
    requires small { length entries.now ≤ 256 }
    ensures ok { IfOk result (NamesIn bound entries.now octets.now begin count) }
    ensures err { IfErr result (IsRefusal (NamesWrong bound entries.now octets.now begin count)) }
    ensures first { UnlessRefused result (0 < count → next_fault bound entries.now [] (drop begin octets.now) ≡ None) }
{
    let mut names = Names {
        names: Vec::new(alloc),
        places: Vec::new(alloc),
        end: begin,
    };
    for _ in 0..count {
        put_name(alloc, &mut names, bound, entries, octets, begin, count)?;
    }
    Ok(names)
}

/// The names of states, kinds, guards and actions.
pub struct ImageNames {
    pub states: Names,
    pub kinds: Names,
    pub guards: Names,
    pub actions: Names,
}

impl Drop for ImageNames {
    fn drop(self) {
        let ImageNames {
            states,
            kinds,
            guards,
            actions,
        } = self;
    }
}

/// The names of an image.
pub(crate) fn read_image_names(
    alloc: Global,
    book: &LawBook,
    octets: &[u8],
    counts: &Counts,
) -> Result<ImageNames, LoadError>
    requires counts { 14 ≤ length octets.now }
    requires some { 0 < counts.now.states }
    ensures ok { IfOk result (λ names. NamesAre book.now octets.now counts.now (lists names)) }
    ensures err { IfErr result (IsRefusal (AnyNameWrong book.now octets.now counts.now)) }
    ensures first { UnlessRefused result (next_fault false book.now.kinds [] (drop 14 octets.now) ≡ None) }
{
    book.known();
    let states = read_names(alloc, false, book.kinds(), octets, 14, counts.states)?;
    let kinds = read_names(alloc, true, book.kinds(), octets, states.end, counts.kinds)?;
    let guards = read_names(alloc, true, book.guards(), octets, kinds.end, counts.guards)?;
    let actions = read_names(alloc, true, book.acts(), octets, guards.end, counts.actions)?;
    Ok(ImageNames {
        states,
        kinds,
        guards,
        actions,
    })
}
