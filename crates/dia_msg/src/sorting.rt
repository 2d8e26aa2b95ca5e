//! The AVPs of a message sorted by a command's format, in one pass and without memory.

ghost use Rattle.std.specs.Prelude.{◌≡◌, ◌≤◌, ◌<◌, All, IfSome, None, Some, length, true, false, slice_get, get_or};
ghost use Rattle.std.specs.Prelude.{replicate, [], List};
ghost use Rattle.std.specs.Option.{option_map};
ghost use Rattle.dia_avp.specs.View.{seen};
ghost use Rattle.dia_avp.specs.declared.avp.Avp.{Avp};
ghost use Rattle.dia_msg.specs.Taken.{is_for, is_distinct, missing};
ghost use Rattle.dia_msg.specs.Sorting.{seen_all, IsEntry, IsSorted, placed};

use arrayvec::ArrayVec;
use dia_avp::{AvpView, MAX_AVPS};
use dia_command::AvpFormat;

/// As many entries as a command's format may have.
pub(crate) const MAX_ENTRIES: usize = 16;

/// Where the AVPs lie that a format takes first, one for each of its entries, and those that it does not take.
#[derive(Drop)]
pub(crate) struct Sorted {
    pub firsts: [Option<u8>; MAX_ENTRIES],
    pub rest: ArrayVec<u8, MAX_AVPS>,
}

fn place_of(format: &[AvpFormat], avp: &AvpView<'_>) -> Option<usize>
    ensures found { IfSome result (IsEntry format.now (seen avp.now)) }
    ensures none { result ≡ None → All (λ f. is_for f (seen avp.now) ≡ false) format.now }
{
    if avp.vendor.is_some() {
        return None;
    }
    // A loop is proved sooner than `position` with its closure.
    for (place, entry) in format.iter().enumerate() {
        if entry.code == avp.code {
            return Some(place);
        }
    }
    None
}

// The entry that an AVP is for. Most messages have their AVPs in the order of the format, so the search begins at the
// entry where the next one is looked for.
fn entry_of(format: &[AvpFormat], next: usize, avp: &AvpView<'_>) -> Option<usize>
    requires { next ≤ length format.now }
    ensures found { IfSome result (IsEntry format.now (seen avp.now)) }
    ensures none { result ≡ None → All (λ f. is_for f (seen avp.now) ≡ false) format.now }
{
    match place_of(&format[next..], avp) {
        Some(place) => Some(next + place),
        None => place_of(&format[..next], avp),
    }
}

/// Sorts the AVPs of a message by a format.
pub(crate) fn sort(format: &[AvpFormat], avps: &[AvpView<'_>], sorted: &mut Sorted)
    requires distinct { is_distinct format.now ≡ true }
    requires short { length format.now ≤ 16 }
    requires few { length avps.now ≤ 128 }
    ensures { IsSorted format.now (seen_all avps.now) sorted.new }
{
    sorted.clear();
    let mut next = 0;
    for (place, avp) in avps.iter().enumerate() {
        let entry = entry_of(format, next, avp);
        match entry {
            None => sorted.rest.push(place as u8),
            Some(entry) => {
                next = entry + 1;
                if sorted.firsts[entry].is_none() {
                    sorted.firsts[entry] = Some(place as u8);
                } else if !format[entry].several {
                    sorted.rest.push(place as u8);
                }
            }
        }
    }
}

impl Sorted {
    /// No AVPs.
    pub fn new() -> Sorted {
        Sorted {
            firsts: [None; 16],
            rest: ArrayVec::new(),
        }
    }

    // Takes all AVPs out.
    fn clear(&mut self)
        ensures firsts { self.new.firsts ≡ replicate 16 None }
        ensures rest { self.new.rest.items ≡ [] }
    {
        self.firsts = [None; 16];
        self.rest.clear();
    }

    /// The first AVP of an entry.
    pub fn first<'a>(&self, place: usize, avps: &[AvpView<'a>]) -> Option<AvpView<'a>>
        ensures { option_map seen result ≡ placed (seen_all avps.now) (get_or self.now.firsts place None) }
    {
        match self.firsts.get(place) {
            Some(Some(at)) => avps.get(usize::from(*at)).copied(),
            _ => None,
        }
    }

    /// The first entry of a format whose AVP must be there and is missing.
    pub fn missing(&self, format: &[AvpFormat]) -> Option<AvpFormat>
        requires { length format.now ≤ 16 }
        ensures { (list : List Avp) → IsSorted format.now list self.now
            → result ≡ slice_get (missing format.now list) 0 }
    {
        for (place, entry) in format.iter().enumerate() {
            if entry.required && self.firsts[place].is_none() {
                return Some(*entry);
            }
        }
        None
    }
}
