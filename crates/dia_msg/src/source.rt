//! The values of a command's fields, and its rest, of AVPs that are sorted by its format. Each call takes the place of
//! a field in the format. Where memory is short a call sets `no_memory`, and what it gives then is empty: the command
//! is thrown away as a whole.

ghost use Rattle.std.specs.Prelude.{◌≡◌, [], ◌∷◌, ℕ, List, IfOk, false, map};
ghost use Rattle.std.specs.Option.{option_to_list};
ghost use Rattle.dia_avp.specs.View.{seen};
ghost use Rattle.dia_dict.specs.declared.definition.Definition.{Definition};
ghost use Rattle.dia_dict.specs.Dictionary.{known};
ghost use Rattle.dia_tree.specs.Canonical.{canonical};
ghost use Rattle.dia_command.specs.Field.{IsOctets, IsNumber, IsType, IsAction, IsGroup, IsTypedOf, AreTypedOf};
ghost use Rattle.dia_msg.specs.Taken.{untaken};
ghost use Rattle.dia_msg.specs.Sorting.{seen_all};
ghost use Rattle.dia_msg.specs.Source.{IsReady, IsOne, IsPerhaps, IsSeveral, AreNumbers, AreTexts, IsSound, entry_at};
ghost use Rattle.dia_msg.specs.Source.{takes};

use crate::sorting::Sorted;
use dia_avp::{AvpList, AvpView, Octets, is_coded, number_32};
use dia_command::{AvpFormat, RequestType, RequestedAction, Text, TypedAvp, TypedAvps};
use dia_dict::Dictionary;
use dia_tree::{canonical_avp, group_list};
use std::alloc::{AllocError, Global};

/// The AVPs of a message, sorted, and what its fields are made with.
#[derive(Clone, Copy)]
pub(crate) struct Source<'a> {
    pub alloc: Global,
    pub dictionary: &'a Dictionary,
    pub format: &'a [AvpFormat],
    pub avps: &'a [AvpView<'a>],
    pub sorted: &'a Sorted,
}

/// How the value of a field is made of an AVP's data.
pub(crate) trait FromAvp: Drop {
    // The value that data are, and the AVP Codes whose data are such a value.
    ghost is_value: { List Definition → List ℕ → Self → Type 0 };

    ghost has_kind: { List Definition → ℕ → Type 0 };

    fn from_avp(
        alloc: Global,
        dictionary: &Dictionary,
        avp: &AvpView<'_>,
    ) -> Result<Self, AllocError>
        requires { (code : ℕ) × has_kind dictionary.now code × IsSound dictionary.now code (seen avp.now) }
        ensures { IfOk result (is_value (known dictionary.now) avp.now.octets.now) };

    // What stands for a value where memory was short. Takes none.
    fn empty(alloc: Global) -> Self;
}

impl FromAvp for Octets {
    ghost is_value = { λ d. IsOctets };

    ghost has_kind = { λ d code. Unit {0} };

    fn from_avp(alloc: Global, _: &Dictionary, avp: &AvpView<'_>) -> Result<Octets, AllocError> {
        Octets::from_slice(alloc, avp.octets)
    }

    fn empty(alloc: Global) -> Octets {
        Octets::new(Vec::new(alloc))
    }
}

impl FromAvp for Text {
    ghost is_value = { λ d. IsOctets };

    ghost has_kind = { AreTexts };

    fn from_avp(alloc: Global, _: &Dictionary, avp: &AvpView<'_>) -> Result<Text, AllocError> {
        Text::from_str(alloc, avp.as_text().unwrap())
    }

    fn empty(alloc: Global) -> Text {
        Text::new(String::new(alloc))
    }
}

impl FromAvp for u32 {
    ghost is_value = { λ d. IsNumber };

    ghost has_kind = { AreNumbers };

    fn from_avp(_: Global, _: &Dictionary, avp: &AvpView<'_>) -> Result<u32, AllocError> {
        Ok(number_32(avp).unwrap())
    }

    fn empty(_: Global) -> u32 {
        0
    }
}

impl FromAvp for AvpList {
    ghost is_value = { IsGroup };

    ghost has_kind = { λ d code. Unit {0} };

    fn from_avp(
        alloc: Global,
        dictionary: &Dictionary,
        avp: &AvpView<'_>,
    ) -> Result<AvpList, AllocError> {
        group_list(alloc, dictionary, avp.octets)
    }

    fn empty(alloc: Global) -> AvpList {
        AvpList::new(alloc)
    }
}

/// How the value of a field is made of an AVP's data, where it is a number.
pub(crate) trait FromNumber: Drop {
    // The value that data are, and the AVP Codes whose data are such a value.
    ghost is_value: { List Definition → List ℕ → Self → Type 0 };

    ghost has_kind: { List Definition → ℕ → Type 0 };

    fn from_number(avp: &AvpView<'_>) -> Self
        requires { (added : List Definition) × (code : ℕ) × has_kind added code × IsSound added code (seen avp.now) }
        ensures { (definitions : List Definition) → is_value definitions avp.now.octets.now result };
}

impl FromNumber for u32 {
    ghost is_value = { λ d. IsNumber };

    ghost has_kind = { AreNumbers };

    fn from_number(avp: &AvpView<'_>) -> u32 {
        number_32(avp).unwrap()
    }
}

impl FromNumber for RequestType {
    ghost is_value = { λ d. IsType };

    ghost has_kind = { λ d code. code ≡ 416 };

    fn from_number(avp: &AvpView<'_>) -> RequestType {
        number_32(avp).and_then(RequestType::coded).unwrap()
    }
}

impl FromNumber for RequestedAction {
    ghost is_value = { λ d. IsAction };

    ghost has_kind = { AreNumbers };

    fn from_number(avp: &AvpView<'_>) -> RequestedAction {
        RequestedAction::coded(number_32(avp).unwrap())
    }
}

impl Source<'_> {
    // The value of an AVP, with its flags.
    fn value<T: FromAvp>(&self, avp: &AvpView<'_>, no_memory: &mut bool) -> TypedAvp<T>
        requires { (code : ℕ) × T.has_kind self.now.dictionary.now code
            × IsSound self.now.dictionary.now code (seen avp.now) }
        ensures { no_memory.new ≡ false → (no_memory.old ≡ false)
            × IsTypedOf (T.is_value (known self.now.dictionary.now)) result (seen avp.now) }
    {
        let value = match T::from_avp(self.alloc, self.dictionary, avp) {
            Ok(value) => value,
            Err(_) => {
                *no_memory = true;
                T::empty(self.alloc)
            }
        };
        TypedAvp {
            mandatory: avp.mandatory,
            protected: avp.protected,
            value,
        }
    }

    /// The value of an entry whose AVP may be there.
    pub fn perhaps<T: FromAvp>(&self, place: usize, no_memory: &mut bool) -> Option<TypedAvp<T>>
        requires ready { IsReady self.now.dictionary.now self.now.format.now (seen_all self.now.avps.now)
            self.now.sorted.now }
        requires held { IsPerhaps self.now.format.now place }
        requires kind { T.has_kind self.now.dictionary.now (entry_at self.now.format.now place).code }
        ensures { no_memory.new ≡ false → (no_memory.old ≡ false)
            × AreTypedOf (T.is_value (known self.now.dictionary.now)) (option_to_list result)
            (takes self.now.format.now (seen_all self.now.avps.now) place) }
    {
        match self.sorted.first(place, self.avps) {
            Some(avp) => Some(self.value(&avp, no_memory)),
            None => None,
        }
    }

    /// The value of an entry whose AVP must be there.
    pub fn one<T: FromAvp>(&self, place: usize, no_memory: &mut bool) -> TypedAvp<T>
        requires ready { IsReady self.now.dictionary.now self.now.format.now (seen_all self.now.avps.now)
            self.now.sorted.now }
        requires held { IsOne self.now.format.now place }
        requires kind { T.has_kind self.now.dictionary.now (entry_at self.now.format.now place).code }
        ensures { no_memory.new ≡ false → (no_memory.old ≡ false)
            × AreTypedOf (T.is_value (known self.now.dictionary.now)) (result ∷ [])
            (takes self.now.format.now (seen_all self.now.avps.now) place) }
    {
        let avp = self.sorted.first(place, self.avps).unwrap();
        self.value(&avp, no_memory)
    }

    // The number that an AVP is, with its flags.
    fn number_value<T: FromNumber>(&self, avp: &AvpView<'_>) -> TypedAvp<T>
        requires { (code : ℕ) × T.has_kind self.now.dictionary.now code
            × IsSound self.now.dictionary.now code (seen avp.now) }
        ensures { IsTypedOf (T.is_value (known self.now.dictionary.now)) result (seen avp.now) }
    {
        TypedAvp {
            mandatory: avp.mandatory,
            protected: avp.protected,
            value: T::from_number(avp),
        }
    }

    /// The number of an entry whose AVP may be there. Takes no memory.
    pub fn perhaps_number<T: FromNumber>(&self, place: usize) -> Option<TypedAvp<T>>
        requires ready { IsReady self.now.dictionary.now self.now.format.now (seen_all self.now.avps.now)
            self.now.sorted.now }
        requires held { IsPerhaps self.now.format.now place }
        requires kind { T.has_kind self.now.dictionary.now (entry_at self.now.format.now place).code }
        ensures { AreTypedOf (T.is_value (known self.now.dictionary.now)) (option_to_list result)
            (takes self.now.format.now (seen_all self.now.avps.now) place) }
    {
        match self.sorted.first(place, self.avps) {
            Some(avp) => Some(self.number_value(&avp)),
            None => None,
        }
    }

    /// The number of an entry whose AVP must be there. Takes no memory.
    pub fn number<T: FromNumber>(&self, place: usize) -> TypedAvp<T>
        requires ready { IsReady self.now.dictionary.now self.now.format.now (seen_all self.now.avps.now)
            self.now.sorted.now }
        requires held { IsOne self.now.format.now place }
        requires kind { T.has_kind self.now.dictionary.now (entry_at self.now.format.now place).code }
        ensures { AreTypedOf (T.is_value (known self.now.dictionary.now)) (result ∷ [])
            (takes self.now.format.now (seen_all self.now.avps.now) place) }
    {
        self.perhaps_number(place).unwrap()
    }

    // The values of an entry of any number of AVPs, each AVP looked at.
    fn every<T: FromAvp>(&self, place: usize, no_memory: &mut bool) -> TypedAvps<T>
        requires ready { IsReady self.now.dictionary.now self.now.format.now (seen_all self.now.avps.now)
            self.now.sorted.now }
        requires held { IsSeveral self.now.format.now place }
        requires kind { T.has_kind self.now.dictionary.now (entry_at self.now.format.now place).code }
        ensures { no_memory.new ≡ false → (no_memory.old ≡ false)
            × AreTypedOf (T.is_value (known self.now.dictionary.now)) result
            (takes self.now.format.now (seen_all self.now.avps.now) place) }
    {
        let code = self.format[place].code;
        let mut values = TypedAvps::new(self.alloc);
        for avp in self.avps {
            if is_coded(avp, code) {
                let value = self.value(avp, no_memory);
                if values.push(value).is_err() {
                    *no_memory = true;
                }
            }
        }
        values
    }

    /// The values of an entry of any number of AVPs.
    pub fn all<T: FromAvp>(&self, place: usize, no_memory: &mut bool) -> TypedAvps<T>
        requires ready { IsReady self.now.dictionary.now self.now.format.now (seen_all self.now.avps.now)
            self.now.sorted.now }
        requires held { IsSeveral self.now.format.now place }
        requires kind { T.has_kind self.now.dictionary.now (entry_at self.now.format.now place).code }
        ensures { no_memory.new ≡ false → (no_memory.old ≡ false)
            × AreTypedOf (T.is_value (known self.now.dictionary.now)) result
            (takes self.now.format.now (seen_all self.now.avps.now) place) }
    {
        match self.sorted.first(place, self.avps) {
            None => TypedAvps::new(self.alloc),
            Some(_) => self.every(place, no_memory),
        }
    }

    // The AVPs that no entry takes, each in its canonical encoding.
    fn left(&self) -> Result<AvpList, AllocError>
        requires ready { IsReady self.now.dictionary.now self.now.format.now (seen_all self.now.avps.now)
            self.now.sorted.now }
        ensures { IfOk result (λ list. list ≡ map (canonical (known self.now.dictionary.now) 4)
            (untaken self.now.format.now (seen_all self.now.avps.now))) }
    {
        let mut rest = AvpList::with_capacity(self.alloc, self.sorted.rest.len())?;
        for place in self.sorted.rest.as_slice() {
            if let Some(avp) = self.avps.get(usize::from(*place)) {
                let avp = canonical_avp(self.alloc, self.dictionary, avp)?;
                rest.push(avp)?;
            }
        }
        Ok(rest)
    }

    /// The AVPs that no entry takes, each in its canonical encoding.
    pub fn rest(&self, no_memory: &mut bool) -> AvpList
        requires ready { IsReady self.now.dictionary.now self.now.format.now (seen_all self.now.avps.now)
            self.now.sorted.now }
        ensures { no_memory.new ≡ false → (no_memory.old ≡ false)
            × (result ≡ map (canonical (known self.now.dictionary.now) 4)
            (untaken self.now.format.now (seen_all self.now.avps.now))) }
    {
        match self.left() {
            Ok(list) => list,
            Err(_) => {
                *no_memory = true;
                AvpList::new(self.alloc)
            }
        }
    }
}
