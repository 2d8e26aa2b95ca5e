//! What messages are read and printed by: AVP definitions, and names for the numbers of their data.
ghost use Rattle.std.specs.Prelude.{◌≡◌, ◌==◌, ◌++◌, ◌∷◌, [], None, IfOk, IfErr, OnOk, OnErr};
ghost use Rattle.std.specs.List.{find};
ghost use Rattle.std.specs.Option.{option_copied};
ghost use Rattle.base_list.specs.Adding.{error_of};
ghost use Rattle.dia_dict.specs.Dictionary.{defined, known, refusal};
ghost use Rattle.dia_show.specs.Names.{entry_in};
ghost use Rattle.dia_show.specs.Glossary.{added_name, base_meanings, is_naming_of};

use base_list::{AddError, Octets};
use dia_dict::{AvpKind, Definition, Dictionary};
use std::alloc::{AllocError, Global};
use std::marker::Model;

/// The names of numbers of one AVP, each with its number. A contract sees it as a `Naming`.
pub struct Enumeration {
    code: u32,
    vendor: Option<u32>,
    names: Vec<(u32, Octets)>,
}

// A derived `drop` is proved anew in each crate that holds one; this one is a call.
impl Drop for Enumeration {
    fn drop(self) {
        let Enumeration {
            code: _,
            vendor: _,
            names,
        } = self;
    }
}

impl Model for Enumeration {
    ghost use Rattle.dia_show.specs.Glossary.{Naming};

    ghost Value = { Naming };

    ghost view = { λ e. record { code = e.code; vendor = e.vendor; names = e.names.items } };
}

impl Enumeration {
    /// The names of an AVP Code and a vendor, of which 0 counts as none.
    pub fn new(code: u32, vendor: Option<u32>, names: Vec<(u32, Octets)>) -> Enumeration
        ensures { result ≡ record { code = code; vendor = vendor; names = names.items } }
    {
        Enumeration {
            code,
            vendor,
            names,
        }
    }

    fn is_of(&self, code: u32, vendor: Option<u32>) -> bool
        ensures { result ≡ is_naming_of code vendor self.now }
    {
        code == self.code && vendor.unwrap_or(0) == self.vendor.unwrap_or(0)
    }

    fn entry_of(&self, number: u32) -> Option<&(u32, Octets)>
        ensures { option_copied result ≡ find (λ entry. entry.0 == number) self.now.names }
    {
        self.names.iter().find(|entry| entry.0 == number)
    }

    /// The name of a number, empty where it has none.
    #[tactic(auto, unfolding(crate::specs::Names::entry_in))]
    fn name_of(&self, number: u32) -> &[u8]
        ensures { result.now ≡ entry_in self.now.names number }
    {
        match self.entry_of(number) {
            Some(entry) => entry.1.as_slice(),
            None => b"",
        }
    }
}

/// AVP definitions, and names for the numbers of their data.
/// A contract sees a glossary as what was added to the definitions that every dictionary has.
pub struct Glossary {
    definitions: Dictionary,
    enumerations: Vec<Enumeration>,
}

// A derived `drop` is proved anew in each crate that holds a glossary; this one is a call.
impl Drop for Glossary {
    fn drop(self) {
        let Glossary {
            definitions,
            enumerations,
        } = self;
    }
}

impl Model for Glossary {
    ghost use Rattle.dia_show.specs.Glossary.{Meanings};

    ghost Value = { Meanings };

    ghost view = { λ g. record { definitions = g.definitions; namings = g.enumerations.items } };
}

impl Glossary {
    /// The glossary to which nothing was added.
    pub fn base(alloc: Global) -> Result<Glossary, AllocError>
        ensures { IfOk result (λ g. g ≡ base_meanings) }
    {
        Ok(Glossary {
            definitions: Dictionary::base(alloc)?,
            enumerations: Vec::new(alloc),
        })
    }

    /// Adds a definition at the end: an AVP Code, a Vendor-ID, of which 0 counts as none, the AVP's name
    /// and its type. Refused are, in this order, a code and vendor or a name that has a definition, and one
    /// more than 256 definitions.
    pub fn define(
        &mut self,
        code: u32,
        vendor: Option<u32>,
        name: &str,
        kind: AvpKind,
    ) -> Result<(), AddError>
        ensures ok { OnOk result (self.new
            ≡ record self.old { definitions = self.old.definitions ++ defined code vendor name.now kind ∷ [] }) }
        ensures free { OnOk result (refusal (known self.old.definitions) code vendor name.now ≡ None) }
        ensures fault { IfErr result (λ e. e ≡ error_of (refusal (known self.old.definitions) code vendor name.now)) }
        ensures err { OnErr result (self.new ≡ self.old) }
    {
        self.definitions.add(code, vendor, name, kind)
    }

    /// Adds the names of the numbers of an AVP behind the others.
    pub fn name(&mut self, names: Enumeration) -> Result<(), AllocError>
        ensures ok { OnOk result (self.new ≡ record self.old { namings = self.old.namings ++ names ∷ [] }) }
        ensures err { OnErr result (self.new ≡ self.old) }
    {
        self.enumerations.push(names)?;
        Ok(())
    }

    /// The definitions.
    pub fn definitions(&self) -> &Dictionary
        ensures { result.now ≡ self.now.definitions }
    {
        &self.definitions
    }

    fn enumeration_of(&self, code: u32, vendor: Option<u32>) -> Option<&Enumeration>
        ensures { option_copied result ≡ find (is_naming_of code vendor) self.now.namings }
    {
        self.enumerations.iter().find(|e| e.is_of(code, vendor))
    }

    /// The name that was added for a number in the AVP of this definition, empty where there is none. Takes no memory.
    pub fn name_of(&self, definition: &Definition, number: u32) -> &[u8]
        ensures { result.now ≡ added_name self.now.namings definition.now number }
    {
        match self.enumeration_of(definition.code, definition.vendor) {
            Some(names) => names.name_of(number),
            None => b"",
        }
    }
}
