//! The dictionary.

ghost use Rattle.std.specs.Prelude.{◌≡◌, None, Some, [], ◌∷◌, ◌++◌, IfOk, IfErr, OnOk, OnErr, slice_get};
ghost use Rattle.std.specs.Option.{option_copied};
ghost use Rattle.base_list.specs.Adding.{error_of};
ghost use Rattle.dia_avp.specs.View.{seen};

use crate::definition::{AvpKind, Definition};
use crate::fault::DictFault;
use crate::field::Field;
use crate::table::Table;
use base_list::AddError;
use dia_avp::AvpView;
use std::alloc::{AllocError, Global};
use std::marker::Model;

/// AVP definitions: those of the base protocol and of credit control, and then those that were added, in order of
/// adding. A contract sees a dictionary as the list of the added ones; `known` is the list of all.
pub struct Dictionary {
    table: Table,
}

// A derived `drop` is proved anew in each crate that holds a dictionary; this one is a call.
impl Drop for Dictionary {
    fn drop(self) {
        let Dictionary { table } = self;
    }
}

impl Model for Dictionary {
    ghost use Rattle.std.specs.Prelude.{List, ◌≡◌, drop};
    ghost use Rattle.dia_dict.specs.declared.definition.Definition.{Definition};
    ghost use Rattle.dia_dict.specs.Dictionary.{known};

    ghost Value = { List Definition };

    ghost view = { λ d. drop 56 d.table };

    ghost invariant = { λ d. d.table ≡ known (drop 56 d.table) };
}

impl Dictionary {
    ghost use Rattle.dia_dict.specs.Dictionary.{known, definition_of, definition_named, NoneTwice, defined};
    ghost use Rattle.dia_dict.specs.Dictionary.{refusal, fault_of, IsValue};

    /// The dictionary to which nothing was added.
    pub fn base(alloc: Global) -> Result<Dictionary, AllocError>
        ensures { IfOk result (λ d. d ≡ []) }
    {
        Ok(Dictionary {
            table: Table::base(alloc)?,
        })
    }

    // All definitions.
    fn all(&self) -> &Table
        ensures { result.now ≡ known self.now }
    {
        &self.table
    }

    /// Adds a definition at the end: an AVP Code, a Vendor-ID, of which 0 counts as none, the AVP's name
    /// and its type. Refused are, in this order, a code and vendor or a name that has a definition, and one
    /// more than 256 definitions.
    pub fn add(
        &mut self,
        code: u32,
        vendor: Option<u32>,
        name: &str,
        kind: AvpKind,
    ) -> Result<(), AddError>
        ensures ok { OnOk result (self.new ≡ self.old ++ defined code vendor name.now kind ∷ []) }

        // It is refused by the definitions that are there, and for want of memory only where nothing else is refused.
        ensures free { OnOk result (refusal (known self.old) code vendor name.now ≡ None) }
        ensures fault { IfErr result (λ e. e ≡ error_of (refusal (known self.old) code vendor name.now)) }
        ensures err { OnErr result (self.new ≡ self.old) }
    {
        self.table.add(code, vendor, name, kind)
    }

    /// The definition of an AVP by its code and Vendor-ID, of which 0 counts as none. Takes no memory.
    pub fn find(&self, code: u32, vendor: Option<u32>) -> Option<&Definition>
        ensures { option_copied result ≡ definition_of (known self.now) code vendor }
    {
        self.all().find(code, vendor)
    }

    /// The definition of an AVP by its name, in which case counts. Takes no memory.
    pub fn by_name(&self, name: &str) -> Option<&Definition>
        ensures { option_copied result ≡ definition_named (known self.now) name.now }
    {
        self.all().by_name(name)
    }

    /// The definition at a place, from 0: first those that every dictionary has, by AVP Code.
    /// No two have one code and vendor, or one name. Takes no memory.
    pub fn at(&self, place: usize) -> Option<&Definition>
        ensures place { option_copied result ≡ slice_get (known self.now) place }
        ensures once { NoneTwice (known self.now) }
    {
        self.all().at(place)
    }

    /// The value of an AVP's data by the type that the dictionary gives it. Takes no memory.
    pub fn typed<'a>(&self, avp: &AvpView<'a>) -> Result<Field<'a>, DictFault>
        // The data as its type has it, and else the one fault.
        ensures value { IfOk result (IsValue (known self.now) (seen avp.now)) }
        ensures none { OnOk result (fault_of (known self.now) (seen avp.now) ≡ None) }
        ensures fault { IfErr result (λ f. fault_of (known self.now) (seen avp.now) ≡ Some f) }
    {
        let Some(definition) = self.find(avp.code, avp.vendor) else {
            return Err(if avp.mandatory {
                DictFault::UnknownMandatory
            } else {
                DictFault::Unknown
            });
        };
        Ok(definition.kind.typed(avp)?)
    }
}
