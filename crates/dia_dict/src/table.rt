//! Definitions in order of adding, found by AVP Code and vendor.

ghost use Rattle.std.specs.Prelude.{◌≡◌, ◌<◌, false, None, Some, [], ◌∷◌, ◌++◌, IfOk, OnOk, OnErr};
ghost use Rattle.std.specs.Prelude.{IfErr, slice_get};
ghost use Rattle.std.specs.Option.{option_copied};
ghost use Rattle.base_list.specs.Adding.{error_of};
ghost use Rattle.dia_dict.specs.Dictionary.{is_of as is_definition_of};

use crate::base::lines;
use crate::definition::{AvpKind, Definition};
use base_list::{AddError, AddFault, Octets};
use std::alloc::{AllocError, Global};
use std::marker::Model;

/// The most definitions that a dictionary has.
pub const MAX_DEFINITIONS: usize = 256;

/// How many slots codes and vendors are spread over: those of the base protocol and of credit control have one each.
const SLOTS: usize = 512;

/// Definitions in order of adding, none twice. A contract sees them as that list. `places` has for each slot the place
/// of the definition that came there last, which is looked at before it is used.
#[derive(Drop)]
pub(crate) struct Table {
    definitions: Vec<Definition>,
    places: [u8; SLOTS],
}

impl Model for Table {
    ghost use Rattle.std.specs.Prelude.{List};
    ghost use Rattle.dia_dict.specs.declared.definition.Definition.{Definition};
    ghost use Rattle.dia_dict.specs.Dictionary.{NoneTwice};

    ghost Value = { List Definition };

    ghost view = { λ t. t.definitions.items };

    ghost invariant = { λ t. NoneTwice t.definitions.items };
}

// The slot of a code and a vendor.
fn slot_of(code: u32, vendor: Option<u32>) -> usize
    ensures { result < 512 }
{
    (code ^ vendor.unwrap_or(0)) as usize % SLOTS
}

fn is_of(definition: &Definition, code: u32, vendor: Option<u32>) -> bool
    ensures { result ≡ is_definition_of code vendor definition.now }
{
    code == definition.code && vendor.unwrap_or(0) == definition.vendor.unwrap_or(0)
}

impl Table {
    ghost use Rattle.dia_dict.specs.Base.{base};
    ghost use Rattle.dia_dict.specs.Dictionary.{definition_of, definition_named, is_taken, NoneTwice, defined, refusal};

    fn new(alloc: Global) -> Table
        ensures { result ≡ [] }
    {
        Table {
            definitions: Vec::new(alloc),
            places: [0; SLOTS],
        }
    }

    // Adds a definition at the end.
    fn append(&mut self, definition: Definition) -> Result<(), AllocError>
        requires { is_taken self.old definition.code definition.vendor definition.name ≡ false }
        ensures ok { OnOk result (self.new ≡ self.old ++ definition ∷ []) }
        ensures err { OnErr result (self.new ≡ self.old) }
    {
        let slot = slot_of(definition.code, definition.vendor);
        let place = (self.definitions.len() % 256) as u8;
        self.definitions.push(definition)?;
        self.places[slot] = place;
        Ok(())
    }

    /// The definitions that every dictionary has.
    pub fn base(alloc: Global) -> Result<Table, AllocError>
        ensures { IfOk result (λ t. t ≡ base) }
    {
        let mut table = Table::new(alloc);
        for (code, name, kind) in lines() {
            table.append(Definition {
                code: *code,
                vendor: None,
                name: Octets::from_slice(alloc, name.as_bytes())?,
                kind: *kind,
            })?;
        }
        Ok(table)
    }

    /// Adds a definition at the end.
    pub fn add(
        &mut self,
        code: u32,
        vendor: Option<u32>,
        name: &str,
        kind: AvpKind,
    ) -> Result<(), AddError>
        ensures ok { OnOk result (self.new ≡ self.old ++ defined code vendor name.now kind ∷ []) }
        ensures free { OnOk result (refusal self.old code vendor name.now ≡ None) }
        ensures fault { IfErr result (λ e. e ≡ error_of (refusal self.old code vendor name.now)) }
        ensures err { OnErr result (self.new ≡ self.old) }
    {
        if self.find(code, vendor).is_some() || self.by_name(name).is_some() {
            return Err(AddError::Fault(AddFault::Taken));
        }
        if self.definitions.len() >= MAX_DEFINITIONS {
            return Err(AddError::Fault(AddFault::Full));
        }
        let name = Octets::from_slice(*self.definitions.allocator(), name.as_bytes())?;
        self.append(Definition {
            code,
            vendor,
            name,
            kind,
        })?;
        Ok(())
    }

    /// The definition of an AVP Code and a vendor.
    pub fn find(&self, code: u32, vendor: Option<u32>) -> Option<&Definition>
        ensures { option_copied result ≡ definition_of self.now code vendor }
    {
        let place = self.places[slot_of(code, vendor)];
        match self.at(place as usize) {
            Some(definition) if is_of(definition, code, vendor) => Some(definition),
            _ => self.definitions.iter().find(|d| is_of(d, code, vendor)),
        }
    }

    /// The definition of a name.
    pub fn by_name(&self, name: &str) -> Option<&Definition>
        ensures { option_copied result ≡ definition_named self.now name.now }
    {
        self.definitions
            .iter()
            .find(|d| d.name.as_slice() == name.as_bytes())
    }

    /// The definition at a place, from 0.
    pub fn at(&self, place: usize) -> Option<&Definition>
        ensures place { option_copied result ≡ slice_get self.now place }
        ensures once { NoneTwice self.now }
    {
        self.definitions.get(place)
    }
}
