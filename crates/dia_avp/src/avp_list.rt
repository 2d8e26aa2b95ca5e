//! AVPs in order.
ghost use Rattle.std.specs.Prelude.{◌≡◌, ◌==◌, [], ◌∷◌, ◌++◌, length, IfOk, OnOk, OnErr, slice_get};
ghost use Rattle.std.specs.Option.{option_copied};

use crate::avp::Avp;
use std::alloc::{AllocError, Global};
use std::marker::Model;

/// AVPs in order. A contract sees them as the list of their values.
pub struct AvpList {
    avps: Vec<Avp>,
}

// A derived `drop` is proved anew in each crate that holds a list; this one is a call.
impl Drop for AvpList {
    fn drop(self) {
        let AvpList { avps } = self;
    }
}

impl Model for AvpList {
    ghost use Rattle.std.specs.Prelude.{List};
    ghost use Rattle.dia_avp.specs.declared.avp.Avp.{Avp};

    ghost Value = { List Avp };

    ghost view = { λ l. l.avps.items };
}

impl AvpList {
    /// An empty list.
    pub fn new(alloc: Global) -> AvpList
        ensures { result ≡ [] }
    {
        AvpList {
            avps: Vec::new(alloc),
        }
    }

    /// An empty list with room for so many AVPs.
    pub fn with_capacity(alloc: Global, count: usize) -> Result<AvpList, AllocError>
        ensures { IfOk result (λ list. list ≡ []) }
    {
        Ok(AvpList {
            avps: Vec::with_capacity(alloc, count)?,
        })
    }

    /// The AVPs that a vector holds. Takes no memory.
    pub fn from_vec(avps: Vec<Avp>) -> AvpList
        ensures { result ≡ avps.items }
    {
        AvpList { avps }
    }

    /// The vector that holds the AVPs. Takes no memory.
    pub fn into_vec(self) -> Vec<Avp>
        ensures { result.items ≡ self }
    {
        let AvpList { avps } = self;
        avps
    }

    /// How many AVPs there are.
    pub fn len(&self) -> usize
        ensures { result ≡ length self.now }
    {
        self.avps.len()
    }

    /// Whether there is none.
    pub fn is_empty(&self) -> bool
        ensures { result ≡ (length self.now == 0) }
    {
        self.avps.is_empty()
    }

    /// Adds an AVP at the end.
    pub fn push(&mut self, avp: Avp) -> Result<(), AllocError>
        ensures ok { OnOk result (self.new ≡ self.old ++ avp ∷ []) }
        ensures err { OnErr result (self.new ≡ self.old) }
    {
        self.avps.push(avp)?;
        Ok(())
    }

    /// The AVP at a place.
    pub fn get(&self, place: usize) -> Option<&Avp>
        ensures { option_copied result ≡ slice_get self.now place }
    {
        self.avps.get(place)
    }

    /// The AVPs.
    pub fn as_slice(&self) -> &[Avp]
        ensures { result.now ≡ self.now }
    {
        self.avps.as_slice()
    }
}
