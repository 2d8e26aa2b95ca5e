//! Events and deeds in as little room as they need.
ghost use Rattle.std.specs.Prelude.{◌≡◌, ◌≤◌, IfOk, IsOk, replicate};
ghost use Rattle.tab_law.specs.declared.limits.TheConstants.{PLACES};
ghost use Rattle.tab_kept.specs.Trimmed.{octets_for};

use crate::places::Places;
use std::alloc::{AllocError, Global};
use std::marker::Model;
use tab_law::Deed;
use tab_step::Event;

/// Something that happens to a machine, kept small. A contract sees the plain event.
pub struct KeptEvent {
    kind: u8,
    facts: Places,
}

impl Drop for KeptEvent {
    fn drop(self) {
        let KeptEvent { kind: _, facts } = self;
    }
}

impl Model for KeptEvent {
    ghost use Rattle.tab_step.specs.declared.machine.Event.{Event};

    ghost Value = { Event };

    ghost view = { λ k. record { kind = k.kind; facts = k.facts } };
}

impl KeptEvent {
    /// An event of the kind at that place in the book of laws, whose facts are all 0. Takes no memory.
    pub fn bare(alloc: Global, kind: u8) -> KeptEvent
        ensures { result ≡ record { kind = kind; facts = replicate PLACES 0 } }
    {
        let facts = Places::zeros(alloc);
        KeptEvent { kind, facts }
    }

    /// Keeps an event. Where its facts take up to 32 octets, it takes no memory.
    pub fn keep(alloc: Global, plain: &Event) -> Result<KeptEvent, AllocError>
        ensures kept { IfOk result (λ kept. kept ≡ plain.now) }
        ensures short { octets_for plain.now.facts ≤ 32 → IsOk result }
    {
        let facts = Places::keep(alloc, &plain.facts)?;
        let kind = plain.kind;
        Ok(KeptEvent { kind, facts })
    }

    /// The event. Takes no memory.
    pub fn show(&self) -> Event
        ensures { result ≡ self.now }
    {
        let facts = self.facts.show();
        let kind = self.kind;
        Event { kind, facts }
    }

    /// The place of its kind in the book of laws, without the facts.
    pub fn kind(&self) -> u8
        ensures { result ≡ self.now.kind }
    {
        self.kind
    }

    /// The same event in memory of its own.
    pub fn copy(&self, alloc: Global) -> Result<KeptEvent, AllocError>
        ensures { IfOk result (λ copy. copy ≡ self.now) }
    {
        let facts = self.facts.copy(alloc)?;
        let kind = self.kind;
        Ok(KeptEvent { kind, facts })
    }
}

/// What an action has done outside its machine, kept small. A contract sees the plain deed.
pub struct KeptDeed {
    code: u16,
    a: Places,
}

impl Drop for KeptDeed {
    fn drop(self) {
        let KeptDeed { code: _, a } = self;
    }
}

impl Model for KeptDeed {
    ghost use Rattle.tab_law.specs.declared.scene.Deed.{Deed};

    ghost Value = { Deed };

    ghost view = { λ k. record { code = k.code; a = k.a } };
}

impl KeptDeed {
    /// Keeps a deed. Where its arguments take up to 32 octets, it takes no memory.
    pub fn keep(alloc: Global, plain: &Deed) -> Result<KeptDeed, AllocError>
        ensures kept { IfOk result (λ kept. kept ≡ plain.now) }
        ensures short { octets_for plain.now.a ≤ 32 → IsOk result }
    {
        let a = Places::keep(alloc, &plain.a)?;
        let code = plain.code;
        Ok(KeptDeed { code, a })
    }

    /// The deed. Takes no memory.
    pub fn show(&self) -> Deed
        ensures { result ≡ self.now }
    {
        let a = self.a.show();
        let code = self.code;
        Deed { code, a }
    }

    /// Its code, without the arguments.
    pub fn code(&self) -> u16
        ensures { result ≡ self.now.code }
    {
        self.code
    }

    /// The same deed in memory of its own.
    pub fn copy(&self, alloc: Global) -> Result<KeptDeed, AllocError>
        ensures { IfOk result (λ copy. copy ≡ self.now) }
    {
        let a = self.a.copy(alloc)?;
        let code = self.code;
        Ok(KeptDeed { code, a })
    }
}
