//! A book of laws.
ghost use Rattle.std.specs.Prelude.{◌≡◌, ◌++◌, ◌∷◌, [], None, OnOk, OnErr, IfErr, take};
ghost use Rattle.base_list.specs.Adding.{error_of};
ghost use Rattle.base_list.specs.Named.{refusal};

use crate::law::{ActLaw, GuardLaw};
use crate::limits::{MAX_ACTIONS, MAX_GUARDS, MAX_KINDS};
use base_list::{AddError, NamedList, Refused};
use std::alloc::Global;
use std::marker::Model;

/// The kinds of events, and the laws of guards and of actions, each under its name. Only the last
/// ones are ever taken out, so a place stays that of its name.
///
/// In: `add_kind`, `add_guard`, `add_act`. Out: `truncate`. Looks: `kinds`, `guards`, `acts`.
pub struct LawBook {
    kinds: NamedList<()>,
    guards: NamedList<GuardLaw>,
    acts: NamedList<ActLaw>,
}

// A derived `drop` is proved anew, field by field, at each way out of each function that holds a book; this one is a
// call.
impl Drop for LawBook {
    fn drop(self) {
        let LawBook {
            kinds,
            guards,
            acts,
        } = self;
    }
}

impl Model for LawBook {
    ghost use Rattle.tab_law.specs.Books.{Laws, IsBook};

    ghost Value = { Laws };

    ghost view = { λ b. record { kinds = b.kinds; guards = b.guards; acts = b.acts } };

    ghost invariant = { λ b. IsBook (record { kinds = b.kinds; guards = b.guards; acts = b.acts }) };
}

impl LawBook {
    ghost use Rattle.tab_law.specs.Books.{IsBook};

    /// A book without names.
    pub fn new(alloc: Global) -> LawBook
        ensures { result ≡ record { kinds = []; guards = []; acts = [] } }
    {
        LawBook {
            kinds: NamedList::new(alloc),
            guards: NamedList::new(alloc),
            acts: NamedList::new(alloc),
        }
    }

    /// Tells a proof in another crate that names differ and limits are kept.
    pub fn known(&self)
        ensures { IsBook self.now }
    {
        let _kinds = &self.kinds;
    }

    /// The kinds of events.
    pub fn kinds(&self) -> &NamedList<()>
        ensures { result.now ≡ self.now.kinds }
    {
        &self.kinds
    }

    /// The laws of guards.
    pub fn guards(&self) -> &NamedList<GuardLaw>
        ensures { result.now ≡ self.now.guards }
    {
        &self.guards
    }

    /// The laws of actions.
    pub fn acts(&self) -> &NamedList<ActLaw>
        ensures { result.now ≡ self.now.acts }
    {
        &self.acts
    }

    /// Adds a kind of events.
    pub fn add_kind(&mut self, name: &[u8]) -> Result<(), AddError>
        ensures ok { OnOk result (self.new
            ≡ record self.old { kinds = self.old.kinds ++ record { name = name.now; value = tt } ∷ [] }) }
        ensures free { OnOk result (refusal MAX_KINDS name.now self.old.kinds ≡ None) }
        ensures fault { IfErr result (λ e. e ≡ error_of (refusal MAX_KINDS name.now self.old.kinds)) }
        ensures err { OnErr result (self.new ≡ self.old) }
    {
        match self.kinds.add(MAX_KINDS, name, ()) {
            Ok(()) => Ok(()),
            Err(refused) => Err(refused.error),
        }
    }

    /// Adds a guard's law, or hands it back.
    pub fn add_guard(&mut self, name: &[u8], law: GuardLaw) -> Result<(), Refused<GuardLaw>>
        ensures ok { OnOk result (self.new
            ≡ record self.old { guards = self.old.guards ++ record { name = name.now; value = law } ∷ [] }) }
        ensures free { OnOk result (refusal MAX_GUARDS name.now self.old.guards ≡ None) }
        ensures fault { IfErr result (λ r. r.error ≡ error_of (refusal MAX_GUARDS name.now self.old.guards)) }
        ensures back { IfErr result (λ r. r.back ≡ law) }
        ensures err { OnErr result (self.new ≡ self.old) }
    {
        self.guards.add(MAX_GUARDS, name, law)
    }

    /// Adds an action's law, or hands it back.
    pub fn add_act(&mut self, name: &[u8], law: ActLaw) -> Result<(), Refused<ActLaw>>
        ensures ok { OnOk result (self.new
            ≡ record self.old { acts = self.old.acts ++ record { name = name.now; value = law } ∷ [] }) }
        ensures free { OnOk result (refusal MAX_ACTIONS name.now self.old.acts ≡ None) }
        ensures fault { IfErr result (λ r. r.error ≡ error_of (refusal MAX_ACTIONS name.now self.old.acts)) }
        ensures back { IfErr result (λ r. r.back ≡ law) }
        ensures err { OnErr result (self.new ≡ self.old) }
    {
        self.acts.add(MAX_ACTIONS, name, law)
    }

    /// Keeps the first kinds, guards and actions, as many as these numbers say, and drops those behind them. Takes no
    /// memory.
    pub fn truncate(&mut self, kinds: usize, guards: usize, acts: usize)
        ensures { self.new ≡ record {
          kinds = take kinds self.old.kinds;
          guards = take guards self.old.guards;
          acts = take acts self.old.acts;
        } }
    {
        self.kinds.truncate(kinds);
        self.guards.truncate(guards);
        self.acts.truncate(acts);
    }
}
