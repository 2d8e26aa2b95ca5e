//! A desk: which text is the next, and whether its time has come.
ghost use Rattle.std.specs.Prelude.{◌≡◌, ◌<◌, ◌+◌, ◌^◌, ◌&&◌, ◌||◌, ◌⊎◌, ℕ, IfErr, IfOk, IfSome, IsTrue, None, OnErr};
ghost use Rattle.std.specs.Prelude.{OnOk};
ghost use Rattle.std.specs.Prelude.{is_some, map, nat_lt, not, option_copied, true};
ghost use Rattle.std.specs.List.{list_all};
ghost use Rattle.live_desk.specs.Desks.{IsDue, LooksInVain, are_answered, count_of, gone_on, is_answered, is_open};
ghost use Rattle.live_desk.specs.Desks.{is_over, is_pending, is_ready, is_time, next_step, state_name, told_earlier};
ghost use Rattle.live_desk.specs.Desks.{told_now, told_of, waits, words_of};
ghost use Rattle.live_desk.specs.Read.{IsFirstBad, can_tell};
ghost use Rattle.live_desk.specs.Texts.{is_start};
ghost use Rattle.live_desk.specs.declared.texts.DeskError.TheVariants.{BadText};

use crate::stands::Stands;
use crate::texts::{DeskError, DeskText, is_start, text_of, told_step};
use base_list::Octets;
use bench_core::Core;
use bench_item::{Key, Role, Step, StepFault};
use std::alloc::{AllocError, Global};
use tab_law::LawBook;

/// The name of the state of a machine, if it is there.
fn state_name<'a, S: Stands>(seen: &'a S, key: &Key) -> Option<&'a Octets>
    ensures { option_copied result ≡ state_name (S.standing seen.now) key.now }
{
    let state = seen.state_of(key)?;
    seen.table(key.role)
        .states()
        .as_slice()
        .get(usize::from(state.state))
}

/// Whether a peer's machine stands where messages go through (RFC 6733 section 5.6).
fn is_open<S: Stands>(seen: &S, key: &Key) -> bool
    ensures { result ≡ is_open (S.standing seen.now) key.now }
{
    match state_name(seen, key) {
        Some(name) => {
            name.as_slice() == b"I-Open".as_slice() || name.as_slice() == b"R-Open".as_slice()
        }
        None => false,
    }
}

/// Whether a session's machine waits for an answer (RFC 8506 section 7).
fn is_pending<S: Stands>(seen: &S, key: &Key) -> bool
    ensures { result ≡ is_pending (S.standing seen.now) key.now }
{
    match state_name(seen, key) {
        Some(name) => name.as_slice().starts_with(b"Pending"),
        None => false,
    }
}

/// Whether the peer that a text told Start, if it did, stands open.
fn is_ready<S: Stands>(seen: &S, text: &DeskText) -> bool
    ensures { result ≡ is_ready (S.standing seen.now) text.now }
{
    match &text.starts {
        Some(peer) => is_open(seen, peer),
        None => true,
    }
}

/// Whether the session that a desk told an event waits for an answer.
fn waits<S: Stands>(seen: &S, step: &Step) -> bool
    ensures { result ≡ waits (S.standing seen.now) step.now }
{
    match step {
        Step::Told {
            desk: _,
            key,
            event: _,
        } => match key.role {
            Role::Peer => false,
            Role::Client | Role::Server => is_pending(seen, key),
        },
        _ => false,
    }
}

/// Whether the session of a text, as a desk told it in a round, waits for no answer.
fn is_answered<S: Stands>(
    alloc: Global,
    seen: &S,
    desk: u32,
    text: &DeskText,
    round: u64,
) -> Result<bool, AllocError>
    ensures { IfOk result (λ is. is ≡ is_answered (S.standing seen.now) desk round text.now) }
{
    match told_step(alloc, seen.laws(), desk, text.words.as_slice(), round)? {
        Some(step) => Ok(!waits(seen, &step)),
        None => Ok(true),
    }
}

/// Whether those of all these texts wait for none.
fn are_all_answered<S: Stands>(
    alloc: Global,
    seen: &S,
    desk: u32,
    texts: &[DeskText],
    round: u64,
) -> Result<bool, AllocError>
    ensures { IfOk result (λ are. are ≡ list_all (is_answered (S.standing seen.now) desk round) texts.now) }
{
    'texts: for text in texts {
        if !is_answered(alloc, seen, desk, text, round)? {
            return Ok(false);
        }
    }
    Ok(true)
}

/// A desk: texts that it tells in order, so many rounds.
///
/// In: `due`, `go_on`. Looks: `is_over`, `keys`.
pub struct Desk {
    pub number: u32,
    pub texts: Vec<DeskText>,
    pub rounds: u64,
    /// The round, from 1.
    pub round: u64,
    /// The place of the next text.
    pub place: usize,
    /// How often it looked in vain whether the time of that text has come.
    pub looks: u64,
    /// How often it does so at most.
    pub patience: u64,
}

// A derived `drop` is proved anew in each crate that holds a desk; this one is a call.
impl Drop for Desk {
    fn drop(self) {
        let Desk {
            number: _,
            texts,
            rounds: _,
            round: _,
            place: _,
            looks: _,
            patience: _,
        } = self;
    }
}

/// A text that a desk of this bench can tell.
fn read_text(
    alloc: Global,
    core: &Core,
    desk: u32,
    words: &[u8],
) -> Result<Option<DeskText>, AllocError>
    ensures words { IfOk result (λ text. IfSome text (λ t. words_of t ≡ words.now)) }
    ensures could { IfOk result (λ text. is_some text ≡ can_tell core.now desk words.now) }
{
    let Some(step) = told_step(alloc, core.laws(), desk, words, 1)? else {
        return Ok(None);
    };
    match core.refusal(&step) {
        Some(StepFault::Unknown) => Ok(None),
        _ => text_of(alloc, core.laws(), words, step),
    }
}

/// The texts of a desk, in their order.
fn read_texts(
    alloc: Global,
    core: &Core,
    desk: u32,
    lines: &[Octets],
) -> Result<Vec<DeskText>, DeskError>
    ensures words { IfOk result (λ texts. map words_of texts.items ≡ lines.now) }
    ensures could { OnOk result (list_all (can_tell core.now desk) lines.now ≡ true) }
    ensures fault { IfErr result (λ f. (place : ℕ) → f ≡ BadText place → IsFirstBad core.now desk lines.now place) }
{
    let mut texts = Vec::new(alloc);
    for words in lines {
        match read_text(alloc, core, desk, words.as_slice())? {
            Some(text) => texts.push(text)?,
            // As many texts were read as stand before it.
            None => return Err(DeskError::BadText(texts.len())),
        }
    }
    Ok(texts)
}

impl Desk {
    /// The desk of that number, which tells these texts so many rounds,
    /// and looks at most so often in vain whether a text's time has come.
    pub fn new(
        alloc: Global,
        core: &Core,
        number: u32,
        lines: &[Octets],
        rounds: u64,
        patience: u64,
    ) -> Result<Desk, DeskError>
        ensures texts { IfOk result (λ desk. map words_of desk.texts.items ≡ lines.now) }
        ensures start { IfOk result (λ desk. (desk.number ≡ number)
            × (desk.rounds ≡ rounds) × (desk.round ≡ 1) × (desk.place ≡ 0)
            × (desk.looks ≡ 0) × (desk.patience ≡ patience)) }
        ensures could { OnOk result (list_all (can_tell core.now number) lines.now ≡ true) }
        // It is refused for the first text that it can't tell, or for memory.
        ensures fault { IfErr result (λ f. (place : ℕ) → f ≡ BadText place
            → IsFirstBad core.now number lines.now place) }
    {
        let texts = read_texts(alloc, core, number, lines)?;
        Ok(Desk {
            number,
            texts,
            rounds,
            round: 1,
            place: 0,
            looks: 0,
            patience,
        })
    }

    /// Whether all rounds are told.
    pub fn is_over(&self) -> bool
        ensures { result ≡ is_over self.now }
    {
        self.texts.is_empty() || self.rounds < self.round
    }

    // How many texts of its round it told.
    fn count(&self) -> usize
        ensures { result ≡ count_of self.now }
    {
        self.place.min(self.texts.len())
    }

    // Those texts.
    pub(crate) fn told_now(&self) -> &[DeskText]
        ensures { result.now ≡ told_now self.now }
    {
        &self.texts[..self.count()]
    }

    // The others, which it told in the round before, if there was one.
    pub(crate) fn told_earlier(&self) -> &[DeskText]
        ensures { result.now ≡ told_earlier self.now }
    {
        &self.texts[self.count()..]
    }

    // The texts that were told before the next one.
    pub(crate) fn told(&self) -> &[DeskText]
        ensures { result.now ≡ told_of self.now }
    {
        if self.round > 1 {
            return self.texts.as_slice();
        }
        self.told_now()
    }

    // Whether each peer that was told Start stands where messages go through.
    fn are_open<S: Stands>(&self, seen: &S) -> bool
        ensures { result ≡ list_all (is_ready (S.standing seen.now)) (told_of self.now) }
    {
        self.told().iter().all(|text| is_ready(seen, text))
    }

    // Whether no session waits for an answer, of those that it told something, by each text as it was told last.
    fn are_answered<S: Stands>(&self, alloc: Global, seen: &S) -> Result<bool, AllocError>
        ensures { IfOk result (λ are. are ≡ are_answered (S.standing seen.now) self.now) }
    {
        if !are_all_answered(alloc, seen, self.number, self.told_now(), self.round)? {
            return Ok(false);
        }
        if self.round <= 1 {
            return Ok(true);
        }
        are_all_answered(
            alloc,
            seen,
            self.number,
            self.told_earlier(),
            self.round - 1,
        )
    }

    // Whether the time of a peer's event has come.
    fn is_peers_time<S: Stands>(
        &self,
        alloc: Global,
        seen: &S,
        kind: u8,
    ) -> Result<bool, AllocError>
        ensures { IfOk result (λ is. is ≡ (is_start (S.standing seen.now).settings.node.laws kind
            || are_answered (S.standing seen.now) self.now)) }
    {
        if is_start(seen.laws(), kind) {
            return Ok(true);
        }
        self.are_answered(alloc, seen)
    }

    // Whether the time of what is told next has come.
    fn is_time<S: Stands>(&self, alloc: Global, seen: &S, step: &Step) -> Result<bool, AllocError>
        ensures { IfOk result (λ is. is ≡ is_time (S.standing seen.now) self.now step.now) }
    {
        match step {
            Step::Told {
                desk: _,
                key,
                event,
            } => match key.role {
                Role::Peer => self.is_peers_time(alloc, seen, event.kind),
                Role::Client | Role::Server => Ok(self.are_open(seen) && !is_pending(seen, key)),
            },
            _ => Ok(true),
        }
    }

    // Whether it is too early for that, and the desk still patient.
    fn is_early<S: Stands>(&self, alloc: Global, seen: &S, step: &Step) -> Result<bool, AllocError>
        ensures early { IfOk result (λ is. is ≡ (nat_lt self.now.looks self.now.patience
            && not (is_time (S.standing seen.now) self.now step.now))) }
        ensures bound { IfOk result (λ is. IsTrue is → self.now.looks + 1 < 2 ^ 64) }
    {
        if self.looks >= self.patience {
            return Ok(false);
        }
        Ok(!self.is_time(alloc, seen, step)?)
    }

    // What is told next, if something is.
    pub(crate) fn next(&self, alloc: Global, laws: &LawBook) -> Result<Option<Step>, AllocError>
        ensures { IfOk result (λ step. step ≡ next_step laws.now self.now) }
    {
        if self.is_over() {
            return Ok(None);
        }
        match self.texts.get(self.place) {
            Some(text) => told_step(alloc, laws, self.number, text.words.as_slice(), self.round),
            None => Ok(None),
        }
    }

    /// What is told next, where its time has come, or it was looked for so often in vain as the desk is patient.
    /// It stays the next until `go_on`.
    pub fn due<S: Stands>(&mut self, alloc: Global, seen: &S) -> Result<Option<Step>, AllocError>
        ensures due { IfOk result (λ step. IfSome step (λ s. IsDue (S.standing seen.now) self.old s)) }
        ensures kept { OnOk result (self.new ≡ self.old ⊎ LooksInVain (S.standing seen.now) self.old self.new) }
        ensures none { IfOk result (λ step. step ≡ None
            → next_step (S.standing seen.now).settings.node.laws self.old ≡ None
            ⊎ LooksInVain (S.standing seen.now) self.old self.new) }
        ensures err { OnErr result (self.new ≡ self.old) }
    {
        let Some(step) = self.next(alloc, seen.laws())? else {
            return Ok(None);
        };
        if self.is_early(alloc, seen, &step)? {
            self.looks += 1;
            return Ok(None);
        }
        Ok(Some(step))
    }

    /// Goes on to the next text: behind the last one to the first of the next round.
    pub fn go_on(&mut self)
        ensures { self.new ≡ gone_on self.old }
    {
        self.looks = 0;
        if self.texts.len().saturating_sub(self.place) > 1 {
            self.place += 1;
        } else {
            self.place = 0;
            self.round = self.round.saturating_add(1);
        }
    }
}
