//! By which machines it is known whether the time of a desk's next text has come.
ghost use Rattle.std.specs.Prelude.{◌≡◌, ◌++◌, ◌∷◌, [], IfOk, OnOk, filter_map, if◌then◌else◌, option_and_then};
ghost use Rattle.live_desk.specs.Keys.{DecidesTime, keys_by, keys_of, started, starts_of, told_machine, told_machines};
ghost use Rattle.live_desk.specs.Keys.{machine_of_text};
ghost use Rattle.live_desk.specs.Texts.{is_start};

use crate::desk::Desk;
use crate::texts::{DeskText, is_start, told_step};
use bench_item::{Key, Role, Step};
use std::alloc::{AllocError, Global};
use tab_law::LawBook;

/// The machine that a step tells something, if it does.
fn told_machine(step: Option<Step>) -> Option<Key>
    ensures { result ≡ option_and_then told_machine step }
{
    match step? {
        Step::Told {
            desk: _,
            key,
            event: _,
        } => Some(key),
        _ => None,
    }
}

/// The machine that a text tells something in a round, if it does.
fn machine_of_text(
    alloc: Global,
    laws: &LawBook,
    desk: u32,
    text: &DeskText,
    round: u64,
) -> Result<Option<Key>, AllocError>
    ensures { IfOk result (λ key. key ≡ machine_of_text laws.now desk round text.now) }
{
    let step = told_step(alloc, laws, desk, text.words.as_slice(), round)?;
    Ok(told_machine(step))
}

/// Adds the machines that these texts told something in a round.
fn add_told(
    alloc: Global,
    laws: &LawBook,
    desk: u32,
    texts: &[DeskText],
    round: u64,
    keys: &mut Vec<Key>,
) -> Result<(), AllocError>
    ensures { OnOk result (keys.new.items
        ≡ keys.old.items ++ filter_map (machine_of_text laws.now desk round) texts.now) }
{
    for text in texts {
        if let Some(key) = machine_of_text(alloc, laws, desk, text, round)? {
            keys.push(key)?;
        }
    }
    Ok(())
}

/// The same key.
fn copy_key(alloc: Global, key: &Key) -> Result<Key, AllocError>
    ensures { IfOk result (λ copy. copy ≡ key.now) }
{
    let name = key.name.copy(alloc)?;
    Ok(Key {
        role: key.role,
        name,
    })
}

/// The peers that these texts told Start.
fn started_by(alloc: Global, texts: &[DeskText]) -> Result<Vec<Key>, AllocError>
    ensures { IfOk result (λ keys. keys.items ≡ filter_map starts_of texts.now) }
{
    let mut keys = Vec::new(alloc);
    for text in texts {
        if let Some(peer) = &text.starts {
            keys.push(copy_key(alloc, peer)?)?;
        }
    }
    Ok(keys)
}

impl Desk {
    // The machines that it told something, by each text as it was told last.
    fn told_machines(&self, alloc: Global, laws: &LawBook) -> Result<Vec<Key>, AllocError>
        ensures { IfOk result (λ keys. keys.items ≡ told_machines laws.now self.now) }
    {
        let mut keys = Vec::new(alloc);
        add_told(
            alloc,
            laws,
            self.number,
            self.told_now(),
            self.round,
            &mut keys,
        )?;
        if self.round > 1 {
            let earlier = self.told_earlier();
            add_told(alloc, laws, self.number, earlier, self.round - 1, &mut keys)?;
        }
        Ok(keys)
    }

    // By which machines the time of a peer's event is known: of none where it is Start.
    fn keys_of_peer(&self, alloc: Global, laws: &LawBook, kind: u8) -> Result<Vec<Key>, AllocError>
        ensures { IfOk result (λ keys. keys.items
            ≡ (if is_start laws.now kind then [] else told_machines laws.now self.now)) }
    {
        if is_start(laws, kind) {
            return Ok(Vec::new(alloc));
        }
        self.told_machines(alloc, laws)
    }

    // By which machines the time of a session's event is known.
    fn keys_of_session(&self, alloc: Global, session: Key) -> Result<Vec<Key>, AllocError>
        ensures { IfOk result (λ keys. keys.items ≡ started self.now ++ session ∷ []) }
    {
        let mut keys = started_by(alloc, self.told())?;
        keys.push(session)?;
        Ok(keys)
    }

    // By which machines the time of a step is known.
    fn keys_by(&self, alloc: Global, laws: &LawBook, step: Step) -> Result<Vec<Key>, AllocError>
        ensures { IfOk result (λ keys. keys.items ≡ keys_by laws.now self.now step) }
    {
        let Step::Told {
            desk: _,
            key,
            event,
        } = step
        else {
            return Ok(Vec::new(alloc));
        };
        match key.role {
            Role::Peer => self.keys_of_peer(alloc, laws, event.kind),
            Role::Client | Role::Server => self.keys_of_session(alloc, key),
        }
    }

    // The same of what it tells next; none where that is nothing.
    fn next_keys(&self, alloc: Global, laws: &LawBook) -> Result<Vec<Key>, AllocError>
        ensures { IfOk result (λ keys. keys.items ≡ keys_of laws.now self.now) }
    {
        match self.next(alloc, laws)? {
            Some(step) => self.keys_by(alloc, laws, step),
            None => Ok(Vec::new(alloc)),
        }
    }

    /// By which machines it is known whether the time of its next text has come: in two benches with these laws, which
    /// were opened alike and in which they stand alike, it has come in both or in none.
    pub fn keys(&self, alloc: Global, laws: &LawBook) -> Result<Vec<Key>, AllocError>
        ensures keys { IfOk result (λ keys. keys.items ≡ keys_of laws.now self.now) }
        ensures decide { IfOk result (λ keys. DecidesTime laws.now self.now keys.items) }
    {
        let keys = self.next_keys(alloc, laws)?;
        Ok(keys)
    }
}
