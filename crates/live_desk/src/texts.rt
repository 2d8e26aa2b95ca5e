//! What a desk is to tell, read.
ghost use Rattle.std.specs.Prelude.{◌≡◌, ◌≤◌, ◌++◌, IfOk, IfSome, IsTrue, OnOk, is_some, length};
ghost use Rattle.live_desk.specs.Read.{is_told};
ghost use Rattle.live_desk.specs.Texts.{begins_with_round, in_round, is_start, line_of, step_in, told_step};
ghost use Rattle.live_desk.specs.declared.texts.DeskError.TheVariants.{NoMemory};

use base_list::Octets;
use base_text::put_number;
use bench_item::{Key, Role, Step};
use script_text::{ScriptStep, read_line};
use std::alloc::{AllocError, AllocFailed, Global};
use tab_law::LawBook;

/// Why a desk's texts are not told.
#[derive(Clone, Copy, Debug, PartialEq, Eq)]
pub enum DeskError {
    /// The text at that place, from 0, is none that can be told.
    BadText(usize),
    NoMemory,
}

impl From<AllocError> for DeskError {
    ghost from_gives = { λ _ e. e ≡ NoMemory };

    fn from(_e: AllocError) -> DeskError {
        DeskError::NoMemory
    }
}

impl<T: Drop> From<AllocFailed<T>> for DeskError {
    ghost from_gives = { λ _ e. e ≡ NoMemory };

    fn from(_e: AllocFailed<T>) -> DeskError {
        DeskError::NoMemory
    }
}

/// A text of a desk.
pub struct DeskText {
    /// A line of a script behind `told` and the desk. `#n` stands for the round.
    pub words: Octets,
    /// The peer that it tells Start.
    pub starts: Option<Key>,
}

impl Drop for DeskText {
    fn drop(self) {
        let DeskText { words, starts } = self;
    }
}

/// Whether a text begins with `#n`.
fn begins_with_round(text: &[u8]) -> bool
    ensures is { result ≡ begins_with_round text.now }
    ensures length { IsTrue result → 2 ≤ length text.now }
{
    matches!(text, [b'#', b'n', ..])
}

/// Puts a text in which `#n` is the round's number.
fn put_round(out: &mut Vec<u8>, words: &[u8], round: u64) -> Result<(), AllocError>
    ensures { OnOk result (out.new.items ≡ out.old.items ++ in_round round words.now) }
{
    let mut left = words;
    'octets: while let [first, behind @ ..] = left {
        if begins_with_round(left) {
            put_number(out, b"", round)?;
            left = &left[2..];
        } else {
            out.extend_from_slice(&[*first])?;
            left = behind;
        }
    }
    Ok(())
}

/// The line of a script that a desk's text is in a round.
fn line_of(alloc: Global, desk: u32, words: &[u8], round: u64) -> Result<Vec<u8>, AllocError>
    ensures { IfOk result (λ line. line.items ≡ line_of desk words.now round) }
{
    let mut line = Vec::new(alloc);
    put_number(&mut line, b"told ", u64::from(desk))?;
    line.extend_from_slice(b" ")?;
    put_round(&mut line, words, round)?;
    Ok(line)
}

/// The step that a line asks for, if it is one.
fn step_in(asked: Option<ScriptStep>) -> Option<Step>
    ensures { result ≡ step_in asked }
{
    match asked {
        Some(ScriptStep::Step(step)) => Some(step),
        _ => None,
    }
}

/// The step that a desk takes where it tells a text in a round; none where it is no such text.
pub(crate) fn told_step(
    alloc: Global,
    laws: &LawBook,
    desk: u32,
    words: &[u8],
    round: u64,
) -> Result<Option<Step>, AllocError>
    ensures { IfOk result (λ step. step ≡ told_step laws.now desk words.now round) }
{
    let line = line_of(alloc, desk, words, round)?;
    let asked = read_line(alloc, laws, &line)?;
    Ok(step_in(asked))
}

/// Whether the kind of events at a place has the name Start.
pub(crate) fn is_start(laws: &LawBook, kind: u8) -> bool
    ensures { result ≡ is_start laws.now kind }
{
    match laws.kinds().as_slice().get(usize::from(kind)) {
        Some(entry) => entry.name.as_slice() == b"Start".as_slice(),
        None => false,
    }
}

/// What a text tells, by its step.
pub(crate) fn text_of(
    alloc: Global,
    laws: &LawBook,
    words: &[u8],
    step: Step,
) -> Result<Option<DeskText>, AllocError>
    ensures words { IfOk result (λ text. IfSome text (λ t. t.words ≡ words.now)) }
    ensures told { IfOk result (λ text. is_some text ≡ is_told step) }
{
    let Step::Told {
        desk: _,
        key,
        event,
    } = step
    else {
        return Ok(None);
    };
    let words = Octets::from_slice(alloc, words)?;
    let starts = if matches!(key.role, Role::Peer) && is_start(laws, event.kind) {
        Some(key)
    } else {
        None
    };
    Ok(Some(DeskText { words, starts }))
}
