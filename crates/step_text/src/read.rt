//! A line as its step.

ghost use Rattle.std.specs.Prelude.{◌≡◌, IfOk, IfErr, IfSome, IfNone, option_map};
ghost use Rattle.step_text.specs.Names.{names_of};
ghost use Rattle.step_text.specs.Lines.{line_of};
ghost use Rattle.step_text.specs.Steps.{guess_line};
ghost use Rattle.step_text.specs.Faults.{IsBadLine, IsFaultOf, IsStepOf};
ghost use Rattle.step_text.specs.Shown.{step_shown};

use crate::command::command_of;
use crate::compare::has_line;
use crate::guess::guess_of;
use crate::machines::Machines;
use crate::shown::ShownStep;
use bench_item::Step;
use std::alloc::{AllocError, Global};
use tab_law::LawBook;
use text_parts::Pieces;
use thiserror::Error;

/// Why a line was not read.
#[derive(Clone, Copy, Debug, PartialEq, Eq, Error)]
pub enum StepTextError {
    /// No step has that line.
    #[error("the line is of no step")]
    BadLine,
    #[error("out of memory")]
    NoMemory,
}

impl From<AllocError> for StepTextError {
    ghost use Rattle.step_text.specs.declared.read.StepTextError.TheVariants.{NoMemory};

    ghost from_gives = { λ _ e. e ≡ NoMemory };

    fn from(_e: AllocError) -> StepTextError {
        StepTextError::NoMemory
    }
}

/// The step that a line can be.
fn guess_line<'a>(laws: &LawBook, machines: &Machines, line: &'a [u8]) -> Option<ShownStep<'a>>
    ensures { option_map step_shown result ≡ guess_line (names_of laws.now machines.now) line.now }
{
    let mut words = Pieces::new(line, b' ');
    let command = command_of(words.next()?)?;
    guess_of(laws, machines, command, &mut words)
}

/// The step that has a line. Takes no memory; `copy` makes the step itself.
pub fn find_step<'a>(laws: &LawBook, machines: &Machines, line: &'a [u8]) -> Option<ShownStep<'a>>
    ensures step { IfSome result (λ step. IsStepOf (names_of laws.now machines.now) line.now (step_shown step)) }
    ensures none { IfNone result (IsBadLine (names_of laws.now machines.now) line.now) }
{
    machines.known();
    let step = guess_line(laws, machines, line)?;
    if has_line(laws, machines, &step, line) {
        Some(step)
    } else {
        None
    }
}

/// The step of a line without its newline, in the one spelling in which `write_step` prints it: one blank between
/// words, facts in order and none of them 0, digits and letters as they are printed. A kind is one of the book, a
/// machine one of those that are given; of kinds with one name the first is meant.
pub fn read_step(
    alloc: Global,
    laws: &LawBook,
    machines: &Machines,
    line: &[u8],
) -> Result<Step, StepTextError>
    ensures ok { IfOk result (λ step. line_of (names_of laws.now machines.now) step ≡ line.now) }
    ensures fault { IfErr result (λ fault. IsFaultOf (names_of laws.now machines.now) line.now fault) }
{
    match find_step(laws, machines, line) {
        Some(step) => Ok(step.copy(alloc)?),
        None => Err(StepTextError::BadLine),
    }
}
