//! An answerer, and the line that is begun.
ghost use Rattle.std.specs.Prelude.{◌≡◌, ◌++◌, IfOk, List, ℕ};
ghost use Rattle.base_dialog.specs.Dialogs.{HasAnswered, HasAnsweredAll};
ghost use Rattle.base_dialog.specs.Lines.{IsLine, last_line};

use crate::answerer::{Answered, Answerer};
use crate::lines::take_lines;
use base_list::Octets;
use std::alloc::{AllocError, Global};

/// An answerer, and the line that is begun.
#[derive(Drop)]
pub(crate) struct Dialog<T> {
    pub(crate) answerer: T,
    pub(crate) begun: Vec<u8>,
}

/// Takes a piece of the input, answers the lines that it ends, and hands out what was said.
pub(crate) fn take_piece<T: Answerer>(
    alloc: Global,
    dialog: Dialog<T>,
    piece: &[u8],
) -> Result<Answered<Dialog<T>>, AllocError>
    requires line { IsLine dialog.begun.items }
    requires stands { T.stands dialog.answerer }
    ensures stands { IfOk result (λ answered. T.stands answered.answerer.answerer) }
    ensures line { IfOk result (λ answered. IsLine answered.answerer.begun.items) }
    ensures answered { IfOk result (λ answered. (start : T) (text said : List ℕ)
        → HasAnswered T.has_answered start dialog text said
        → HasAnswered T.has_answered start answered.answerer (text ++ piece.now) (said ++ answered.text.items)) }
{
    let Dialog {
        answerer,
        mut begun,
    } = dialog;
    let lines = take_lines(alloc, &mut begun, piece)?;
    let Answered { answerer, text } = answerer.answer(&lines)?;
    Ok(Answered {
        answerer: Dialog { answerer, begun },
        text,
    })
}

/// The line that is begun, if it has an octet.
fn last_line(alloc: Global, begun: Vec<u8>) -> Result<Vec<Octets>, AllocError>
    ensures { IfOk result (λ lines. lines.items ≡ last_line begun.items) }
{
    let mut lines = Vec::new(alloc);
    if !begun.is_empty() {
        lines.push(Octets::new(begun))?;
    }
    Ok(lines)
}

/// Ends with the input: answers the last line, which has no newline, and hands out what was said.
pub(crate) fn end<T: Answerer>(alloc: Global, dialog: Dialog<T>) -> Result<Vec<u8>, AllocError>
    requires { T.stands dialog.answerer }
    ensures { IfOk result (λ last. (start : T) (text said : List ℕ) → HasAnswered T.has_answered start dialog text said
        → HasAnsweredAll T.has_answered start text (said ++ last.items)) }
{
    let Dialog { answerer, begun } = dialog;
    let lines = last_line(alloc, begun)?;
    let Answered { answerer: _, text } = answerer.answer(&lines)?;
    Ok(text)
}
