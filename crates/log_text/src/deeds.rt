//! The deeds of an entry: a line each, one of the account book with its outcome.
ghost use Rattle.std.specs.Prelude.{◌≡◌, ◌∷◌, ◌++◌, List, IfOk, OnOk};
ghost use Rattle.log_text.specs.EntryLines.{deed_lines, first_text, is_booking, others, outcome_text};
ghost use Rattle.tab_law.specs.declared.scene.Deed.{Deed};

use acct_totals::Outcome;
use base_codes::DeedCode;
use base_text::put_number;
use event_text::put_deed_words;
use std::alloc::AllocError;
use tab_law::Deed;

/// Whether a deed is one of the account book.
pub(crate) fn is_booking(code: u16) -> bool
    ensures { result ≡ is_booking code }
{
    code == DeedCode::Reserve.number()
        || code == DeedCode::Debit.number()
        || code == DeedCode::Release.number()
        || code == DeedCode::Charge.number()
        || code == DeedCode::Refund.number()
}

/// What the account book made of a deed.
pub(crate) fn put_outcome(out: &mut Vec<u8>, outcome: Outcome) -> Result<(), AllocError>
    ensures { OnOk result (out.new.items ≡ out.old.items ++ outcome_text outcome) }
{
    match outcome {
        Outcome::Done { amount, unpaid } => {
            put_number(out, b" = ", amount)?;
            put_number(out, b" ", unpaid)
        }
        Outcome::Refused => out.extend_from_slice(b" refused"),
    }
}

/// The outcome of a deed of the account book, where there is one. Gives the outcomes behind it.
fn put_first<'a>(out: &mut Vec<u8>, outcomes: &'a [Outcome]) -> Result<&'a [Outcome], AllocError>
    ensures left { IfOk result (λ left. left.now ≡ others outcomes.now) }
    ensures put { OnOk result (out.new.items ≡ out.old.items ++ first_text outcomes.now) }
{
    match outcomes {
        [] => Ok(outcomes),
        [first, left @ ..] => {
            put_outcome(out, *first)?;
            Ok(left)
        }
    }
}

/// The line of a deed. Gives the outcomes of the deeds behind it.
fn put_line<'a>(
    out: &mut Vec<u8>,
    deed: &Deed,
    outcomes: &'a [Outcome],
) -> Result<&'a [Outcome], AllocError>
    ensures { IfOk result (λ left. (deeds : List Deed) →
        out.new.items ++ deed_lines deeds left.now ≡ out.old.items ++ deed_lines (deed.now ∷ deeds) outcomes.now) }
{
    put_deed_words(out, b"    ", deed)?;
    let left = if is_booking(deed.code) {
        put_first(out, outcomes)?
    } else {
        outcomes
    };
    out.extend_from_slice(b"\n")?;
    Ok(left)
}

/// Puts each deed on a line of its own, one of the account book with its outcome.
pub(crate) fn put_deed_lines(
    out: &mut Vec<u8>,
    deeds: &[Deed],
    outcomes: &[Outcome],
) -> Result<(), AllocError>
    ensures { OnOk result (out.new.items ≡ out.old.items ++ deed_lines deeds.now outcomes.now) }
{
    let mut left = outcomes;
    for deed in deeds {
        left = put_line(out, deed, left)?;
    }
    Ok(())
}
