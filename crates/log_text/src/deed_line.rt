//! The line of a deed, read.
ghost use Rattle.std.specs.Prelude.{◌≡◌, IfNone, IfSome, OnSome, option_map};
ghost use Rattle.std.specs.List.{find};
ghost use Rattle.std.specs.Str.{bytes_eq};
ghost use Rattle.base_codes.specs.DeedCodes.{name_of};
ghost use Rattle.text_parts.specs.Pieces.{pieces_left};
ghost use Rattle.log_text.specs.DeedLines.{IsDeedLine, IsDeedOf, args_of, behind_stop, code_of, deed_in, guess_deed};
ghost use Rattle.log_text.specs.DeedLines.{named_code, outcome_behind, stop_of};

use crate::compare::has_deed_line;
use acct_totals::Outcome;
use base_codes::DeedCode;
use base_text::number_of;
use step_text::next_number;
use tab_law::{Deed, PLACES};
use text_parts::Pieces;

/// A deed as its line tells it; what the account book made of it counts where it is one of the account book.
#[derive(Clone, Copy)]
pub(crate) struct DeedLine {
    pub(crate) deed: Deed,
    pub(crate) outcome: Outcome,
}

/// All codes of deeds.
const CODES: [DeedCode; 21] = [
    DeedCode::Unlisted,
    DeedCode::ToPeer,
    DeedCode::ToSession,
    DeedCode::Close,
    DeedCode::Dial,
    DeedCode::Undial,
    DeedCode::Arm,
    DeedCode::Disarm,
    DeedCode::SndCer,
    DeedCode::SndCea,
    DeedCode::SndDwa,
    DeedCode::SndDpr,
    DeedCode::SndDpa,
    DeedCode::SndMsg,
    DeedCode::Elect,
    DeedCode::Reserve,
    DeedCode::Debit,
    DeedCode::Release,
    DeedCode::Charge,
    DeedCode::Refund,
    DeedCode::Service,
];

/// The first of these codes with that name.
fn named_in(codes: &[DeedCode], word: &[u8]) -> Option<DeedCode>
    ensures { result ≡ find (λ code. bytes_eq word.now (name_of code)) codes.now }
{
    for code in codes {
        if word == code.name().as_bytes() {
            return Some(*code);
        }
    }
    None
}

/// The deed of that name.
fn named_code(word: &[u8]) -> Option<DeedCode>
    ensures { result ≡ named_code word.now }
{
    named_in(&CODES, word)
}

/// The code of a deed by its number or its name.
fn code_of(word: &[u8]) -> Option<u16>
    ensures { result ≡ code_of word.now }
{
    match number_of(word) {
        Some(number) => {
            if number < 65_536 {
                Some(number as u16)
            } else {
                None
            }
        }
        None => Some(named_code(word)?.number()),
    }
}

/// The numbers of the words up to the first that is none, and that word.
/// What isn't there is 0, and what has no place is left out.
fn args_of<'a>(words: &mut Pieces<'a>) -> ([u64; PLACES], Option<&'a [u8]>)
    ensures args { result.0 ≡ args_of (pieces_left words.old) }
    ensures stop { option_map (λ word. word.now) result.1 ≡ stop_of (pieces_left words.old) }
    ensures rest { OnSome result.1 (pieces_left words.new ≡ behind_stop (pieces_left words.old)) }
{
    let mut a = [0; PLACES];
    let mut n = 0;
    while let Some(word) = words.next() {
        let Some(value) = number_of(word) else {
            return (a, Some(word));
        };
        if n < PLACES {
            a[n] = value;
            n += 1;
        }
    }
    (a, None)
}

/// What the account book made of a deed, by the word behind its arguments and those behind that.
fn outcome_behind(stop: &[u8], words: &mut Pieces<'_>) -> Option<Outcome>
    ensures { result ≡ outcome_behind stop.now (pieces_left words.old) }
{
    if stop != b"=".as_slice() {
        return Some(Outcome::Refused);
    }
    let amount = next_number(words)?;
    let unpaid = next_number(words)?;
    Some(Outcome::Done { amount, unpaid })
}

/// The deed that the words behind four blanks tell.
fn deed_in(words: &mut Pieces<'_>) -> Option<DeedLine>
    ensures { result ≡ deed_in (pieces_left words.old) }
{
    let code = code_of(words.next()?)?;
    let (a, stop) = args_of(words);
    let deed = Deed { code, a };
    let outcome = match stop {
        Some(word) => outcome_behind(word, words)?,
        None => Outcome::Refused,
    };
    Some(DeedLine { deed, outcome })
}

/// The deed that a line can tell.
fn guess_deed(line: &[u8]) -> Option<DeedLine>
    ensures { result ≡ guess_deed line.now }
{
    let mut words = Pieces::new(line, b' ');
    // Before each of the four blanks stands nothing.
    let _first = words.next()?;
    let _second = words.next()?;
    let _third = words.next()?;
    let _fourth = words.next()?;
    deed_in(&mut words)
}

/// The deed of a line without its newline, as it is printed. Takes no memory.
pub(crate) fn find_deed(line: &[u8]) -> Option<DeedLine>
    ensures deed { IfSome result (λ deed. IsDeedOf line.now deed) }
    ensures none { IfNone result (IsDeedLine line.now → ⊥) }
{
    let deed = guess_deed(line)?;
    if has_deed_line(&deed, line) {
        Some(deed)
    } else {
        None
    }
}
