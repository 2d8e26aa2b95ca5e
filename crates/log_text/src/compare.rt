//! A line that is compared with that of an item or a deed, in place of printing that: it takes no memory.
#![tactic(auto, using(step_text::proofs::MatchingLemmas::comparing))]

ghost use Rattle.std.specs.Prelude.{◌≡◌, ◌++◌, codes, decimal};
ghost use Rattle.std.specs.List.{flat_map};
ghost use Rattle.std.specs.Option.{option_map};
ghost use Rattle.std.specs.Str.{bytes_eq};
ghost use Rattle.event_text.specs.Deeds.{deed_name, deed_words, name_or, without_last_zeros};
ghost use Rattle.step_text.specs.Matching.{left_of, without};
ghost use Rattle.log_text.specs.Books.{named};
ghost use Rattle.log_text.specs.DeedLines.{deed_line};
ghost use Rattle.log_text.specs.EntryLines.{item_text, outcome_text, row_text, state_text};
ghost use Rattle.log_text.specs.ItemLines.{item_line};
ghost use Rattle.log_text.specs.Shown.{item_shown, who_shown};

use crate::book::NameBook;
use crate::deed_line::DeedLine;
use crate::deeds::is_booking;
use crate::entries::state_name;
use crate::item::{ShownItem, ShownWho};
use acct_totals::Outcome;
use base_codes::DeedCode;
use bench_item::Role;
use step_text::{Matcher, compare_key, compare_kind};
use tab_law::Deed;

/// A name, or the number where there is none.
fn compare_name(matcher: &mut Matcher<'_>, name: Option<&[u8]>, number: u64)
    ensures { left_of matcher.new
        ≡ without (name_or (option_map (λ name. name.now) name.entry) number) (left_of matcher.old) }
{
    match name {
        Some(name) => matcher.put(name),
        None => matcher.put_number(b"", number),
    }
}

/// A state behind a blank, by its number where it has no name.
fn compare_state(matcher: &mut Matcher<'_>, names: &NameBook<'_>, role: Role, state: u8)
    ensures { left_of matcher.new ≡ without (state_text (named names.now) role state) (left_of matcher.old) }
{
    matcher.put(b" ");
    compare_name(matcher, state_name(names, role, state), u64::from(state));
}

/// The row that took an event.
fn compare_row(matcher: &mut Matcher<'_>, row: Option<u16>)
    ensures { left_of matcher.new ≡ without (row_text row) (left_of matcher.old) }
{
    match row {
        Some(row) => matcher.put_number(b" row ", u64::from(row)),
        None => matcher.put(b" row -"),
    }
}

/// Which machine, and of its event the kind.
fn compare_who(matcher: &mut Matcher<'_>, names: &NameBook<'_>, who: &ShownWho<'_>)
    ensures { left_of matcher.new
        ≡ without (item_text (named names.now) (who_shown who.now).key (who_shown who.now).kind) (left_of matcher.old) }
{
    matcher.put(b" ");
    compare_key(matcher, &who.key);
    compare_kind(matcher, names.laws, names.machines, who.kind);
}

/// The line of an item, without its newline.
fn compare_item(matcher: &mut Matcher<'_>, names: &NameBook<'_>, item: &ShownItem<'_>)
    ensures { left_of matcher.new ≡ without (item_line (named names.now) (item_shown item.now)) (left_of matcher.old) }
{
    match item {
        ShownItem::TooBusy => matcher.put(b"  busy"),
        ShownItem::Stale { who, state } => {
            compare_who(matcher, names, who);
            compare_state(matcher, names, who.key.role, *state);
            compare_state(matcher, names, who.key.role, *state);
            matcher.put(b" stale");
        }
        ShownItem::Moved {
            who,
            before,
            after,
            row,
        } => {
            compare_who(matcher, names, who);
            compare_state(matcher, names, who.key.role, *before);
            compare_state(matcher, names, who.key.role, *after);
            compare_row(matcher, *row);
        }
    }
}

/// Whether an item has that line.
pub(crate) fn has_item_line(names: &NameBook<'_>, item: &ShownItem<'_>, line: &[u8]) -> bool
    ensures { result ≡ bytes_eq (item_line (named names.now) (item_shown item.now)) line.now }
{
    let mut matcher = Matcher::new(line);
    compare_item(&mut matcher, names, item);
    matcher.is_done()
}

/// The name of the deed with this code.
fn deed_name(code: u16) -> Option<&'static [u8]>
    ensures { option_map (λ name. name.now) result ≡ deed_name code }
{
    match DeedCode::coded(code) {
        Some(deed) => Some(deed.name().as_bytes()),
        None => None,
    }
}

/// The values up to the last that isn't 0.
fn without_last_zeros(values: &[u64]) -> &[u64]
    ensures { result.now ≡ without_last_zeros values.now }
{
    let mut end = values.len();
    while end > 0 {
        if values[end - 1] != 0 {
            return &values[..end];
        }
        end -= 1;
    }
    &values[..0]
}

/// Each value behind a blank.
fn compare_values(matcher: &mut Matcher<'_>, values: &[u64])
    ensures { left_of matcher.new
        ≡ without (flat_map (λ value. codes " " ++ decimal value) values.now) (left_of matcher.old) }
{
    for value in values {
        matcher.put_number(b" ", *value);
    }
}

/// A deed: its name or else its code, and its arguments up to the last that isn't 0.
fn compare_words(matcher: &mut Matcher<'_>, deed: &Deed)
    ensures { left_of matcher.new ≡ without (deed_words deed.now) (left_of matcher.old) }
{
    compare_name(matcher, deed_name(deed.code), u64::from(deed.code));
    compare_values(matcher, without_last_zeros(&deed.a));
}

/// What the account book made of a deed.
fn compare_outcome(matcher: &mut Matcher<'_>, outcome: Outcome)
    ensures { left_of matcher.new ≡ without (outcome_text outcome) (left_of matcher.old) }
{
    match outcome {
        Outcome::Done { amount, unpaid } => {
            matcher.put_number(b" = ", amount);
            matcher.put_number(b" ", unpaid);
        }
        Outcome::Refused => matcher.put(b" refused"),
    }
}

/// The line of a deed, without its newline.
fn compare_deed(matcher: &mut Matcher<'_>, line: &DeedLine)
    ensures { left_of matcher.new ≡ without (deed_line line.now) (left_of matcher.old) }
{
    matcher.put(b"    ");
    compare_words(matcher, &line.deed);
    if is_booking(line.deed.code) {
        compare_outcome(matcher, line.outcome);
    }
}

/// Whether a deed has that line.
pub(crate) fn has_deed_line(deed: &DeedLine, line: &[u8]) -> bool
    ensures { result ≡ bytes_eq (deed_line deed.now) line.now }
{
    let mut matcher = Matcher::new(line);
    compare_deed(&mut matcher, deed);
    matcher.is_done()
}
