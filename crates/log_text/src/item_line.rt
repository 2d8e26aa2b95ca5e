//! The line of an item, read.
ghost use Rattle.std.specs.Prelude.{◌≡◌, Some, IfNone, IfSome, OnSome, option_map};
ghost use Rattle.std.specs.List.{position};
ghost use Rattle.std.specs.Str.{bytes_eq};
ghost use Rattle.text_parts.specs.Pieces.{pieces_left};
ghost use Rattle.step_text.specs.Guess.{rest_of};
ghost use Rattle.log_text.specs.Books.{named};
ghost use Rattle.log_text.specs.ItemLines.{AreWords, IsItemLine, IsItemOf, below, ending_of, guess_item};
ghost use Rattle.log_text.specs.ItemLines.{items_in, row_of, state_called, state_of, who_of};
ghost use Rattle.log_text.specs.Shown.{item_shown, who_shown};

use crate::book::NameBook;
use crate::compare::has_item_line;
use crate::item::{ShownItem, ShownWho};
use base_list::Octets;
use base_text::number_of;
use bench_item::Role;
use step_text::{next_key, next_kind};
use text_parts::Pieces;

/// The place of a name.
fn place_of(names: &[Octets], word: &[u8]) -> Option<usize>
    ensures { result ≡ position (λ name. bytes_eq name word.now) names.now }
{
    names.iter().position(|name| name.as_slice() == word)
}

/// A number that fits a state.
fn octet_of(number: u64) -> Option<u8>
    ensures { result ≡ below 256 (Some number) }
{
    if number < 256 {
        Some(number as u8)
    } else {
        None
    }
}

/// The state of that name, or else of that number.
fn state_called(names: &NameBook<'_>, role: Role, word: &[u8]) -> Option<u8>
    ensures { result ≡ state_called (named names.now) role word.now }
{
    match place_of(names.states(role), word) {
        Some(place) => octet_of(place as u64),
        None => octet_of(number_of(word)?),
    }
}

/// The state that the next word names, or whose number it is.
fn state_of(names: &NameBook<'_>, role: Role, words: &mut Pieces<'_>) -> Option<u8>
    ensures value { result ≡ state_of (named names.now) role (pieces_left words.old) }
    ensures rest { OnSome result (pieces_left words.new ≡ rest_of (pieces_left words.old)) }
{
    state_called(names, role, words.next()?)
}

/// The row whose number the next word is; none where it is `-`.
fn row_of(words: &mut Pieces<'_>) -> Option<Option<u16>>
    ensures { result ≡ row_of (pieces_left words.old) }
{
    let word = words.next()?;
    if word == b"-".as_slice() {
        return Some(None);
    }
    let number = number_of(word)?;
    if number < 65_536 {
        Some(Some(number as u16))
    } else {
        None
    }
}

/// What the words behind two states tell.
fn ending_of<'a>(
    who: ShownWho<'a>,
    before: u8,
    after: u8,
    words: &mut Pieces<'a>,
) -> Option<ShownItem<'a>>
    ensures { option_map item_shown result ≡ ending_of (who_shown who.entry) before after (pieces_left words.old) }
{
    if words.next()? == b"stale".as_slice() {
        return Some(ShownItem::Stale { who, state: before });
    }
    let row = row_of(words)?;
    Some(ShownItem::Moved {
        who,
        before,
        after,
        row,
    })
}

/// The machine and the kind that the next two words name.
fn who_of<'a>(names: &NameBook<'_>, words: &mut Pieces<'a>) -> Option<ShownWho<'a>>
    ensures value { option_map who_shown result ≡ who_of (named names.now) (pieces_left words.old) }
    ensures rest { OnSome result (pieces_left words.new ≡ rest_of (rest_of (pieces_left words.old))) }
{
    let key = next_key(words)?;
    let kind = next_kind(names.laws, words)?;
    Some(ShownWho { key, kind })
}

/// What the words behind two blanks tell.
fn items_in<'a>(names: &NameBook<'_>, words: &mut Pieces<'a>) -> Option<ShownItem<'a>>
    ensures { option_map item_shown result ≡ items_in (named names.now) (pieces_left words.old) }
{
    let who = who_of(names, words)?;
    let role = who.key.role;
    let before = state_of(names, role, words)?;
    let after = state_of(names, role, words)?;
    ending_of(who, before, after, words)
}

/// What a line of an item can tell.
fn guess_item<'a>(names: &NameBook<'_>, line: &'a [u8]) -> Option<ShownItem<'a>>
    ensures { option_map item_shown result ≡ guess_item (named names.now) line.now }
{
    if line == b"  busy".as_slice() {
        return Some(ShownItem::TooBusy);
    }
    let mut words = Pieces::new(line, b' ');
    // Before each of the two blanks stands nothing.
    let _first = words.next()?;
    let _second = words.next()?;
    items_in(names, &mut words)
}

/// The item that a line without its newline tells, as it is printed. Takes no memory.
pub(crate) fn find_item<'a>(names: &NameBook<'_>, line: &'a [u8]) -> Option<ShownItem<'a>>
    ensures item { IfSome result (λ item. IsItemOf (named names.now) line.now (item_shown item)) }
    ensures none { IfNone result (AreWords (named names.now) → IsItemLine (named names.now) line.now → ⊥) }
{
    let item = guess_item(names, line)?;
    if has_item_line(names, &item, line) {
        Some(item)
    } else {
        None
    }
}
