//! Which row takes an event. Guards answer by their callbacks, or else by their laws.

ghost use Rattle.std.specs.Prelude.{◌≡◌, ◌<◌, All, length, Some, None, IfSome, IfNone, slice_index_or};
ghost use Rattle.std.specs.List.{list_all};
ghost use Rattle.tab_law.specs.Books.{guard_answer, named_answer};
ghost use Rattle.tab_text.specs.declared.row.Row.{Row};
ghost use Rattle.tab_step.specs.Moves.{matches, pick, is_kind_of};
ghost use Rattle.tab_step.specs.Bind.{IsBoundTo};

use crate::bound::Bound;
use tab_call::Registry;
use tab_law::{LawBook, Scene, holds};

/// What the guard at a place answers: by its callback where there is a registry, or else by its law.
fn answer(book: &LawBook, registry: Option<&Registry>, place: usize, scene: &Scene) -> bool
    requires of_book { IfSome registry (λ registry. registry.now.book ≡ book.now) }
    requires registered { place < length book.now.guards }
    ensures { result ≡ guard_answer book.now scene.now place }
{
    match registry {
        Some(registry) => registry.ask(place, scene),
        None => holds(&book.guards().at(place).value, scene),
    }
}

/// Whether the guards at these places all say yes.
fn all_yes(book: &LawBook, registry: Option<&Registry>, guards: &[u8], scene: &Scene) -> bool
    requires of_book { IfSome registry (λ registry. registry.now.book ≡ book.now) }
    requires registered { All (λ place. place < length book.now.guards) guards.now }
    ensures { result ≡ list_all (guard_answer book.now scene.now) guards.now }
{
    for place in guards {
        if !answer(book, registry, *place as usize, scene) {
            return false;
        }
    }
    true
}

/// Whether the row of that number takes an event of that kind.
fn takes(
    bound: &Bound,
    book: &LawBook,
    registry: Option<&Registry>,
    number: usize,
    state: u8,
    kind: u8,
    scene: &Scene,
) -> bool
    requires of_book { IfSome registry (λ registry. registry.now.book ≡ book.now) }
    requires bound { IsBoundTo bound.now book.now }
    requires in_rows { number < length bound.now.table.rows }
    ensures { (row : Row) → result ≡ matches bound.now.table state (is_kind_of book.now kind)
        (named_answer book.now scene.now) (slice_index_or bound.now.table.rows number row) }
{
    book.known();
    let row = &bound.table().rows()[number];
    let places = &bound.places()[number];
    row.state == state
        && places.kind == kind
        && all_yes(book, registry, places.guards.as_slice(), scene)
}

/// The number of the first row that takes an event of that kind. It stands apart, so that its loop over many rows is
/// kept in the processor's registers.
#[inline(never)]
pub(crate) fn first_row(
    bound: &Bound,
    book: &LawBook,
    registry: Option<&Registry>,
    state: u8,
    kind: u8,
    scene: &Scene,
) -> Option<usize>
    requires of_book { IfSome registry (λ registry. registry.now.book ≡ book.now) }
    requires bound { IsBoundTo bound.now book.now }
    ensures none { IfNone result (pick bound.now.table state (is_kind_of book.now kind)
        (named_answer book.now scene.now) ≡ None) }
    ensures within { IfSome result (λ n. n < length bound.now.table.rows) }
    ensures some { IfSome result (λ n. (row : Row)
        → pick bound.now.table state (is_kind_of book.now kind) (named_answer book.now scene.now)
        ≡ Some (n, slice_index_or bound.now.table.rows n row)) }
{
    for number in 0..bound.table().rows().len() {
        if takes(bound, book, registry, number, state, kind, scene) {
            return Some(number);
        }
    }
    None
}
