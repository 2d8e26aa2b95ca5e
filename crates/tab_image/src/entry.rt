//! The entry of a state and a kind of events.

ghost use Rattle.std.specs.Prelude.{◌≡◌, ◌==◌, position};
ghost use Rattle.tab_load.specs.Loading.{IsLoaded};
ghost use Rattle.tab_image.specs.RunBy.{entry_of};

use tab_law::LawBook;
use tab_load::Program;

/// The number of the kind that has that place in the book.
fn number_of(kinds: &[u8], kind: u8) -> Option<usize>
    ensures { result ≡ position (λ place. place == kind) kinds.now }
{
    kinds.iter().position(|place| *place == kind)
}

/// The offset at which the code of the rows of a state and a kind begins. The book is the one that the program was
/// loaded with.
pub(crate) fn entry_of(program: &Program, book: &LawBook, state: u8, kind: u8) -> Option<u32>
    requires { IsLoaded book.now program.now }
    ensures { result ≡ entry_of book.now program.now.image state kind }
{
    book.known();
    let names = program.names();
    if names.states.names.len() <= state as usize {
        return None;
    }
    let kinds = names.kinds.places.as_slice();
    let Some(number) = number_of(kinds, kind) else {
        return None;
    };
    program.entries()[state as usize * kinds.len() + number]
}
