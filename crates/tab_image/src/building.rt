//! The program of a bound table.

ghost use Rattle.std.specs.Prelude.{◌≡◌, IfOk};
ghost use Rattle.tab_step.specs.Bind.{IsBoundTo};
ghost use Rattle.tab_asm.specs.Assembled.{image_of, Means};
ghost use Rattle.tab_load.specs.Loading.{IsLoaded};
ghost use Rattle.tab_load.specs.Promise.{EachEnds};
ghost use Rattle.tab_load.specs.declared.counts.Format.TheVariants.{Two};

use std::alloc::{AllocError, Global};
use tab_asm::assemble;
use tab_law::LawBook;
use tab_load::{LoadError, Program, load};
use tab_step::Bound;

/// The program of a bound table: assembled, and loaded with the book that the table is bound to. It fails for memory
/// alone.
///
/// It has the names, the entries and the code of the table's image in format 2, each kind, guard and action with its
/// place in the book. Each event ends, and in each state, at each kind of events and whatever the guards answer, the
/// image leads to the first row of the table that matches, with that row's actions.
pub fn build(alloc: Global, bound: &Bound, book: &LawBook) -> Result<Program, AllocError>
    requires { IsBoundTo bound.now book.now }
    ensures image { IfOk result (λ program. (program.format ≡ Two) × (program.image ≡ image_of bound.now.table)) }
    ensures loaded { IfOk result (IsLoaded book.now) }
    ensures ends { IfOk result EachEnds }
    ensures means { Means (image_of bound.now.table) bound.now.table }
{
    let _rows = bound.table().rows();
    let octets = assemble(alloc, bound)?;
    match load(alloc, octets.as_slice(), book) {
        Ok(program) => Ok(program),
        Err(LoadError::NoMemory) => Err(AllocError),
        Err(LoadError::Refused(_)) => unreachable!(),
    }
}
