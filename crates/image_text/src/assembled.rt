//! A table's text assembled, and its image told in hexadecimal.
ghost use Rattle.std.specs.Prelude.{◌≡◌, ◌≢◌, ◌<◌, ◌≤◌, ◌-◌, ◌^◌, max, IfOk};
ghost use Rattle.base_device.specs.Devices.{HasWriteCause};
ghost use Rattle.image_text.specs.Assembled.{IsAssembledOn, IsTold, image_text};

use base_device::{ByteSink, MAX_IDLE_WRITES, Status, Told, tell};
use base_text::put_hex;
use fault_text::{known_fault, unbound_place, unbound_text};
use std::alloc::{AllocError, Global};
use tab_asm::assemble;
use tab_law::LawBook;
use tab_step::{Bound, Unbound, bind};
use tab_text::{ParseError, parse};

/// The image of a bound table, in digits.
fn image_text(alloc: Global, bound: &Bound) -> Result<Vec<u8>, AllocError>
    ensures { IfOk result (λ text. text.items ≡ image_text bound.now.table) }
{
    let octets = assemble(alloc, bound)?;
    let mut text = Vec::new(alloc);
    put_hex(&mut text, &octets)?;
    text.push(b'\n')?;
    Ok(text)
}

/// The image of a table's text, or its first refusal.
fn text_of(alloc: Global, text: &[u8], book: &LawBook) -> Result<Told, AllocError>
    ensures { IfOk result (λ told. IsTold book.now text.now told.text.items told.refused) }
{
    let table = match parse(alloc, text) {
        Ok(table) => table,
        Err(ParseError::NoMemory) => return Err(AllocError),
        Err(ParseError::Fault(fault)) => {
            return Ok(Told {
                text: known_fault(alloc, book, text, &fault)?,
                refused: true,
            });
        }
    };
    let place = unbound_place(book, &table);
    match bind(alloc, table, book) {
        Ok(bound) => Ok(Told {
            text: image_text(alloc, &bound)?,
            refused: false,
        }),
        Err(Unbound::NoMemory) => Err(AllocError),
        Err(Unbound::Missing(name)) => Ok(Told {
            text: unbound_text(alloc, book, place, name.as_slice())?,
            refused: true,
        }),
    }
}

/// Assembles a table's text with the names of a book, and prints its image (format 2) in hexadecimal digits and a
/// newline.
///
/// Refused, with status `Refused`, are a table with a fault (`line N fault C`) and one that names what the book lacks
/// (`unbound NAME`), each with what was wanted.
pub fn assemble_on<O: ByteSink>(alloc: Global, table: &[u8], book: &LawBook, sink: &mut O) -> Status
    requires idle { O.idle sink.old ≡ 0 }
    requires failures { O.failures sink.old < 2 ^ 64 - 1 }

    // What is printed is the image, or the first refusal; want of memory aside, it is done exactly where nothing is
    // refused.
    ensures assembled { IsAssembledOn O.contents O.failures O.idle book.now table.now sink.old sink.new result }
    ensures words { result ≢ Status.Usage }

    // A fault of the run comes only where the sink failed, or took nothing in as many writes in a row as the bound
    // says.
    ensures cause { result ≡ Status.Fault → HasWriteCause O.failures O.idle sink.old sink.new }
    ensures row { O.most_idle sink.new ≤ max (O.most_idle sink.old) MAX_IDLE_WRITES }
{
    match text_of(alloc, table, book) {
        Ok(told) => tell(sink, &told.text, told.status()),
        Err(AllocError) => tell(sink, b"no memory\n", Status::NoMemory),
    }
}
