//! An image's text listed, or its first refusal told.
ghost use Rattle.std.specs.Prelude.{◌≡◌, ◌≢◌, ◌<◌, ◌≤◌, ◌-◌, ◌^◌, max, IfOk};
ghost use Rattle.base_device.specs.Devices.{HasWriteCause};
ghost use Rattle.image_text.specs.Listed.{IsListedOn, IsTold};

use crate::listing::listing;
use crate::reading::{ImageError, read_image, refusal_text};
use base_device::{ByteSink, MAX_IDLE_WRITES, Status, Told, tell};
use std::alloc::{AllocError, Global};
use tab_law::LawBook;

/// The listing of an image's text, or its refusal.
fn text_of(alloc: Global, text: &[u8], book: &LawBook) -> Result<Told, AllocError>
    ensures { IfOk result (λ told. IsTold book.now text.now told.text.items told.refused) }
{
    match read_image(alloc, text, book) {
        Ok(program) => Ok(Told {
            text: listing(alloc, &program, book)?,
            refused: false,
        }),
        Err(error) => Ok(Told {
            text: refusal_text(alloc, error)?,
            refused: true,
        }),
    }
}

/// Lists an image, which is read from hexadecimal digits and loaded with a book: a line `STATE KIND OFFSET` for each
/// entry that has an offset, in their order, then a line `OFFSET OPERATION` for each instruction of the code.
///
/// Refused, with status `Refused`, are a text that isn't digits, two for each octet (`bad hex`), and an image with a
/// fault (`at N fault C`).
pub fn list_on<O: ByteSink>(alloc: Global, text: &[u8], book: &LawBook, sink: &mut O) -> Status
    requires idle { O.idle sink.old ≡ 0 }
    requires failures { O.failures sink.old < 2 ^ 64 - 1 }

    // What is printed is the listing of the image, or its first refusal; want of memory aside, it is done exactly where
    // nothing is refused.
    ensures listed { IsListedOn O.contents O.failures O.idle book.now text.now sink.old sink.new result }
    ensures words { result ≢ Status.Usage }

    // A fault of the run comes only where the sink failed, or took nothing in as many writes in a row as the bound
    // says.
    ensures cause { result ≡ Status.Fault → HasWriteCause O.failures O.idle sink.old sink.new }
    ensures row { O.most_idle sink.new ≤ max (O.most_idle sink.old) MAX_IDLE_WRITES }
{
    match text_of(alloc, text, book) {
        Ok(told) => tell(sink, &told.text, told.status()),
        Err(AllocError) => tell(sink, b"no memory\n", Status::NoMemory),
    }
}
