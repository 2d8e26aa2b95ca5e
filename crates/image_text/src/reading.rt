//! An image read from its text, or why it isn't.
ghost use Rattle.std.specs.Prelude.{◌≡◌, Some, IfOk, IfErr, codes};
ghost use Rattle.image_text.specs.Images.{IsImageOf, IsNoImage, IsNoText, Spells, fault_text, is_whole, refusal_text};
ghost use Rattle.image_text.specs.Images.{wrong_of};
ghost use Rattle.image_text.specs.declared.reading.ImageError.TheVariants.{NoMemory};

use base_text::{Decoded, Stop, decode, one_meaning, put_number};
use std::alloc::{AllocError, Global};
use tab_law::LawBook;
use tab_load::{ImageFault, LoadError, LoadFault, Program, load};
use thiserror::Error;

/// Why a text gives no program.
#[derive(Clone, Copy, Debug, PartialEq, Eq, Error)]
pub enum ImageError {
    #[error("no memory")]
    NoMemory,
    /// It isn't hexadecimal digits, two for each octet, and blanks between them.
    #[error("bad hex")]
    BadHex,
    /// Its image has a fault.
    #[error("the image is faulty")]
    Refused(LoadFault),
}

impl From<AllocError> for ImageError {
    ghost from_gives = { λ _ e. e ≡ NoMemory };

    fn from(_e: AllocError) -> ImageError {
        ImageError::NoMemory
    }
}

/// Whether the digits went to the text's end, and none is left over.
fn is_whole(decoded: Decoded) -> bool
    ensures { result ≡ is_whole decoded.stop decoded.half }
{
    match decoded.stop {
        Stop::TextEnds => decoded.half.is_none(),
        Stop::PieceFull | Stop::BadCharacter => false,
    }
}

/// The octets that the digits of a text spell.
fn octets_of(alloc: Global, text: &[u8]) -> Result<Vec<u8>, ImageError>
    ensures ok { IfOk result (λ octets. Spells text.now octets.items) }
    ensures err { IfErr result (IsNoText text.now) }
{
    let mut octets = vec![in alloc; 0u8; text.len()]?;
    one_meaning();
    let decoded = decode(None, text, octets.as_mut_slice());
    if !is_whole(decoded) {
        return Err(ImageError::BadHex);
    }
    octets.truncate(decoded.made);
    Ok(octets)
}

/// The program of an image in hexadecimal digits of either case, two for each octet. Blanks and newlines don't count.
///
/// An image is loaded with the book that it is to run with; a faulty one is refused for its first fault, as
/// `tab_load::load` has it.
pub fn read_image(alloc: Global, text: &[u8], book: &LawBook) -> Result<Program, ImageError>
    ensures ok { IfOk result (IsImageOf book.now text.now) }
    ensures err { IfErr result (IsNoImage book.now text.now) }
{
    let octets = octets_of(alloc, text)?;
    match load(alloc, &octets, book) {
        Ok(program) => Ok(program),
        Err(LoadError::NoMemory) => Err(ImageError::NoMemory),
        Err(LoadError::Refused(fault)) => Err(ImageError::Refused(fault)),
    }
}

/// What is wrong with an image, in words.
#[tactic(auto, unfolding(crate::specs::Images::wrong_of))]
fn wrong_of(fault: ImageFault) -> &'static [u8]
    ensures { result.now ≡ wrong_of fault }
{
    match fault {
        ImageFault::Magic => b"it doesn't begin as an image of a format that is known",
        ImageFault::Cut => b"the image is cut off; it has that many octets",
        ImageFault::Count => b"a number is out of range",
        ImageFault::Name => b"a name is misspelled, or stands in its list twice",
        ImageFault::Unbound => b"a name isn't registered",
        ImageFault::Offset => b"no row begins at that offset, and no code ends there",
        ImageFault::BackJump => b"a guard leads back",
        ImageFault::OpCode => b"no instruction begins with that octet",
        ImageFault::NoEnd => b"the code doesn't end",
        ImageFault::Trailing => b"octets stand behind the code",
    }
}

/// `at N fault C`: the first fault of an image, and what it says.
fn fault_text(alloc: Global, fault: LoadFault) -> Result<Vec<u8>, AllocError>
    ensures { IfOk result (λ text. text.items ≡ fault_text fault) }
{
    let mut text = Vec::new(alloc);
    put_number(&mut text, b"at ", fault.at as u64)?;
    put_number(&mut text, b" fault ", u64::from(fault.code.number()))?;
    text.extend_from_slice(b"\n  wrong: ")?;
    text.extend_from_slice(wrong_of(fault.code))?;
    text.extend_from_slice(b"\n")?;
    Ok(text)
}

/// `bad hex`: the text isn't digits.
fn bad_hex_text(alloc: Global) -> Result<Vec<u8>, AllocError>
    ensures { IfOk result (λ text. text.items
        ≡ codes "bad hex\n  wanted: hexadecimal digits, two for each octet; blanks between them don't count\n") }
{
    let mut text = Vec::new(alloc);
    text.extend_from_slice(
        b"bad hex\n  wanted: hexadecimal digits, two for each octet; blanks between them don't count\n",
    )?;
    Ok(text)
}

/// What is told of a text that gives no program, but where memory was wanting: `bad hex`, or `at N fault C`.
pub fn refusal_text(alloc: Global, error: ImageError) -> Result<Vec<u8>, AllocError>
    ensures { IfOk result (λ text. Some text.items ≡ refusal_text error) }
{
    match error {
        ImageError::NoMemory => Err(AllocError),
        ImageError::BadHex => bad_hex_text(alloc),
        ImageError::Refused(fault) => fault_text(alloc, fault),
    }
}
