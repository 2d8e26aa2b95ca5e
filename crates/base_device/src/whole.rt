//! Inputs that are read whole.
ghost use Rattle.std.specs.Prelude.{◌≡◌, ◌<◌, ◌≤◌, ◌+◌, ◌-◌, ◌^◌, max, length, List, [], ℕ, Some, option_copied};
ghost use Rattle.std.specs.Prelude.{IfOk, IfErr, OnOk};
ghost use Rattle.base_device.specs.Devices.{failures_after, Tells};
ghost use Rattle.base_device.specs.Inputs.{
  IsRead,
  IsInput,
  IsUnread,
  IsToldUnread,
  IsSaid,
  not_opened,
  not_read,
  unread_status,
};

use crate::device::{ByteSink, ByteSource};
use crate::inputs::{FileSource, OpenError};
use crate::output::{MAX_IDLE_WRITES, tell};
use crate::status::Status;
use std::alloc::{AllocError, AllocFailed, Global};
use thiserror::Error;

/// How many reads an input may take to its end.
pub const MAX_READS: u64 = 1_048_576;

/// How many octets are read at once.
const PIECE: usize = 65_536;

/// Why an input was not read whole.
#[derive(Clone, Copy, Debug, PartialEq, Eq, Error)]
pub enum InputError {
    #[error("{0}")]
    NotOpened(OpenError),
    #[error("a read failed")]
    Failed,
    /// `MAX_READS` reads were made, and the input didn't end.
    #[error("no end of input")]
    NoEnd,
    #[error("out of memory")]
    NoMemory,
}

impl From<AllocError> for InputError {
    ghost use Rattle.base_device.specs.declared.whole.InputError.TheVariants.{NoMemory};

    ghost from_gives = { λ _ e. e ≡ NoMemory };

    fn from(_e: AllocError) -> InputError {
        InputError::NoMemory
    }
}

impl<T: Drop> From<AllocFailed<T>> for InputError {
    ghost use Rattle.base_device.specs.declared.whole.InputError.TheVariants.{NoMemory};

    ghost from_gives = { λ _ e. e ≡ NoMemory };

    fn from(_e: AllocFailed<T>) -> InputError {
        InputError::NoMemory
    }
}

/// Reads to the end of what a source gives, a piece at once.
fn read_pieces<I: ByteSource>(
    piece: &mut [u8],
    text: &mut Vec<u8>,
    source: &mut I,
) -> Result<(), InputError>
    requires room { 0 < length piece.old }
    requires empty { text.old.items ≡ [] }
    requires reads { I.reads source.old + MAX_READS < 2 ^ 64 }
    requires failures { I.failures source.old < 2 ^ 64 - 1 }
    ensures reads { I.reads source.new ≤ I.reads source.old + MAX_READS }
    ensures made { I.reads source.old ≤ I.reads source.new }
    ensures read { OnOk result (IsRead I.remaining I.failures source.old source.new text.new.items) }
    ensures unread { IfErr result (IsUnread I.reads I.failures source.old source.new) }
{
    'reads: for _ in 0..MAX_READS {
        let count = match source.read(piece) {
            Err(_) => return Err(InputError::Failed),
            Ok(None) => continue,
            Ok(Some(0)) => return Ok(()),
            Ok(Some(count)) => count,
        };
        text.extend_from_slice(&piece[..count])?;
    }
    Err(InputError::NoEnd)
}

/// Reads to the end of what a source gives.
fn read_whole<I: ByteSource>(alloc: Global, source: &mut I) -> Result<Vec<u8>, InputError>
    requires reads { I.reads source.old + MAX_READS < 2 ^ 64 }
    requires failures { I.failures source.old < 2 ^ 64 - 1 }
    ensures reads { I.reads source.new ≤ I.reads source.old + MAX_READS }
    ensures made { I.reads source.old ≤ I.reads source.new }
    ensures read { IfOk result (λ text. IsRead I.remaining I.failures source.old source.new text.items) }
    ensures unread { IfErr result (IsUnread I.reads I.failures source.old source.new) }
{
    let mut piece = vec![in alloc; 0u8; PIECE]?;
    let mut text = Vec::new(alloc);
    read_pieces(&mut piece, &mut text, source)?;
    Ok(text)
}

/// Turns a source to a file, or to standard input.
fn turn_to<I: FileSource>(source: &mut I, name: Option<&str>) -> Result<(), OpenError>
    requires { I.failures source.old < 2 ^ 64 - 1 }
    ensures reads { I.reads source.new ≡ I.reads source.old }
    ensures failures { I.failures source.new ≡ failures_after result (I.failures source.old) }
{
    match name {
        Some(name) => source.open(name),
        None => {
            source.standard();
            Ok(())
        }
    }
}

/// Reads all of the file of that name, or of standard input, in at most [`MAX_READS`] reads.
pub fn read_input<I: FileSource>(
    alloc: Global,
    name: Option<&str>,
    source: &mut I,
) -> Result<Vec<u8>, InputError>
    requires reads { I.reads source.old + MAX_READS < 2 ^ 64 }
    requires failures { I.failures source.old < 2 ^ 64 - 1 }
    ensures reads { I.reads source.new ≤ I.reads source.old + MAX_READS }
    ensures made { I.reads source.old ≤ I.reads source.new }
    ensures read { IfOk result (λ text. IsInput I.remaining I.reads I.failures source.old source.new text.items) }
    ensures unread { IfErr result (IsUnread I.reads I.failures source.old source.new) }
{
    if let Err(why) = turn_to(source, name) {
        return Err(InputError::NotOpened(why));
    }
    read_whole(alloc, source)
}

fn not_opened_text(alloc: Global, name: &str, why: OpenError) -> Result<String, AllocError>
    ensures { IfOk result (λ text. text.bytes.items ≡ not_opened name.now why) }
{
    match why {
        OpenError::Directory => format!(in alloc; "read fault: {name} is a directory\n"),
        OpenError::Failed => format!(in alloc; "read fault: {name} can't be opened\n"),
    }
}

/// Tells that a file can't be opened, or that its name is a directory's.
pub fn tell_not_opened<O: ByteSink>(
    alloc: Global,
    name: &str,
    why: OpenError,
    sink: &mut O,
) -> Status
    requires idle { O.idle sink.old ≡ 0 }
    requires failures { O.failures sink.old < 2 ^ 64 - 1 }
    ensures told { (text : List ℕ) × Tells O.contents O.failures O.idle sink.old sink.new text Status.Fault result }
    ensures said { IsSaid O.contents O.failures O.idle sink.old sink.new (not_opened name.now why) Status.Fault result }
    ensures row { O.most_idle sink.new ≤ max (O.most_idle sink.old) MAX_IDLE_WRITES }
{
    match not_opened_text(alloc, name, why) {
        Ok(text) => tell(sink, text.as_bytes(), Status::Fault),
        Err(AllocError) => tell(sink, b"read fault\n", Status::Fault),
    }
}

fn not_read_text(alloc: Global, name: &str) -> Result<String, AllocError>
    ensures { IfOk result (λ text. text.bytes.items ≡ not_read (Some name.now) InputError.Failed) }
{
    format!(in alloc; "read fault: {name} can't be read\n")
}

// Tells that a file was opened and can't be read.
fn tell_not_read<O: ByteSink>(alloc: Global, name: &str, sink: &mut O) -> Status
    requires idle { O.idle sink.old ≡ 0 }
    requires failures { O.failures sink.old < 2 ^ 64 - 1 }
    ensures told { (text : List ℕ) × Tells O.contents O.failures O.idle sink.old sink.new text Status.Fault result }
    ensures said { IsSaid O.contents O.failures O.idle sink.old sink.new (not_read (Some name.now) InputError.Failed)
        Status.Fault result }
    ensures row { O.most_idle sink.new ≤ max (O.most_idle sink.old) MAX_IDLE_WRITES }
{
    match not_read_text(alloc, name) {
        Ok(text) => tell(sink, text.as_bytes(), Status::Fault),
        Err(AllocError) => tell(sink, b"read fault\n", Status::Fault),
    }
}

/// Tells why an input was not read whole: `no memory`, or `read fault` with what is known of it, and the file's name.
pub fn tell_unread<O: ByteSink>(
    alloc: Global,
    name: Option<&str>,
    why: InputError,
    sink: &mut O,
) -> Status
    requires idle { O.idle sink.old ≡ 0 }
    requires failures { O.failures sink.old < 2 ^ 64 - 1 }
    ensures told { IsToldUnread O.contents O.failures O.idle sink.old sink.new why result }
    ensures said { IsSaid O.contents O.failures O.idle sink.old sink.new (not_read (option_copied name.entry) why)
        (unread_status why) result }
    ensures row { O.most_idle sink.new ≤ max (O.most_idle sink.old) MAX_IDLE_WRITES }
{
    match (why, name) {
        (InputError::NoMemory, _) => tell(sink, b"no memory\n", Status::NoMemory),
        (InputError::NotOpened(why), Some(name)) => tell_not_opened(alloc, name, why, sink),
        (InputError::Failed, Some(name)) => tell_not_read(alloc, name, sink),
        (InputError::NoEnd, _) => tell(
            sink,
            b"read fault: no end of input after 1048576 reads\n",
            Status::Fault,
        ),
        (InputError::Failed, None) | (InputError::NotOpened(_), None) => {
            tell(sink, b"read fault\n", Status::Fault)
        }
    }
}
