//! Sources that turn to files.
ghost use Rattle.std.specs.Prelude.{◌≡◌, ◌<◌, ◌-◌, ◌^◌};
ghost use Rattle.base_device.specs.Devices.{failures_after};

use crate::counting::Counting;
use crate::device::ByteSource;
use std::io::Read;
use std::rt::Files;
use std::{fs, io};
use thiserror::Error;

/// Why a source is not turned to a file.
#[derive(Clone, Copy, Debug, PartialEq, Eq, Error)]
pub enum OpenError {
    #[error("a directory, where a file is wanted")]
    Directory,
    #[error("the file can't be opened")]
    Failed,
}

/// A source that can turn to a file, and back to standard input.
pub trait FileSource: ByteSource {
    /// From here on reads give this file's octets.
    fn open(&mut self, name: &str) -> Result<(), OpenError>
        requires { Self.failures self.old < 2 ^ 64 - 1 }
        ensures reads { Self.reads self.new ≡ Self.reads self.old }
        ensures failures { Self.failures self.new ≡ failures_after result (Self.failures self.old) };

    /// From here on reads give the octets of standard input that were not read yet.
    fn standard(&mut self)
        ensures reads { Self.reads self.new ≡ Self.reads self.old }
        ensures failures { Self.failures self.new ≡ Self.failures self.old };
}

/// Standard input, or the file that was opened last.
#[derive(Drop)]
pub struct Inputs<'r, R: Files, T> {
    files: &'r R,
    standard: T,
    file: Option<R::File>,
}

impl<'r, R: Files, T> Inputs<'r, R, T> {
    /// Reads standard input until a file is opened.
    pub fn new(files: &'r R, standard: T) -> Inputs<'r, R, T> {
        Inputs {
            files,
            standard,
            file: None,
        }
    }
}

impl<'r, R: Files, T: Read> Read for Inputs<'r, R, T> {
    fn read(&mut self, buffer: &mut [u8]) -> io::Result<usize> {
        match &mut self.file {
            Some(file) => file.read(buffer),
            None => self.standard.read(buffer),
        }
    }
}

// Whether a name is that of a directory, as far as the system says.
fn is_directory<R: Files>(files: &R, name: &str) -> bool {
    match fs::metadata(files, name) {
        Ok(metadata) => metadata.is_dir(),
        Err(_) => false,
    }
}

// The file of that name. A directory would be opened too, and its first read would fail.
fn opened<R: Files>(files: &R, name: &str) -> Result<R::File, OpenError> {
    if is_directory(files, name) {
        return Err(OpenError::Directory);
    }
    match fs::open(files, name) {
        Ok(file) => Ok(file),
        Err(_) => Err(OpenError::Failed),
    }
}

impl<'r, R: Files, T: Read> FileSource for Counting<Inputs<'r, R, T>> {
    fn open(&mut self, name: &str) -> Result<(), OpenError> {
        match opened(self.device.files, name) {
            Ok(file) => {
                self.device.file = Some(file);
                Ok(())
            }
            Err(why) => {
                self.failures += 1;
                Err(why)
            }
        }
    }

    fn standard(&mut self) {
        self.device.file = None;
    }
}
