//! Files of the system, in a folder.
ghost use Rattle.std.specs.Prelude.{◌≡◌, None, option_map};

use crate::files::{FileError, FileSink};
use std::alloc::{AllocError, Global};
use std::fs::create_dir_all;
use std::rt::Files;
use std::{fs, str};

/// A folder of the system, which is made where it isn't there.
#[derive(Drop)]
pub struct Folder<'r, R: Files> {
    files: &'r R,
    name: &'r str,
    failed: Option<Vec<u8>>,
}

/// A folder's name, a slash and a file's.
fn path_of(alloc: Global, folder: &str, name: &[u8]) -> Result<Vec<u8>, AllocError> {
    let mut path = Vec::from_slice(alloc, folder.as_bytes())?;
    path.extend_from_slice(b"/")?;
    path.extend_from_slice(name)?;
    Ok(path)
}

impl<'r, R: Files> Folder<'r, R> {
    /// The folder of this name.
    pub fn new(files: &'r R, name: &'r str) -> Folder<'r, R>
        ensures { result.failed ≡ None }
    {
        Folder {
            files,
            name,
            failed: None,
        }
    }

    /// Writes a file into the folder. Says whether that went well; none where memory is wanting.
    fn write(&self, alloc: Global, name: &[u8], octets: &[u8]) -> Result<bool, AllocError> {
        let path = path_of(alloc, self.name, name)?;
        let Ok(path) = str::from_utf8(&path) else {
            return Ok(false);
        };
        if create_dir_all(self.files, self.name).is_err() {
            return Ok(false);
        }
        Ok(fs::write(self.files, path, octets).is_ok())
    }
}

impl<'r, R: Files> FileSink for Folder<'r, R> {
    ghost files = { λ _. None };

    ghost failed = { λ folder. option_map (λ name. name.items) folder.failed };

    fn put(&mut self, alloc: Global, name: &[u8], octets: &[u8]) -> Result<(), FileError> {
        let (Ok(is_written), Ok(kept)) = (
            self.write(alloc, name, octets),
            Vec::from_slice(alloc, name),
        ) else {
            return Err(FileError::NoMemory);
        };
        if is_written {
            return Ok(());
        }
        self.failed = Some(kept);
        Err(FileError::Failed)
    }
}
