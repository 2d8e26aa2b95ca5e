//! Who writes files.
ghost use Rattle.std.specs.Prelude.{◌≡◌, ◌∷◌, [], ℕ, List, Option, IfErr, OnOk};
ghost use Rattle.node_logs.specs.Files.{File, IsPutFault, with_files};

use std::alloc::Global;
use thiserror::Error;

/// Why a file is not written.
#[derive(Clone, Copy, Debug, PartialEq, Eq, Error)]
pub enum FileError {
    #[error("the file can't be written")]
    Failed,
    #[error("out of memory")]
    NoMemory,
}

/// Where files are written, each at once and whole.
pub trait FileSink {
    /// The files that were written, in their order, where they are known.
    ghost files: { Self → Option (List File) };

    /// The name of the file that could not be written last, where there is one.
    ghost failed: { Self → Option (List ℕ) };

    /// Writes a file of this name, in place of one that was there. Behind an error nothing is known of what stands
    /// there.
    fn put(&mut self, alloc: Global, name: &[u8], octets: &[u8]) -> Result<(), FileError>
        ensures written { OnOk result (files self.new ≡ with_files (files self.old)
            (record { name = name.now; octets = octets.now } ∷ [])) }
        ensures kept { OnOk result (failed self.new ≡ failed self.old) }
        ensures fault { IfErr result (IsPutFault name.now (failed self.old) (failed self.new)) };
}
