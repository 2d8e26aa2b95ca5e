//! The logs of nodes, written.
ghost use Rattle.std.specs.Prelude.{◌≡◌, ◌∷◌, [], IfErr, IfOk, OnOk};
ghost use Rattle.node_logs.specs.Files.{with_files};
ghost use Rattle.node_logs.specs.Logs.{IsLogFault, IsNamed, file_name, log_file, log_of, logs_of, unwritten_text};
ghost use Rattle.node_logs.specs.declared.logs.LogError.TheVariants.{NoMemory};

use crate::files::{FileError, FileSink};
use crate::text::{log_text, put_file_name};
use bench_nodes::{Core, Node};
use std::alloc::{AllocError, Global};

/// Why logs are not written.
#[derive(Drop)]
pub enum LogError {
    /// The file of this name can't be written.
    Failed(Vec<u8>),
    NoMemory,
}

impl From<AllocError> for LogError {
    ghost from_gives = { λ _ e. e ≡ NoMemory };

    fn from(_e: AllocError) -> LogError {
        LogError::NoMemory
    }
}

/// Which file can't be written, as it is told.
pub fn unwritten_text(alloc: Global, name: &[u8]) -> Result<Vec<u8>, AllocError>
    ensures { IfOk result (λ text. text.items ≡ unwritten_text name.now) }
{
    let mut text = Vec::from_slice(alloc, b"write fault: ")?;
    text.extend_from_slice(name)?;
    text.extend_from_slice(b" can't be written\n")?;
    Ok(text)
}

/// The name of the file of a host's log.
fn name_of(alloc: Global, host: &[u8]) -> Result<Vec<u8>, AllocError>
    ensures { IfOk result (λ name. name.items ≡ file_name host.now) }
{
    let mut name = Vec::new(alloc);
    put_file_name(&mut name, host)?;
    Ok(name)
}

/// Writes the log of a bench to the file of its host.
pub fn write_log<F: FileSink>(
    alloc: Global,
    host: &[u8],
    core: &Core,
    files: &mut F,
) -> Result<(), LogError>
    ensures written { OnOk result (F.files files.new
        ≡ with_files (F.files files.old) (log_file host.now core.now ∷ [])) }
    ensures kept { OnOk result (F.failed files.new ≡ F.failed files.old) }
    ensures fault { IfErr result (IsLogFault (F.failed files.old) (F.failed files.new)) }
    ensures named { IfErr result (IsNamed (file_name host.now)) }
{
    let name = name_of(alloc, host)?;
    let text = log_text(alloc, core)?;
    match files.put(alloc, &name, &text) {
        Ok(()) => Ok(()),
        Err(FileError::Failed) => Err(LogError::Failed(name)),
        Err(FileError::NoMemory) => Err(LogError::NoMemory),
    }
}

/// Writes the log of a node.
fn write_node<F: FileSink>(alloc: Global, node: &Node, files: &mut F) -> Result<(), LogError>
    ensures written { OnOk result (F.files files.new ≡ with_files (F.files files.old) (log_of node.now ∷ [])) }
    ensures kept { OnOk result (F.failed files.new ≡ F.failed files.old) }
    ensures fault { IfErr result (IsLogFault (F.failed files.old) (F.failed files.new)) }
{
    write_log(alloc, node.host.as_slice(), &node.core, files)
}

/// Writes the log of each node to the file of its host, from the last node to the first, so that of nodes with one host
/// the first keeps the file.
pub fn write_logs<F: FileSink>(alloc: Global, nodes: &[Node], files: &mut F) -> Result<(), LogError>
    ensures written { OnOk result (F.files files.new ≡ with_files (F.files files.old) (logs_of nodes.now)) }
    ensures kept { OnOk result (F.failed files.new ≡ F.failed files.old) }
    ensures fault { IfErr result (IsLogFault (F.failed files.old) (F.failed files.new)) }
{
    let mut left = nodes.len();
    'nodes: while left > 0 {
        left -= 1;
        write_node(alloc, &nodes[left], files)?;
    }
    Ok(())
}
