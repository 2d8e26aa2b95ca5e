//! The files of a node that lived: its log, and a CONFIG that opens its bench.
ghost use Rattle.std.specs.Prelude.{◌≡◌, ◌∷◌, [], IfErr, IfOk, OnOk, codes};
ghost use Rattle.config_json.specs.Json.{config_json};
ghost use Rattle.live_report.specs.Files.{AreWritten, IsOneOf, config_file, files_of, name_of, own_files};
ghost use Rattle.node_logs.specs.Files.{with_files};
ghost use Rattle.node_logs.specs.Logs.{IsLogFault, IsNamed};

use crate::paths::{CONFIG, name_of, own_files};
use config_json::put_config;
use config_text::NodeConfig;
use node_logs::{Core, FileError, FileSink, LogError, write_log};
use std::alloc::{AllocError, Global};

/// The text of a CONFIG of a node, which names files of its own.
fn config_of(alloc: Global, host: &[u8], node: &NodeConfig) -> Result<Vec<u8>, AllocError>
    ensures { IfOk result (λ text. text.items ≡ config_json node.now (own_files host.now node.now.files)) }
{
    let files = own_files(alloc, host, &node.files)?;
    let mut text = Vec::new(alloc);
    put_config(alloc, &mut text, node, &files)?;
    Ok(text)
}

/// Writes the CONFIG of a node to the file of its host.
fn write_config<F: FileSink>(
    alloc: Global,
    host: &[u8],
    node: &NodeConfig,
    files: &mut F,
) -> Result<(), LogError>
    ensures written { OnOk result (F.files files.new
        ≡ with_files (F.files files.old) (config_file host.now node.now ∷ [])) }
    ensures kept { OnOk result (F.failed files.new ≡ F.failed files.old) }
    ensures fault { IfErr result (IsLogFault (F.failed files.old) (F.failed files.new)) }
    ensures named { IfErr result (IsNamed (name_of host.now (codes ".json"))) }
{
    let name = name_of(alloc, host, CONFIG)?;
    let text = config_of(alloc, host, node)?;
    match files.put(alloc, &name, &text) {
        Ok(()) => Ok(()),
        Err(FileError::Failed) => Err(LogError::Failed(name)),
        Err(FileError::NoMemory) => Err(LogError::NoMemory),
    }
}

/// Writes the log of a node to the file of its host, and beside it a CONFIG that opens its bench.
fn write_node<F: FileSink>(
    alloc: Global,
    host: &[u8],
    node: &NodeConfig,
    core: &Core,
    files: &mut F,
) -> Result<(), LogError>
    ensures written { OnOk result (F.files files.new
        ≡ with_files (F.files files.old) (files_of host.now node.now core.now)) }
    ensures kept { OnOk result (F.failed files.new ≡ F.failed files.old) }
    ensures fault { IfErr result (IsLogFault (F.failed files.old) (F.failed files.new)) }
    ensures named { IfErr result (IsOneOf host.now) }
{
    write_log(alloc, host, core, files)?;
    write_config(alloc, host, node, files)
}

/// The same. Says whether one of the two could not be written.
pub fn is_unwritten<F: FileSink>(
    alloc: Global,
    host: &[u8],
    node: &NodeConfig,
    core: &Core,
    files: &mut F,
) -> Result<bool, AllocError>
    ensures { IfOk result (AreWritten host.now node.now core.now (F.files files.old) (F.files files.new)
        (F.failed files.old) (F.failed files.new)) }
{
    match write_node(alloc, host, node, core, files) {
        Ok(()) => Ok(false),
        Err(LogError::Failed(_)) => Ok(true),
        Err(LogError::NoMemory) => Err(AllocError),
    }
}
