//! Copies of the files that a CONFIG's nodes name, under names of their own.
ghost use Rattle.std.specs.Prelude.{◌≡◌, ◌<◌, ◌≤◌, ◌+◌, ◌-◌, ◌*◌, ◌^◌, ◌∷◌, [], IfErr, OnOk, length};
ghost use Rattle.std.specs.Prelude.{option_map};
ghost use Rattle.bench_setup.specs.declared.halt.Halt.TheVariants.{NoMemory};
ghost use Rattle.live_report.specs.Copies.{AllCopied, AreCopied, IsCopied, IsCopyError, IsPutError};
ghost use Rattle.live_report.specs.Files.{name_of};
ghost use Rattle.live_report.specs.declared.copies.CopyError.TheVariants.{Unread};
ghost use Rattle.node_logs.specs.Files.{with_files};

use crate::paths::{CLIENT, DICTIONARY, PEER, SERVER, name_of};
use base_device::{FileSource, MAX_READS};
use base_list::Octets;
use bench_setup::{Halt, MAX_NODES, read_beside};
use config_text::NodeConfig;
use node_logs::{FileError, FileSink};
use std::alloc::{AllocError, Global};

/// Why a file is not copied.
#[derive(Drop)]
pub enum CopyError {
    /// It is not read, or memory ran out.
    Unread(Halt),
    /// The copy of this name can't be written.
    Unwritten(Vec<u8>),
}

impl From<AllocError> for CopyError {
    ghost from_gives = { λ _ e. e ≡ Unread NoMemory };

    fn from(_e: AllocError) -> CopyError {
        CopyError::Unread(Halt::NoMemory)
    }
}

impl From<Halt> for CopyError {
    ghost from_gives = { λ halt e. e ≡ Unread halt };

    fn from(halt: Halt) -> CopyError {
        CopyError::Unread(halt)
    }
}

/// Writes a copy of that ending.
fn put_copy<F: FileSink>(
    alloc: Global,
    host: &[u8],
    ending: &str,
    octets: &[u8],
    files: &mut F,
) -> Result<(), CopyError>
    ensures written { OnOk result (F.files files.new
        ≡ with_files (F.files files.old) ((record { name = name_of host.now ending.now; octets = octets.now }) ∷ [])) }
    ensures kept { OnOk result (F.failed files.new ≡ F.failed files.old) }
    ensures error { IfErr result (IsPutError (F.failed files.new)) }
{
    let name = name_of(alloc, host, ending)?;
    match files.put(alloc, &name, octets) {
        Ok(()) => Ok(()),
        Err(FileError::Failed) => Err(CopyError::Unwritten(name)),
        Err(FileError::NoMemory) => Err(CopyError::Unread(Halt::NoMemory)),
    }
}

/// Copies a file that CONFIG names, if it names one, to the node's own of that ending. It is read whole before anything
/// is written, so that a file stays that is its own copy.
fn copy<I: FileSource, F: FileSink>(
    alloc: Global,
    config: &str,
    name: Option<&Octets>,
    host: &[u8],
    ending: &str,
    source: &mut I,
    files: &mut F,
) -> Result<(), CopyError>
    requires reads { I.reads source.old + MAX_READS < 2 ^ 64 }
    requires failures { I.failures source.old < 2 ^ 64 - 1 }
    ensures reads { I.reads source.new ≤ I.reads source.old + MAX_READS }
    ensures made { I.reads source.old ≤ I.reads source.new }
    ensures sound { OnOk result (I.failures source.new ≡ I.failures source.old) }
    ensures copied { OnOk result (IsCopied I.remaining I.reads I.failures (option_map (λ name. name.now) name.entry)
        host.now ending.now source.old source.new (F.files files.old) (F.files files.new)) }
    ensures kept { OnOk result (F.failed files.new ≡ F.failed files.old) }
    ensures error { IfErr result (IsCopyError I.remaining I.reads I.failures source.old source.new
        (F.failed files.new)) }
{
    let Some(name) = name else {
        return Ok(());
    };
    let octets = read_beside(alloc, config, name, source)?;
    put_copy(alloc, host, ending, &octets, files)
}

/// Copies the files that a node names: the table of each role, in their order, and then the dictionary.
fn copy_named<I: FileSource, F: FileSink>(
    alloc: Global,
    config: &str,
    node: &NodeConfig,
    source: &mut I,
    files: &mut F,
) -> Result<(), CopyError>
    requires reads { I.reads source.old + 4 * MAX_READS < 2 ^ 64 }
    requires failures { I.failures source.old < 2 ^ 64 - 1 }
    ensures reads { I.reads source.new ≤ I.reads source.old + 4 * MAX_READS }
    ensures made { I.reads source.old ≤ I.reads source.new }
    ensures sound { OnOk result (I.failures source.new ≡ I.failures source.old) }
    ensures copied { OnOk result (AreCopied I.remaining I.reads I.failures node.now.identity.host node.now.files
        source.old source.new (F.files files.old) (F.files files.new)) }
    ensures kept { OnOk result (F.failed files.new ≡ F.failed files.old) }
    ensures error { IfErr result (IsCopyError I.remaining I.reads I.failures source.old source.new
        (F.failed files.new)) }
{
    let host = node.identity.host.as_slice();
    let names = &node.files.tables;
    copy(
        alloc,
        config,
        names.peer.as_ref(),
        host,
        PEER,
        source,
        files,
    )?;
    copy(
        alloc,
        config,
        names.client.as_ref(),
        host,
        CLIENT,
        source,
        files,
    )?;
    copy(
        alloc,
        config,
        names.server.as_ref(),
        host,
        SERVER,
        source,
        files,
    )?;
    copy(
        alloc,
        config,
        node.files.dictionary.as_ref(),
        host,
        DICTIONARY,
        source,
        files,
    )?;
    Ok(())
}

/// Copies the files that nodes of a CONFIG name, of one node behind the other, each to a name of the node's host.
/// Nothing is written behind the first that is not read or not written.
pub fn copy_files<I: FileSource, F: FileSink>(
    alloc: Global,
    config: &str,
    nodes: &[NodeConfig],
    source: &mut I,
    files: &mut F,
) -> Result<(), CopyError>
    requires few { length nodes.now ≤ MAX_NODES }
    requires reads { I.reads source.old + 256 * MAX_READS < 2 ^ 64 }
    requires failures { I.failures source.old < 2 ^ 64 - 1 }
    ensures reads { I.reads source.new ≤ I.reads source.old + 256 * MAX_READS }
    ensures made { I.reads source.old ≤ I.reads source.new }
    ensures sound { OnOk result (I.failures source.new ≡ I.failures source.old) }
    ensures copied { OnOk result (AllCopied I.remaining I.reads I.failures source.old (F.files files.old) nodes.now
        source.new (F.files files.new)) }
    ensures kept { OnOk result (F.failed files.new ≡ F.failed files.old) }
    ensures error { IfErr result (IsCopyError I.remaining I.reads I.failures source.old source.new
        (F.failed files.new)) }
{
    'nodes: for place in 0..nodes.len() {
        copy_named(alloc, config, &nodes[place], source, files)?;
    }
    Ok(())
}
