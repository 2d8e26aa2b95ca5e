//! `live`, from what its words ask for to a status.
ghost use Rattle.std.specs.Prelude.{◌≡◌, ◌<◌, ◌≤◌, ◌+◌, ◌-◌, ◌*◌, ◌^◌, IfErr, IfOk, None};
ghost use Rattle.std.specs.Prelude.{Ok, OnOk, is_some, length, max};
ghost use Rattle.std.specs.Prelude.{option_map};
ghost use Rattle.cmd_live.specs.Met.{AreCopiedWhere, HaveEnded, HaveLived, IsLiveMet};
ghost use Rattle.live_turns.specs.Together.{AreTogether};
ghost use Rattle.cmd_live.specs.Refusals.{IsNoFolder, no_folder_text};
ghost use Rattle.cmd_live.specs.Stops.{IsStop};
ghost use Rattle.cmd_live.specs.Told.{seconds_of};
ghost use Rattle.live_report.specs.Copies.{IsCopyError};

use crate::nodes::{Nodes, nodes_of};
use crate::opening::Refused;
use crate::stop::{Stop, tell_stop};
use crate::told::{Ended, tell_all};
use crate::twice::check_hosts;
use crate::words::LiveWords;
use base_device::{ByteSink, FileSource, MAX_IDLE_WRITES, MAX_READS, Status, tell};
use base_text::number_of;
use bench_setup::{MAX_NODES, Setup, read_nodes, tell_halt};
use config_text::NodeConfig;
use live_report::{CopyError, copy_files};
use live_turns::{Lived, Living};
use node_logs::FileSink;
use std::alloc::{AllocError, AllocGlobal, Global};
use std::fs::create_dir_all;
use std::net::Net;
use std::rt::Files;

const BAD_SECONDS: &str = "wanted: a number of seconds behind --seconds\n";

/// What is told where no log can be written to a folder.
fn no_folder(alloc: Global, folder: &str) -> Result<Vec<u8>, AllocError>
    ensures { IfOk result (λ out. out.items ≡ no_folder_text folder.now) }
{
    let mut out = Vec::from_slice(alloc, folder.as_bytes())?;
    out.extend_from_slice(b": no log can be written there\n")?;
    Ok(out)
}

/// Makes the folder of the logs, where one is wanted and isn't there.
fn make_folder<R: Files>(rt: &R, alloc: Global, folder: Option<&str>) -> Result<(), Refused>
    ensures { IfErr result (IsNoFolder (option_map (λ folder. folder.now) folder.entry)) }
{
    if let Some(folder) = folder {
        if create_dir_all(rt, folder).is_err() {
            return Err(Refused::Failed(no_folder(alloc, folder)?));
        }
    }
    Ok(())
}

/// Copies the files that nodes name, where logs are wanted.
fn copy_where<I: FileSource, W: FileSink>(
    alloc: Global,
    words: LiveWords<'_>,
    nodes: &[NodeConfig],
    source: &mut I,
    files: &mut W,
) -> Result<(), CopyError>
    requires few { length nodes.now ≤ MAX_NODES }
    requires reads { I.reads source.old + 256 * MAX_READS < 2 ^ 64 }
    requires failures { I.failures source.old < 2 ^ 64 - 1 }
    ensures reads { I.reads source.new ≤ I.reads source.old + 256 * MAX_READS }
    ensures made { I.reads source.old ≤ I.reads source.new }
    ensures sound { OnOk result (I.failures source.new ≡ I.failures source.old) }
    ensures copied { OnOk result (AreCopiedWhere I.remaining I.reads I.failures
        (is_some (option_map (λ folder. folder.now) words.entry.log)) nodes.now
        source.old source.new (W.files files.old) (W.files files.new)) }
    ensures kept { OnOk result (W.failed files.new ≡ W.failed files.old) }
    ensures error { IfErr result (IsCopyError I.remaining I.reads I.failures source.old source.new
        (W.failed files.new)) }
{
    if words.log.is_some() {
        copy_files(alloc, words.config, nodes, source, files)
    } else {
        Ok(())
    }
}

/// Nodes live, and are told of.
fn live_all<F: Fn(Vec<Living>) -> Result<Vec<Option<Lived>>, AllocError>, W: FileSink>(
    alloc: Global,
    is_logged: bool,
    nodes: Nodes,
    together: &F,
    files: &mut W,
) -> Result<Ended, AllocError>
    requires callable { F.IsAlwaysCallable together.now }
    requires both { length nodes.livings.items ≡ length nodes.nodes.items }
    requires together { (livings : _) (lived : _) → F.post together.now livings (Ok lived)
        → AreTogether livings.items lived.items }
    ensures { IfOk result (λ told. HaveEnded (λ livings lived. F.post together.now livings (Ok lived)) is_logged
        nodes.nodes.items nodes.livings (W.files files.old) (W.failed files.old) told.text.items told.status
        (W.files files.new) (W.failed files.new)) }
{
    let Nodes { nodes, livings } = nodes;
    let lived = together(livings)?;
    tell_all(alloc, is_logged, &nodes, &lived, files)
}

/// The seconds that are wanted; without the word as many as a number tells.
fn seconds_of(word: Option<&str>) -> Option<u64>
    ensures { result ≡ seconds_of (option_map (λ text. text.now) word.entry) }
{
    match word {
        Some(word) => number_of(word.as_bytes()),
        None => Some(u64::MAX),
    }
}

/// The same from what a CONFIG and its files hold: the nodes are opened, then the files that they name are copied,
/// where logs are wanted.
fn live_setups<
    R: Net + Files,
    I: FileSource,
    F: Fn(Vec<Living>) -> Result<Vec<Option<Lived>>, AllocError>,
    W: FileSink,
>(
    rt: &R,
    alloc: Global,
    setups: Vec<Setup>,
    words: LiveWords<'_>,
    seconds: u64,
    source: &mut I,
    together: &F,
    files: &mut W,
) -> Result<Ended, Stop>
    requires callable { F.IsAlwaysCallable together.now }
    requires together { (livings : _) (lived : _) → F.post together.now livings (Ok lived)
        → AreTogether livings.items lived.items }
    requires few { length setups.items ≤ MAX_NODES }
    requires reads { I.reads source.old + 256 * MAX_READS < 2 ^ 64 }
    requires failures { I.failures source.old < 2 ^ 64 - 1 }
    ensures reads { I.reads source.new ≤ I.reads source.old + 256 * MAX_READS }
    ensures lived { IfOk result (λ told. HaveLived I.remaining I.reads I.failures W.files W.failed
        (λ livings lived. F.post together.now livings (Ok lived)) (option_map (λ host. host.now) words.entry.node)
        seconds (is_some (option_map (λ folder. folder.now) words.entry.log)) words.entry.stats setups.items
        source.old source.new files.old files.new told.text.items told.status) }
    ensures stopped { IfErr result (IsStop I.remaining I.reads I.failures
        (option_map (λ host. host.now) words.entry.node) (option_map (λ folder. folder.now) words.entry.log)
        setups.items source.old source.new (W.failed files.new)) }
{
    make_folder(rt, alloc, words.log)?;
    let nodes = nodes_of(rt, alloc, setups, words, seconds)?;
    check_hosts(alloc, words.log, &nodes.nodes)?;
    copy_where(alloc, words, &nodes.nodes, source, files)?;
    Ok(live_all(alloc, words.log.is_some(), nodes, together, files)?)
}

/// Reads a CONFIG and the files that its nodes name, has its nodes live, or the one that is wanted, over TCP,
/// for the turns of CONFIG or so many seconds, and prints of each how many entries its log has,
/// and what stands on its accounts. Each log is legal.
///
/// Where a folder for logs is wanted, `files` are those of that folder: before the nodes live, copies of the files that
/// they name are written there, and behind that the log of each, and a CONFIG that opens its bench with those copies.
/// Two of one host are refused then: their logs would be one file.
///
/// `together` has them live side by side, each by `live_one` of `live_threads`, and answers them in their order, each a
/// world of its bench: a thread for each is started where the process begins.
pub fn live<
    R: Net + Files + AllocGlobal,
    I: FileSource,
    O: ByteSink,
    F: Fn(Vec<Living>) -> Result<Vec<Option<Lived>>, AllocError>,
    W: FileSink,
>(rt: &R, words: LiveWords<'_>, source: &mut I, sink: &mut O, together: &F, files: &mut W) -> Status
    requires callable { F.IsAlwaysCallable together.now }
    requires together { (livings : _) (lived : _) → F.post together.now livings (Ok lived)
        → AreTogether livings.items lived.items }
    requires reads { I.reads source.old + 513 * MAX_READS < 2 ^ 64 }
    requires read_failures { I.failures source.old < 2 ^ 64 - 1 }
    requires idle { O.idle sink.old ≡ 0 }
    requires write_failures { O.failures sink.old < 2 ^ 64 - 1 }
    ensures reads { I.reads source.new ≤ I.reads source.old + 513 * MAX_READS }
    ensures row { O.most_idle sink.new ≤ max (O.most_idle sink.old) MAX_IDLE_WRITES }

    // Seconds that are no number are told before anything is read; then what is wrong with an input; then what stands
    // in the way of nodes; else those that are to live were handed to `together`, each as it was read, and are told of
    // as it answered, and where logs are wanted, the files of each are written, or it is told that they are not.
    ensures as_asked { IsLiveMet I.remaining I.reads I.failures O.contents O.failures O.idle W.files W.failed
        (λ livings lived. F.post together.now livings (Ok lived))
        (option_map (λ host. host.now) words.entry.node) (option_map (λ text. text.now) words.entry.seconds)
        (option_map (λ folder. folder.now) words.entry.log) words.entry.stats source.old source.new sink.old sink.new
        files.old files.new result }

    // Words are refused only where the seconds are no number, and then nothing is read.
    ensures usage { result ≡ Status.Usage → (source.new ≡ source.old)
        × (seconds_of (option_map (λ text. text.now) words.entry.seconds) ≡ None) }
{
    let alloc = rt.alloc();
    let Some(seconds) = seconds_of(words.seconds) else {
        return tell(sink, BAD_SECONDS.as_bytes(), Status::Usage);
    };
    let setups = match read_nodes(alloc, words.config, source) {
        Ok(setups) => setups,
        Err(halt) => return tell_halt(alloc, halt, sink),
    };
    match live_setups(rt, alloc, setups, words, seconds, source, together, files) {
        Ok(told) => tell(sink, &told.text, told.status),
        Err(stop) => tell_stop(alloc, stop, sink),
    }
}
