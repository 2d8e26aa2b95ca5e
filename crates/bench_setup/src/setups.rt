//! A node of a CONFIG, and what its bench is opened with.
ghost use Rattle.std.specs.Prelude.{◌≡◌, ◌<◌, ◌≤◌, ◌+◌, ◌-◌, ◌*◌, ◌^◌, IfErr, IfOk, OnOk, length, map, option_map};
ghost use Rattle.config_text.specs.Told.{error_text};
ghost use Rattle.bench_setup.specs.Halts.{IsHalt, IsNoInput};
ghost use Rattle.bench_setup.specs.Refusals.{IsNoConfig, count_text};
ghost use Rattle.bench_setup.specs.Setups.{AreNodesOf, AreReadInTurn, AreSetupsFrom, IsFirstFrom};

use crate::halt::Halt;
use crate::inputs::{read_bench, read_named};
use base_device::{FileSource, MAX_READS};
use bench_open::Config;
use config_text::{ConfigError, NodeConfig, put_fault, read_config};
use std::alloc::{AllocError, Global};

/// The nodes that are read of a CONFIG at most, where all of them are.
pub const MAX_NODES: usize = 64;

/// What is told where all nodes of a CONFIG are wanted, and it has more than may be.
const TOO_MANY: &str = "CONFIG has more than 64 nodes\n";

/// What is told where a CONFIG names no node.
const NO_NODE: &str = "CONFIG has no node\n";

/// A node of a CONFIG, and what its bench is opened with.
#[derive(Drop)]
pub struct Setup {
    pub node: NodeConfig,
    pub bench: Config,
}

/// Why a text is no CONFIG.
fn refusal_of(alloc: Global, error: &ConfigError) -> Result<Vec<u8>, AllocError>
    ensures { IfOk result (λ text. text.items ≡ error_text error.now) }
{
    let mut text = Vec::new(alloc);
    put_fault(&mut text, error)?;
    Ok(text)
}

/// The nodes of a CONFIG's text.
fn nodes_of(alloc: Global, text: &[u8]) -> Result<Vec<NodeConfig>, Halt>
    ensures nodes { IfOk result (λ nodes. AreNodesOf text.now nodes.items) }
    ensures halt { IfErr result (IsNoInput (IsNoConfig text.now)) }
{
    match read_config(alloc, text) {
        Ok(nodes) => Ok(nodes),
        Err(ConfigError::NoMemory) => Err(Halt::NoMemory),
        Err(error) => Err(Halt::Refused(refusal_of(alloc, &error)?)),
    }
}

/// Reads a CONFIG, and then the files that its first node names: the table of each role and the dictionary, each beside
/// CONFIG unless its name begins at the root. Where none is named, the shipped table counts, and the standard's
/// definitions. Refused are, in this order, what is no CONFIG, one without a node, the first fault of a table, and the
/// first wrong line of the dictionary.
pub fn read_first<I: FileSource>(alloc: Global, config: &str, source: &mut I) -> Result<Setup, Halt>
    requires reads { I.reads source.old + 5 * MAX_READS < 2 ^ 64 }
    requires failures { I.failures source.old < 2 ^ 64 - 1 }
    ensures reads { I.reads source.new ≤ I.reads source.old + 5 * MAX_READS }
    ensures made { I.reads source.old ≤ I.reads source.new }
    ensures sound { OnOk result (I.failures source.new ≡ I.failures source.old) }
    ensures setup { IfOk result (IsFirstFrom I.remaining I.reads I.failures source.old source.new) }
    ensures halt { IfErr result (IsHalt I.remaining I.reads I.failures source.old source.new) }
{
    let text = read_named(alloc, Some(config), source)?;
    let mut nodes = nodes_of(alloc, &text)?.into_iter();
    let Some(node) = nodes.next() else {
        return Err(Halt::Refused(Vec::from_slice(alloc, NO_NODE.as_bytes())?));
    };
    let bench = read_bench(alloc, config, &node, source)?;
    Ok(Setup { node, bench })
}

/// Reads the files that each of these nodes names, of one node after the other.
fn read_benches<I: FileSource>(
    alloc: Global,
    config: &str,
    nodes: Vec<NodeConfig>,
    source: &mut I,
) -> Result<Vec<Setup>, Halt>
    requires few { length nodes.items ≤ MAX_NODES }
    requires reads { I.reads source.old + 256 * MAX_READS < 2 ^ 64 }
    requires failures { I.failures source.old < 2 ^ 64 - 1 }
    ensures reads { I.reads source.new ≤ I.reads source.old + 256 * MAX_READS }
    ensures made { I.reads source.old ≤ I.reads source.new }
    ensures sound { OnOk result (I.failures source.new ≡ I.failures source.old) }
    ensures nodes { IfOk result (λ setups. map (λ setup. setup.node) setups.items ≡ nodes.items) }
    ensures in_turn { IfOk result (λ setups. AreReadInTurn I.remaining I.reads I.failures source.old
        setups.items source.new) }
    ensures halt { IfErr result (IsHalt I.remaining I.reads I.failures source.old source.new) }
{
    let mut setups = Vec::new(alloc);
    let mut left = nodes.into_iter();
    'nodes: while let Some(node) = left.next() {
        let bench = read_bench(alloc, config, &node, source)?;
        setups.push(Setup { node, bench })?;
    }
    Ok(setups)
}

/// What is told of nodes that are too few or too many.
fn count_fault(count: usize) -> Option<&'static str>
    ensures { option_map (λ text. text.now) result ≡ count_text count }
{
    if count == 0 {
        Some(NO_NODE)
    } else if count > MAX_NODES {
        Some(TOO_MANY)
    } else {
        None
    }
}

/// Reads a CONFIG, and then the files that each of its nodes names, node by node as `read_first` does. Refused are a
/// CONFIG without a node, and one of more than 64 nodes.
pub fn read_nodes<I: FileSource>(
    alloc: Global,
    config: &str,
    source: &mut I,
) -> Result<Vec<Setup>, Halt>
    requires reads { I.reads source.old + 257 * MAX_READS < 2 ^ 64 }
    requires failures { I.failures source.old < 2 ^ 64 - 1 }
    ensures reads { I.reads source.new ≤ I.reads source.old + 257 * MAX_READS }
    ensures made { I.reads source.old ≤ I.reads source.new }
    ensures sound { OnOk result (I.failures source.new ≡ I.failures source.old) }
    ensures setups { IfOk result (λ setups. AreSetupsFrom I.remaining I.reads I.failures
        source.old source.new setups.items) }
    ensures count { IfOk result (λ setups. length setups.items ≤ MAX_NODES) }
    ensures halt { IfErr result (IsHalt I.remaining I.reads I.failures source.old source.new) }
{
    let text = read_named(alloc, Some(config), source)?;
    let nodes = nodes_of(alloc, &text)?;
    if let Some(fault) = count_fault(nodes.len()) {
        return Err(Halt::Refused(Vec::from_slice(alloc, fault.as_bytes())?));
    }
    read_benches(alloc, config, nodes, source)
}
