//! All nodes of a CONFIG opened, a script run on them, and that told.
ghost use Rattle.std.specs.Prelude.{◌≡◌, ◌≢◌, ◌<◌, ◌≤◌, ◌+◌, ◌-◌, ◌*◌, ◌^◌, ◌++◌, IfErr, IfOk, OnOk, map, max};
ghost use Rattle.std.specs.Prelude.{replicate, take};
ghost use Rattle.base_device.specs.Devices.{IsRun};
ghost use Rattle.bench_nodes.specs.Acts.{AreBooksOf, settings_of};
ghost use Rattle.bench_setup.specs.Halts.{IsHalt};
ghost use Rattle.role_tables.specs.Roles.{all_laws};
ghost use Rattle.cmd_bench.specs.Nodes.{AreNodeInputs, AreOpened, IsEnded, IsNodesMet, IsNodesRunOn, IsOpened};
ghost use Rattle.cmd_bench.specs.Nodes.{IsRunOnOpen, NodesText, node_ends};

use crate::opening::{bad_line, numbers_of};
use crate::shown::Shown;
use base_device::{ByteSink, FileSource, MAX_IDLE_WRITES, MAX_READS, Status, Told, tell};
use bench_item::MAX_SHARDS;
use bench_nodes::{
    Core, Node, NodeLine, put_node_lines, put_node_totals, read_nodes_script, run_nodes,
};
use bench_setup::{
    Halt, Setup, WithCalls, opening_text_at, read_named, read_nodes, tell_halt, unbound_at,
    with_calls,
};
use event_text::LinesError;
use std::alloc::{AllocError, Global};
use tab_call::Registry;
use tab_step::Stepped;

/// A node, or why it is not opened.
#[derive(Drop)]
pub(crate) enum Opened {
    Node(Node),
    Refused(Vec<u8>),
}

/// All nodes, or why the first that isn't opened is not.
#[derive(Drop)]
pub(crate) enum AllOpened {
    Nodes(Vec<Node>),
    Refused(Vec<u8>),
}

/// The registries of a node of so many shards, if there are as many: the first.
fn own_registries(registries: &[Registry], shards: u64) -> &[Registry]
    ensures { map (λ r. r.book) result.now ≡ take shards (map (λ r. r.book) registries.now) }
{
    let count = shards.min(registries.len() as u64) as usize;
    &registries[..count]
}

/// Opens a node.
fn open_node(alloc: Global, setup: Setup, registries: &[Registry]) -> Result<Opened, AllocError>
    ensures { IfOk result (IsOpened (map (λ r. r.book) registries.now) setup) }
{
    let Setup { node, bench } = setup;
    let host = node.identity.host.copy(alloc)?;
    let listens = node.listen.is_some();
    let accounts = numbers_of(alloc, &bench.accounts)?;
    let own = own_registries(registries, bench.shards);
    let place = unbound_at(alloc, &bench, own);
    match Core::new(alloc, bench, own) {
        Ok(core) => Ok(Opened::Node(Node {
            host,
            listens,
            accounts,
            core,
        })),
        Err(error) => Ok(Opened::Refused(opening_text_at(alloc, own, place, &error)?)),
    }
}

/// Opens all nodes, in their order.
fn open_nodes(
    alloc: Global,
    setups: Vec<Setup>,
    registries: &[Registry],
) -> Result<AllOpened, AllocError>
    ensures { IfOk result (AreOpened (map (λ r. r.book) registries.now) setups.items) }
{
    let mut nodes = Vec::new(alloc);
    let mut left = setups.into_iter();
    'setups: while let Some(setup) = left.next() {
        match open_node(alloc, setup, registries)? {
            Opened::Node(node) => nodes.push(node)?,
            Opened::Refused(text) => return Ok(AllOpened::Refused(text)),
        }
    }
    Ok(AllOpened::Nodes(nodes))
}

/// Puts what is printed at the end of a run.
fn put_ends(
    alloc: Global,
    out: &mut Vec<u8>,
    nodes: &[Node],
    shown: Shown,
) -> Result<(), AllocError>
    ensures { OnOk result (out.new.items ≡ out.old.items ++ node_ends shown nodes.now) }
{
    if shown.lines {
        put_node_lines(alloc, out, nodes)?;
    }
    if shown.totals {
        put_node_totals(alloc, out, nodes)?;
    }
    Ok(())
}

/// What is printed where the lines of a script are run on nodes.
fn nodes_text(
    alloc: Global,
    cut: usize,
    nodes: &mut [Node],
    registries: &[Registry],
    lines: Vec<NodeLine>,
    shown: Shown,
) -> Result<Vec<u8>, AllocError>
    requires { AreBooksOf (map (λ r. r.book) registries.now) (settings_of nodes.old) }
    ensures { IfOk result (λ text. NodesText cut nodes.old lines.items shown nodes.new text.items) }
{
    let mut room = Box::new(alloc, Stepped::new())?;
    let mut text = Vec::new(alloc);
    run_nodes(alloc, cut, nodes, registries, &mut room, lines, &mut text)?;
    if !shown.steps {
        text.clear();
    }
    put_ends(alloc, &mut text, nodes, shown)?;
    Ok(text)
}

/// A script's run on nodes that are open.
fn run_there(
    alloc: Global,
    cut: usize,
    nodes: &mut [Node],
    registries: &[Registry],
    script: &[u8],
    shown: Shown,
) -> Result<Told, AllocError>
    requires { AreBooksOf (map (λ r. r.book) registries.now) (settings_of nodes.old) }
    ensures { IfOk result (λ run. IsRunOnOpen cut nodes.old script.now shown nodes.new run.text.items run.refused) }
{
    match read_nodes_script(alloc, nodes, script) {
        Ok(lines) => Ok(Told {
            text: nodes_text(alloc, cut, nodes, registries, lines, shown)?,
            refused: false,
        }),
        Err(LinesError::NoMemory) => Err(AllocError),
        Err(LinesError::BadLine(line)) => Ok(Told::refusal(bad_line(alloc, line)?)),
    }
}

/// What is told of a script's run, and the nodes behind it; none where they are not all opened.
#[derive(Drop)]
pub(crate) struct Ended {
    pub(crate) run: Told,
    pub(crate) nodes: Vec<Node>,
}

/// A script's run on nodes that were opened.
fn run_through(
    alloc: Global,
    cut: usize,
    mut nodes: Vec<Node>,
    registries: &[Registry],
    script: &[u8],
    shown: Shown,
) -> Result<Ended, AllocError>
    requires { AreBooksOf (map (λ r. r.book) registries.now) (settings_of nodes.items) }
    ensures { IfOk result (λ ended. IsRunOnOpen cut nodes.items script.now shown
        ended.nodes.items ended.run.text.items ended.run.refused) }
{
    let run = run_there(alloc, cut, &mut nodes, registries, script, shown)?;
    Ok(Ended { run, nodes })
}

/// A script's run on nodes that are opened with these registries.
fn run_opened(
    alloc: Global,
    cut: usize,
    setups: Vec<Setup>,
    registries: &[Registry],
    script: &[u8],
    shown: Shown,
) -> Result<Ended, AllocError>
    ensures { IfOk result (IsEnded (map (λ r. r.book) registries.now) cut setups.items script.now shown) }
{
    match open_nodes(alloc, setups, registries)? {
        AllOpened::Nodes(nodes) => run_through(alloc, cut, nodes, registries, script, shown),
        AllOpened::Refused(text) => Ok(Ended {
            run: Told::refusal(text),
            nodes: Vec::new(alloc),
        }),
    }
}

/// A script that is to be run on nodes.
#[derive(Drop)]
struct NodesJob<'a> {
    alloc: Global,
    cut: usize,
    setups: Vec<Setup>,
    script: &'a [u8],
    shown: Shown,
}

impl WithCalls for NodesJob<'_> {
    type Answer = Ended;

    ghost answers = { λ job laws ended. IsEnded laws job.cut job.setups.items job.script.now job.shown ended };

    fn run(self, registries: Vec<Registry>) -> Result<Ended, AllocError> {
        let NodesJob {
            alloc,
            cut,
            setups,
            script,
            shown,
        } = self;
        run_opened(alloc, cut, setups, &registries, script, shown)
    }
}

/// A script's run on nodes whose callbacks answer by the laws of all roles.
pub(crate) fn run_setups(
    alloc: Global,
    cut: usize,
    setups: Vec<Setup>,
    script: &[u8],
    shown: Shown,
) -> Result<Ended, AllocError>
    ensures { IfOk result (IsEnded (replicate MAX_SHARDS all_laws) cut setups.items script.now shown) }
{
    let job = NodesJob {
        alloc,
        cut,
        setups,
        script,
        shown,
    };
    with_calls(alloc, MAX_SHARDS, job)
}

/// Opens nodes with callbacks that answer by the laws of all roles, runs a script on them, and prints that. Octets come
/// at the other end of a connection in pieces of at most `cut`. Refused are, in this order, the first node that is not
/// opened, and a line of the script that has another form, the first of them; then nothing is run.
pub fn run_nodes_on<O: ByteSink>(
    alloc: Global,
    cut: usize,
    setups: Vec<Setup>,
    script: &[u8],
    shown: Shown,
    sink: &mut O,
) -> Status
    requires idle { O.idle sink.old ≡ 0 }
    requires failures { O.failures sink.old < 2 ^ 64 - 1 }
    ensures run { IsNodesRunOn O.contents O.failures O.idle (replicate MAX_SHARDS all_laws) cut setups.items script.now
        shown sink.old sink.new result }
    ensures row { O.most_idle sink.new ≤ max (O.most_idle sink.old) MAX_IDLE_WRITES }
{
    match run_setups(alloc, cut, setups, script, shown) {
        Ok(ended) => tell(sink, &ended.run.text, ended.run.status()),
        Err(AllocError) => tell(sink, b"no memory\n", Status::NoMemory),
    }
}

/// What a run of all nodes needs.
#[derive(Drop)]
pub(crate) struct AllReady {
    pub(crate) setups: Vec<Setup>,
    pub(crate) script: Vec<u8>,
}

/// Reads a CONFIG and the files that its nodes name, and then a script.
pub(crate) fn read_all_nodes<I: FileSource>(
    alloc: Global,
    config: &str,
    script: Option<&str>,
    source: &mut I,
) -> Result<AllReady, Halt>
    requires reads { I.reads source.old + 258 * MAX_READS < 2 ^ 64 }
    requires failures { I.failures source.old < 2 ^ 64 - 1 }
    ensures reads { I.reads source.new ≤ I.reads source.old + 258 * MAX_READS }
    ensures sound { OnOk result (I.failures source.new ≡ I.failures source.old) }
    ensures ready { IfOk result (λ ready. AreNodeInputs I.remaining I.reads I.failures source.old source.new
        ready.setups.items ready.script.items) }
    ensures halt { IfErr result (IsHalt I.remaining I.reads I.failures source.old source.new) }
{
    let setups = read_nodes(alloc, config, source)?;
    match read_named(alloc, script, source) {
        Ok(script) => Ok(AllReady { setups, script }),
        Err(halt) => Err(halt),
    }
}

/// Runs a script on the nodes that it is for.
fn run_nodes_ready<O: ByteSink>(
    alloc: Global,
    cut: usize,
    ready: AllReady,
    shown: Shown,
    sink: &mut O,
) -> Status
    requires idle { O.idle sink.old ≡ 0 }
    requires failures { O.failures sink.old < 2 ^ 64 - 1 }
    ensures run { IsNodesRunOn O.contents O.failures O.idle (replicate MAX_SHARDS all_laws) cut ready.setups.items
        ready.script.items shown
        sink.old sink.new result }
    ensures row { O.most_idle sink.new ≤ max (O.most_idle sink.old) MAX_IDLE_WRITES }
{
    let AllReady { setups, script } = ready;
    run_nodes_on(alloc, cut, setups, &script, shown, sink)
}

/// Reads a CONFIG, the files that its nodes name beside it, and a script of a file or of standard input, and runs the
/// script on all nodes. Refused are, in this order, what is read before the script,
/// and then what `run_nodes_on` refuses.
pub fn run_all_nodes<I: FileSource, O: ByteSink>(
    alloc: Global,
    cut: usize,
    config: &str,
    script: Option<&str>,
    shown: Shown,
    source: &mut I,
    sink: &mut O,
) -> Status
    requires reads { I.reads source.old + 258 * MAX_READS < 2 ^ 64 }
    requires read_failures { I.failures source.old < 2 ^ 64 - 1 }
    requires idle { O.idle sink.old ≡ 0 }
    requires write_failures { O.failures sink.old < 2 ^ 64 - 1 }
    ensures reads { I.reads source.new ≤ I.reads source.old + 258 * MAX_READS }
    ensures row { O.most_idle sink.new ≤ max (O.most_idle sink.old) MAX_IDLE_WRITES }
    ensures run { IsRun I.reads I.failures O.failures O.idle source.old source.new sink.old sink.new result }
    ensures as_asked { result ≢ Status.Fault
        → IsNodesMet I.remaining I.reads I.failures O.contents O.failures O.idle cut shown source.old source.new
        sink.old sink.new result }
    ensures words { result ≢ Status.Usage }
{
    match read_all_nodes(alloc, config, script, source) {
        Ok(ready) => run_nodes_ready(alloc, cut, ready, shown, sink),
        Err(halt) => tell_halt(alloc, halt, sink),
    }
}
