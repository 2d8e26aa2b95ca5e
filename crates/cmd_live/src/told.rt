//! What is told of all nodes that lived, and their files.
ghost use Rattle.std.specs.Prelude.{◌≡◌, ◌++◌, IfOk, IfSome, OnOk, Some, length, slice_get};
ghost use Rattle.cmd_live.specs.Told.{AreTold, AreWrittenWhere, TellsOf, disagreed, failed, worse};
ghost use Rattle.live_report.specs.Reports.{node_text};

use base_device::Status;
use bench_core::Core;
use config_text::NodeConfig;
use live_report::{LifeFault, is_unwritten, put_node};
use live_turns::Lived;
use node_logs::FileSink;
use std::alloc::{AllocError, Global};

/// A text that is printed, and a status.
#[derive(Drop)]
pub(crate) struct Ended {
    pub(crate) text: Vec<u8>,
    pub(crate) status: Status,
}

/// The status where something failed.
fn failed(status: Status) -> Status
    ensures { result ≡ failed status }
{
    match status {
        Status::NoMemory => Status::NoMemory,
        Status::Disagreed => Status::Disagreed,
        Status::Done | Status::Refused | Status::Usage | Status::Fault => Status::Fault,
    }
}

/// The status where the threads of a node disagree.
fn disagreed(status: Status) -> Status
    ensures { result ≡ disagreed status }
{
    match status {
        Status::NoMemory => Status::NoMemory,
        _ => Status::Disagreed,
    }
}

/// The status behind one node more.
fn worse(status: Status, fault: Option<LifeFault>, is_unwritten: bool) -> Status
    ensures { result ≡ worse status fault is_unwritten }
{
    match fault {
        Some(LifeFault::NoMemory) => Status::NoMemory,
        Some(LifeFault::Disagreed) => disagreed(status),
        Some(LifeFault::NoSocket | LifeFault::NoThread) => failed(status),
        None => { if is_unwritten { failed(status) } else { status } }
    }
}

/// Tells of one node more, of which this is known.
fn tell_of(
    alloc: Global,
    told: &mut Ended,
    host: &[u8],
    core: &Core,
    fault: Option<LifeFault>,
    is_unwritten: bool,
) -> Result<(), AllocError>
    ensures text { OnOk result (told.new.text.items
        ≡ told.old.text.items ++ node_text core.now host.now fault is_unwritten) }
    ensures status { OnOk result (told.new.status ≡ worse told.old.status fault is_unwritten) }
{
    put_node(alloc, &mut told.text, host, core, fault, is_unwritten)?;
    told.status = worse(told.status, fault, is_unwritten);
    Ok(())
}

/// Writes the files of a node where that is wanted. Says whether they are not written then.
fn is_unwritten_where<W: FileSink>(
    alloc: Global,
    is_logged: bool,
    node: &NodeConfig,
    core: &Core,
    files: &mut W,
) -> Result<bool, AllocError>
    ensures { IfOk result (AreWrittenWhere is_logged node.now core.now (W.files files.old) (W.files files.new)
        (W.failed files.old) (W.failed files.new)) }
{
    if is_logged {
        is_unwritten(alloc, node.identity.host.as_slice(), node, core, files)
    } else {
        Ok(false)
    }
}

/// Tells of one node more, and writes its files where that is wanted.
fn tell_node<W: FileSink>(
    alloc: Global,
    told: &mut Ended,
    is_logged: bool,
    node: &NodeConfig,
    lived: &Lived,
    files: &mut W,
) -> Result<(), AllocError>
    ensures { OnOk result (TellsOf is_logged node.now lived.now told.old.text.items told.new.text.items
        told.old.status told.new.status (W.files files.old) (W.files files.new)
        (W.failed files.old) (W.failed files.new)) }
{
    lived.core.known();
    let is_unwritten = is_unwritten_where(alloc, is_logged, node, &lived.core, files)?;
    let host = node.identity.host.as_slice();
    tell_of(alloc, told, host, &lived.core, lived.fault, is_unwritten)
}

/// What became of the node at a place, if it lived.
fn lived_at(lived: &[Option<Lived>], place: usize) -> Option<&Lived>
    ensures { IfSome result (λ one. slice_get lived.now place ≡ Some (Some one.now)) }
{
    match lived.get(place) {
        Some(Some(lived)) => Some(lived),
        _ => None,
    }
}

/// Tells of all nodes, in their order, each as it came out, and writes the files of each where that is wanted.
pub(crate) fn tell_all<W: FileSink>(
    alloc: Global,
    is_logged: bool,
    nodes: &[NodeConfig],
    lived: &[Option<Lived>],
    files: &mut W,
) -> Result<Ended, AllocError>
    requires { length lived.now ≡ length nodes.now }
    ensures { IfOk result (λ told. AreTold is_logged (W.files files.old) (W.failed files.old) nodes.now lived.now
        told.text.items told.status (W.files files.new) (W.failed files.new)) }
{
    let mut told = Ended {
        text: Vec::new(alloc),
        status: Status::Done,
    };
    'nodes: for place in 0..nodes.len() {
        let Some(one) = lived_at(lived, place) else {
            return Err(AllocError);
        };
        tell_node(alloc, &mut told, is_logged, &nodes[place], one, files)?;
    }
    Ok(told)
}
