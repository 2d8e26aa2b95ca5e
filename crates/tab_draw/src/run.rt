//! A table's text drawn to a sink.
ghost use Rattle.std.specs.Prelude.{◌≡◌, ◌≢◌, ◌<◌, ◌≤◌, ◌-◌, ◌^◌, max, IfOk};
ghost use Rattle.base_device.specs.Devices.{HasWriteCause};
ghost use Rattle.tab_draw.specs.Runs.{IsDrawnOn, IsTold};

use crate::graph::draw;
use base_device::{ByteSink, MAX_IDLE_WRITES, Status, Told, tell};
use fault_text::table_fault;
use std::alloc::{AllocError, Global};
use tab_text::{ParseError, parse};

/// The graph of a table's text, or its first fault.
#[tactic(auto, unfolding(crate::specs::Runs::graph_text))]
fn graph_of(alloc: Global, text: &[u8]) -> Result<Told, AllocError>
    ensures { IfOk result (λ told. IsTold text.now told.text.items told.refused) }
{
    match parse(alloc, text) {
        Ok(table) => Ok(Told {
            text: draw(alloc, &table)?,
            refused: false,
        }),
        Err(ParseError::Fault(fault)) => Ok(Told {
            text: table_fault(alloc, text, &fault)?,
            refused: true,
        }),
        Err(ParseError::NoMemory) => Err(AllocError),
    }
}

/// Prints the graph of a table's text. A text with a fault is refused, with status `Refused`: `line N fault C`, and
/// what was wanted.
pub fn draw_on<O: ByteSink>(alloc: Global, table: &[u8], sink: &mut O) -> Status
    requires idle { O.idle sink.old ≡ 0 }
    requires failures { O.failures sink.old < 2 ^ 64 - 1 }

    // What is printed is the graph, or the first fault; want of memory aside, it is done exactly where there is no
    // fault.
    ensures drawn { IsDrawnOn O.contents O.failures O.idle table.now sink.old sink.new result }
    ensures words { result ≢ Status.Usage }

    // A fault of the run comes only where the sink failed, or took nothing in as many writes in a row as the bound
    // says.
    ensures cause { result ≡ Status.Fault → HasWriteCause O.failures O.idle sink.old sink.new }
    ensures row { O.most_idle sink.new ≤ max (O.most_idle sink.old) MAX_IDLE_WRITES }
{
    match graph_of(alloc, table) {
        Ok(told) => tell(sink, &told.text, told.status()),
        Err(AllocError) => tell(sink, b"no memory\n", Status::NoMemory),
    }
}
