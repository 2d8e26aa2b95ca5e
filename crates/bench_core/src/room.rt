//! Room for one more entry and its record.
ghost use Rattle.std.specs.Prelude.{◌≡◌, ◌<◌, OnOk};

use bench_log::{Log, LogError};
use bench_undo::UndoLog;
use std::alloc::AllocError;

/// Makes room for one more entry of a log that is not full, and for its record. Nothing else changes.
pub(crate) fn make_room(log: &mut Log, undo: &mut UndoLog) -> Result<(), AllocError>
    ensures log { OnOk result (0 < log.new.room) }
    ensures undo { OnOk result (0 < undo.new.room) }
    ensures entries { log.new.entries ≡ log.old.entries }
    ensures records { undo.new.records ≡ undo.old.records }
{
    undo.reserve(1)?;
    match log.reserve(1) {
        Ok(()) => Ok(()),
        Err(LogError::Full | LogError::NoMemory) => Err(AllocError),
    }
}
