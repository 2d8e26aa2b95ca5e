//! What happens to connections.
ghost use Rattle.std.specs.Prelude.{◌≡◌, None, OnOk, OnErr};
ghost use Rattle.bench_item.specs.declared.step.Step.TheVariants as steps;
ghost use Rattle.bench_spec.specs.Refusal.{refusal};
ghost use Rattle.bench_spec.specs.Taken.{Takes};

use crate::entries::bare_entry;
use crate::keeping::Core;
use crate::room::make_room;
use base_list::Octets;
use bench_item::Step;
use bench_log::KeptEntry;
use bench_undo::Undo;
use std::alloc::AllocError;

impl Core {
    /// A connection was accepted: it has the next number.
    pub(crate) fn joined(&mut self) -> Result<(), AllocError>
        requires { refusal self.old.settings self.old.log self.old.paused steps.Joined ≡ None }
        ensures ok { OnOk result (Takes self.old self.new steps.Joined) }
        ensures err { OnErr result (self.new ≡ self.old) }
    {
        let entry = bare_entry(self.alloc, Step::Joined)?;
        make_room(&mut self.log, &mut self.undo)?;
        self.carried.reserve(1)?;
        let Ok(_) = self.lines.joined() else {
            return Err(AllocError);
        };
        self.carried.push_reserved(0);
        self.log.put(entry);
        self.undo.put(Undo::Opened);
        Ok(())
    }

    /// The dial of a connection was acknowledged.
    pub(crate) fn dialled(&mut self, line: u32) -> Result<(), AllocError>
        requires { refusal self.old.settings self.old.log self.old.paused (steps.Dialled line) ≡ None }
        ensures ok { OnOk result (Takes self.old self.new (steps.Dialled line)) }
        ensures err { OnErr result (self.new ≡ self.old) }
    {
        let entry = bare_entry(self.alloc, Step::Dialled(line))?;
        make_room(&mut self.log, &mut self.undo)?;
        let Ok(posted) = self.lines.dialled(line as u64) else {
            return Err(AllocError);
        };
        self.log.put(entry);
        self.undo.put(Undo::Lines(posted.change));
        Ok(())
    }

    /// Octets came on a connection.
    pub(crate) fn came(&mut self, line: u32, piece: Octets) -> Result<(), AllocError>
        requires { refusal self.old.settings self.old.log self.old.paused (steps.Came line piece) ≡ None }
        ensures ok { OnOk result (Takes self.old self.new (steps.Came line piece)) }
        ensures err { OnErr result (self.new ≡ self.old) }
    {
        make_room(&mut self.log, &mut self.undo)?;
        let Ok(came) = self.lines.came(line as u64, piece.as_slice()) else {
            return Err(AllocError);
        };
        let entry = KeptEntry::of_came(line, piece);
        self.log.put(entry);
        self.undo.put(Undo::Lines(came.change));
        Ok(())
    }

    /// A connection was lost, or its dial refused.
    pub(crate) fn lost(&mut self, line: u32) -> Result<(), AllocError>
        requires { refusal self.old.settings self.old.log self.old.paused (steps.Lost line) ≡ None }
        ensures ok { OnOk result (Takes self.old self.new (steps.Lost line)) }
        ensures err { OnErr result (self.new ≡ self.old) }
    {
        let entry = bare_entry(self.alloc, Step::Lost(line))?;
        make_room(&mut self.log, &mut self.undo)?;
        let Ok(posted) = self.lines.lost(line as u64) else {
            return Err(AllocError);
        };
        self.log.put(entry);
        self.undo.put(Undo::Lines(posted.change));
        Ok(())
    }
}
