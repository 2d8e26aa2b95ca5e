//! Calls are taken back.
ghost use Rattle.std.specs.Prelude.{◌≡◌, length, ◌-◌, take};
ghost use Rattle.bench_line.specs.Dials.{redialled};

use crate::change::Change;
use crate::line::{Before, Line};
use crate::lines::Lines;
use bench_item::{Hears, LineState};

impl<T: Hears> Lines<T> {
    ghost use Rattle.bench_line.specs.Lines.{with_line, unlifted_one};
    ghost use Rattle.bench_line.specs.Before.{restored};
    ghost use Rattle.bench_line.specs.Change.{taken_back};

    /// Takes the last call that changed something back: all is as before it, but for the memory. Takes no memory.
    pub fn take_back(&mut self, change: Change)
        ensures taken_back { self.new.lines ≡ taken_back change self.old.lines }
        ensures rules { self.new.rules ≡ self.old.rules }
    {
        match change {
            Change::Nothing => {}
            Change::Opened => self.drop_last(),
            Change::Lifted { line } => self.unlift(line),
            Change::Changed { line, before } => self.restore(line, before),
            Change::Undialled {
                peer,
                generation,
                states,
            } => redial(&mut self.lines, peer, generation, &states),
        }
    }

    // The connection of that number is what it was before a call.
    fn restore(&mut self, line: u64, before: Before)
        ensures lines { self.new.lines ≡ with_line line (restored before) self.old.lines }
        ensures rules { self.new.rules ≡ self.old.rules }
    {
        let Ok(place) = self.find(line) else {
            return;
        };
        let at = &mut self.lines[place];
        at.restore(before);
    }

    // The last item that was lifted of the connection of that number waits again.
    fn unlift(&mut self, line: u64)
        ensures lines { self.new.lines ≡ with_line line unlifted_one self.old.lines }
        ensures rules { self.new.rules ≡ self.old.rules }
    {
        let Ok(place) = self.find(line) else {
            return;
        };
        let at = &mut self.lines[place];
        at.unlift();
    }

    // The last connection was never opened.
    fn drop_last(&mut self)
        ensures lines { self.new.lines ≡ take (length self.old.lines - 1) self.old.lines }
        ensures rules { self.new.rules ≡ self.old.rules }
    {
        let len = self.lines.len().saturating_sub(1);
        self.lines.truncate(len);
    }
}

// The connections of a dial stand as they did before.
fn redial(lines: &mut [Line], peer: u64, generation: u64, states: &[LineState])
    ensures { lines.new ≡ redialled peer generation states.now lines.old }
{
    let mut used = 0;
    for line in lines.iter_mut() {
        if line.is_of_dial(peer, generation) {
            if let Some(state) = states.get(used) {
                line.stand(*state);
                used += 1;
            }
        }
    }
}
