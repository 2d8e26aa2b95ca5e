//! Many steps: forward up to a breakpoint or a place, and back.
ghost use Rattle.std.specs.Prelude.{◌≡◌, ◌≤◌, ◌<◌, IfOk, MatchOption, length, map};
ghost use Rattle.bench_debug.specs.Meets.{LastMet, MeetsNone};
ghost use Rattle.bench_script.specs.Ran.{IsRunBy};

use crate::debugger::Debugger;
use crate::meets::first_met;
use debug_text::{CommandFault, Reply};
use std::alloc::AllocError;
use tab_call::Registry;

impl Debugger {
    ghost use Rattle.bench_debug.specs.Debug.{Goes, GoesBackMet, GoesOn, GoesTo, gone_back, place_of};
    ghost use Rattle.bench_debug.specs.Seen.{seen};

    /// How many steps are taken.
    pub(crate) fn place(&self) -> u64
        ensures { result ≡ place_of (seen self.now) }
    {
        self.core.place() as u64
    }

    /// `go`: steps up to one that meets a breakpoint, to the script's end, or to one that is refused.
    pub(crate) fn go(&mut self, registries: &[Registry]) -> Result<Reply, CommandFault>
        requires { IsRunBy self.old.core (map (λ r. r.book) registries.now) }
        ensures { Goes (seen self.old) (seen self.new) result }
    {
        'steps: while let Some(entry) = self.take(registries)? {
            if let Some(number) = first_met(&self.progress.set, &entry) {
                return Ok(Reply::StoppedAt {
                    place: self.place(),
                    number,
                });
            }
        }
        Ok(Reply::EndAt(self.place()))
    }

    /// Takes back the steps behind a place. Takes no memory.
    fn rewind(&mut self, place: usize)
        requires { place ≤ length self.old.core.log }
        ensures { seen self.new ≡ gone_back (seen self.old) place }
    {
        'steps: while self.core.place() > place {
            self.undo();
        }
    }

    /// Takes steps of the script up to a place, to the script's end, or to one that is refused.
    fn go_on(&mut self, registries: &[Registry], place: u64) -> Result<Reply, CommandFault>
        requires by { IsRunBy self.old.core (map (λ r. r.book) registries.now) }
        requires behind { length self.old.core.log ≤ place }
        ensures { GoesOn (seen self.old) (seen self.new) place result }
    {
        'steps: while self.place() < place {
            if self.advance(registries)? {
                continue;
            }
            return Ok(Reply::EndAt(self.place()));
        }
        Ok(Reply::At(place))
    }

    /// `goto N`: back to a place, or forward along the script.
    pub(crate) fn go_to(
        &mut self,
        registries: &[Registry],
        place: u64,
    ) -> Result<Reply, CommandFault>
        requires { IsRunBy self.old.core (map (λ r. r.book) registries.now) }
        ensures { GoesTo (seen self.old) (seen self.new) place result }
    {
        if place <= self.place() {
            self.rewind(place as usize);
            return Ok(Reply::At(place));
        }
        self.go_on(registries, place)
    }

    /// The last entry that meets a breakpoint, if one does:
    /// its place, from 0, and the least number of those that it meets.
    fn last_met(&self) -> Result<Option<(usize, u64)>, AllocError>
        ensures { IfOk result (λ met. MatchOption met (MeetsNone self.now.progress.set.items self.now.core.log)
            (λ at. LastMet self.now.progress.set.items self.now.core.log at.0 at.1)) }
    {
        let mut place = self.core.place();
        'entries: while place > 0 {
            let Some(entry) = self.core.log().entry(place - 1, self.alloc)? else {
                unreachable!();
            };
            if let Some(met) = first_met(&self.progress.set, &entry) {
                return Ok(Some((place - 1, met)));
            }
            place -= 1;
        }
        Ok(None)
    }

    /// `rgo`: back to the place before the last entry that meets a breakpoint, or to the start.
    pub(crate) fn go_back(&mut self) -> Result<Reply, CommandFault>
        ensures { GoesBackMet (seen self.old) (seen self.new) result }
    {
        if self.core.place() == 0 {
            return Err(CommandFault::AtStart);
        }
        match self.last_met() {
            Ok(Some((place, number))) => {
                self.rewind(place);
                Ok(Reply::StoppedAt {
                    place: place as u64,
                    number,
                })
            }
            Ok(None) => {
                self.rewind(0);
                Ok(Reply::At(0))
            }
            Err(_) => Err(CommandFault::NoMemory),
        }
    }
}
