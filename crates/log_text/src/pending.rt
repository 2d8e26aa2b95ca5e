//! What is read so far of a log's text.
ghost use Rattle.std.specs.Prelude.{◌≡◌};

use crate::deed_line::DeedLine;
use crate::item::ItemLine;
use bench_item::Step;
use bench_log::Log;

/// An entry whose lines are being read.
pub(crate) struct Pending {
    pub(crate) step: Step,
    /// What its second line tells.
    pub(crate) item: Option<ItemLine>,
    /// What the lines below that tell.
    pub(crate) deeds: Vec<DeedLine>,
}

impl Pending {
    /// Its parts.
    pub(crate) fn apart(self) -> (Step, Option<ItemLine>, Vec<DeedLine>)
        ensures step { result.0 ≡ self.step }
        ensures item { result.1 ≡ self.item }
        ensures deeds { result.2.items ≡ self.deeds.items }
    {
        let Pending { step, item, deeds } = self;
        (step, item, deeds)
    }
}

impl Drop for Pending {
    fn drop(self) {
        let Pending { step, item, deeds } = self;
    }
}

/// The entries that the lines so far tell; of the last one more lines may come.
pub(crate) struct Reader {
    pub(crate) log: Log,
    pub(crate) pending: Option<Pending>,
}

impl Reader {
    /// The log of the entries that are ended.
    pub(crate) fn into_log(self) -> Log
        ensures { result ≡ self.log }
    {
        let Reader { log, pending: _ } = self;
        log
    }
}

impl Drop for Reader {
    fn drop(self) {
        let Reader { log, pending } = self;
    }
}
