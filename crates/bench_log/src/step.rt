//! Steps as the log keeps them.
ghost use Rattle.std.specs.Prelude.{◌≡◌, IfOk};
ghost use Rattle.bench_item.specs.declared.step.Step.TheVariants.{Told};
ghost use Rattle.bench_log.specs.Twins.{step_of, told_of};

use crate::state::copy_key;
use base_list::Octets;
use bench_item::{Key, Source, Step};
use std::alloc::{AllocError, Global};
use tab_kept::KeptEvent;
use tab_step::Event;

/// What a desk tells a machine.
#[derive(Drop)]
pub(crate) struct KeptTold {
    desk: u32,
    key: Key,
    event: KeptEvent,
}

/// A step of each form.
#[derive(Drop)]
pub(crate) enum KeptStep {
    Joined,
    Dialled(u32),
    Came { line: u32, piece: Octets },
    Lost(u32),
    Told(Box<KeptTold>),
    Fired { machine: u64, generation: u64 },
    Lift(Source),
    Drop(Source),
    Work(u32),
}

// Keeps what a desk tells.
fn keep_told(alloc: Global, desk: u32, key: &Key, event: &Event) -> Result<KeptTold, AllocError>
    ensures { IfOk result (λ kept. told_of kept ≡ Told desk key.now event.now) }
{
    let key = copy_key(alloc, key)?;
    let event = KeptEvent::keep(alloc, event)?;
    Ok(KeptTold { desk, key, event })
}

impl KeptStep {
    /// Keeps a step.
    pub(crate) fn keep(alloc: Global, plain: &Step) -> Result<KeptStep, AllocError>
        ensures { IfOk result (λ kept. step_of kept ≡ plain.now) }
    {
        Ok(match plain {
            Step::Joined => KeptStep::Joined,
            Step::Dialled(line) => KeptStep::Dialled(*line),
            Step::Came { line, piece } => KeptStep::Came {
                line: *line,
                piece: piece.copy(alloc)?,
            },
            Step::Lost(line) => KeptStep::Lost(*line),
            Step::Told { desk, key, event } => {
                let told = keep_told(alloc, *desk, key, event)?;
                KeptStep::Told(Box::new(alloc, told)?)
            }
            Step::Fired {
                machine,
                generation,
            } => KeptStep::Fired {
                machine: *machine,
                generation: *generation,
            },
            Step::Lift(source) => KeptStep::Lift(*source),
            Step::Drop(source) => KeptStep::Drop(*source),
            Step::Work(shard) => KeptStep::Work(*shard),
        })
    }

    /// The step.
    pub(crate) fn show(&self, alloc: Global) -> Result<Step, AllocError>
        ensures { IfOk result (λ plain. plain ≡ step_of self.now) }
    {
        Ok(match self {
            KeptStep::Joined => Step::Joined,
            KeptStep::Dialled(line) => Step::Dialled(*line),
            KeptStep::Came { line, piece } => Step::Came {
                line: *line,
                piece: piece.copy(alloc)?,
            },
            KeptStep::Lost(line) => Step::Lost(*line),
            KeptStep::Told(told) => Step::Told {
                desk: told.desk,
                key: copy_key(alloc, &told.key)?,
                event: told.event.show(),
            },
            KeptStep::Fired {
                machine,
                generation,
            } => Step::Fired {
                machine: *machine,
                generation: *generation,
            },
            KeptStep::Lift(source) => Step::Lift(*source),
            KeptStep::Drop(source) => Step::Drop(*source),
            KeptStep::Work(shard) => Step::Work(*shard),
        })
    }
}
