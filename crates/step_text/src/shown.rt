//! What a line tells, as it stands there: names and octets are parts of the line. Such a step takes no memory.

ghost use Rattle.std.specs.Prelude.{◌≡◌, IfOk};
ghost use Rattle.step_text.specs.Shown.{key_shown, octets_in, step_shown};

use crate::words::{nibble, unshown};
use base_list::Octets;
use bench_item::{Key, Role, Source, Step};
use std::alloc::{AllocError, Global};
use tab_step::Event;

/// A key whose name stands in a line, where `%` and two digits are an octet.
#[derive(Clone, Copy)]
pub struct ShownKey<'a> {
    pub role: Role,
    pub name: &'a [u8],
}

impl ShownKey<'_> {
    /// The key itself.
    pub fn copy(&self, alloc: Global) -> Result<Key, AllocError>
        ensures { IfOk result (λ key. key ≡ key_shown self.now) }
    {
        let name = Octets::new(unshown(alloc, self.name)?);
        let role = self.role;
        Ok(Key { role, name })
    }
}

/// A step whose key and octets stand in a line.
#[derive(Clone, Copy)]
pub enum ShownStep<'a> {
    Joined,
    Dialled(u32),
    /// The octets are pairs of digits.
    Came {
        line: u32,
        piece: &'a [u8],
    },
    Lost(u32),
    Told {
        desk: u32,
        key: ShownKey<'a>,
        event: Event,
    },
    Fired {
        machine: u64,
        generation: u64,
    },
    Lift(Source),
    Drop(Source),
    Work(u32),
}

/// The octets of pairs of digits.
fn octets_in(alloc: Global, digits: &[u8]) -> Result<Vec<u8>, AllocError>
    ensures { IfOk result (λ octets. octets.items ≡ octets_in digits.now) }
{
    let mut octets = Vec::new(alloc);
    let mut left = digits;
    'pairs: while let [high, low, behind @ ..] = left {
        octets.push(nibble(*high) * 16 + nibble(*low))?;
        left = behind;
    }
    Ok(octets)
}

impl ShownStep<'_> {
    /// The step itself.
    pub fn copy(&self, alloc: Global) -> Result<Step, AllocError>
        ensures { IfOk result (λ step. step ≡ step_shown self.now) }
    {
        Ok(match self {
            ShownStep::Joined => Step::Joined,
            ShownStep::Dialled(line) => Step::Dialled(*line),
            ShownStep::Came { line, piece } => {
                let piece = Octets::new(octets_in(alloc, piece)?);
                let line = *line;
                Step::Came { line, piece }
            }
            ShownStep::Lost(line) => Step::Lost(*line),
            ShownStep::Told { desk, key, event } => {
                let (desk, event) = (*desk, *event);
                let key = key.copy(alloc)?;
                Step::Told { desk, key, event }
            }
            ShownStep::Fired {
                machine,
                generation,
            } => {
                let (machine, generation) = (*machine, *generation);
                Step::Fired {
                    machine,
                    generation,
                }
            }
            ShownStep::Lift(source) => Step::Lift(*source),
            ShownStep::Drop(source) => Step::Drop(*source),
            ShownStep::Work(shard) => Step::Work(*shard),
        })
    }
}
