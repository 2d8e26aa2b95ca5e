//! Whether what was fed is in the log once, in its order.
ghost use Rattle.std.specs.Prelude.{◌≡◌, ◌<◌, IfOk, fold, map, slice_get};
ghost use Rattle.bench_parts.specs.Views.{kept_in};
ghost use Rattle.bench_spec.specs.Merged.{is_fed, is_source_line};
ghost use Rattle.bench_gather.specs.Checks.{are_fed, is_same_fed, meets, meets_at, steps_of};
ghost use Rattle.bench_gather.specs.Ordered.{entries_at, entries_by};

use bench_item::{Source, Step};
use bench_merge::Placed;
use bench_parts::{Lent, step_of};
use std::alloc::{AllocError, Global};

/// Whether a source is a connection.
fn is_source_line(source: Source) -> bool
    ensures { result ≡ is_source_line source }
{
    match source {
        Source::Line(_) => true,
        Source::Shard(_) | Source::Desk(_) | Source::Clock => false,
    }
}

/// Whether a step is one that is fed to a connection.
fn is_fed(step: &Step) -> bool
    ensures { result ≡ is_fed step.now }
{
    match step {
        Step::Joined | Step::Dialled(_) | Step::Came { line: _, piece: _ } | Step::Lost(_) => true,
        Step::Lift(source) | Step::Drop(source) => is_source_line(*source),
        Step::Told {
            desk: _,
            key: _,
            event: _,
        }
        | Step::Fired {
            machine: _,
            generation: _,
        }
        | Step::Work(_) => false,
    }
}

/// Whether two steps that are fed are one.
fn is_same_fed(one: &Step, other: &Step) -> bool
    ensures { result ≡ is_same_fed one.now other.now }
{
    match (one, other) {
        (Step::Joined, Step::Joined) => true,
        (Step::Dialled(one), Step::Dialled(other)) | (Step::Lost(one), Step::Lost(other)) => {
            one == other
        }
        (
            Step::Came { line: one, piece },
            Step::Came {
                line: other,
                piece: octets,
            },
        ) => one == other && piece.as_slice() == octets.as_slice(),
        (Step::Lift(Source::Line(one)), Step::Lift(Source::Line(other)))
        | (Step::Drop(Source::Line(one)), Step::Drop(Source::Line(other))) => one == other,
        _ => false,
    }
}

/// How many steps that were fed are met with the next; none where another one is.
fn meets_at(fed: &[Step], met: usize, step: &Step) -> Option<usize>
    ensures { result ≡ meets_at (slice_get fed.now met) met step.now }
{
    match fed.get(met) {
        None => None,
        Some(own) => {
            if is_same_fed(own, step) {
                Some(met + 1)
            } else {
                None
            }
        }
    }
}

/// How many steps that were fed are met after a step.
fn meets(fed: &[Step], met: Option<usize>, step: &Step) -> Option<usize>
    ensures { result ≡ meets fed.now met step.now }
{
    let count = met?;
    if is_fed(step) {
        meets_at(fed, count, step)
    } else {
        Some(count)
    }
}

/// The same after what stands at a place.
fn met_at(
    alloc: Global,
    parts: &[Lent<'_>],
    fed: &[Step],
    at: Placed,
    met: Option<usize>,
) -> Result<Option<usize>, AllocError>
    ensures { IfOk result (λ next. next ≡ fold (meets fed.now) met (steps_of (entries_at (map kept_in parts.now) at))) }
{
    match step_of(alloc, parts, at.part, at.place)? {
        None => Ok(met),
        Some(step) => Ok(meets(fed, met, &step)),
    }
}

/// Whether the steps that were fed are those of the log.
pub(crate) fn are_fed(
    alloc: Global,
    parts: &[Lent<'_>],
    order: &[Placed],
    fed: &[Step],
) -> Result<bool, AllocError>
    ensures { IfOk result (λ same. same ≡ are_fed fed.now (steps_of (entries_by (map kept_in parts.now) order.now))) }
{
    let mut met = Some(0);
    for at in order {
        met = met_at(alloc, parts, fed, *at, met)?;
    }
    Ok(met == Some(fed.len()))
}
