//! All steps are taken back.
ghost use Rattle.std.specs.Prelude.{◌≡◌, []};
ghost use Rattle.bench_spec.specs.Taken.{with_log};

use bench_core::Core;

/// Takes all steps back: the world is as it was opened, with its pauses. Takes no memory.
pub(crate) fn unwind(core: &mut Core)
    ensures { core.new ≡ with_log core.old [] }
{
    let count = core.place();
    for _step in 0..count {
        core.back();
    }
}
