//! What a desk sees of a bench.
ghost use Rattle.std.specs.Prelude.{◌≡◌};
ghost use Rattle.bench_spec.specs.Settings.{table_of};
ghost use Rattle.live_desk.specs.Standing.{Standing, standing_of};

use bench_core::Core;
use bench_item::{Key, Role};
use tab_law::LawBook;
use tab_step::MachineState;
use tab_text::Table;

/// A bench, as a desk sees it: tables, laws, and where machines stand.
pub trait Stands {
    /// What is seen.
    ghost standing: { Self → Standing };

    /// The laws, and the kinds of events.
    fn laws(&self) -> &LawBook
        ensures { result.now ≡ (standing self.now).settings.node.laws };

    /// The table of a role.
    fn table(&self, role: Role) -> &Table
        ensures { result.now ≡ table_of (standing self.now).settings role };

    /// Where a machine stands, if it is there.
    fn state_of(&self, key: &Key) -> Option<MachineState>
        ensures { result ≡ (standing self.now).machine_of key.now };
}

impl Stands for Core {
    ghost standing = { standing_of };

    fn laws(&self) -> &LawBook {
        Core::laws(self)
    }

    fn table(&self, role: Role) -> &Table {
        Core::table(self, role)
    }

    fn state_of(&self, key: &Key) -> Option<MachineState> {
        Core::state_of(self, key)
    }
}
