//! The walk through the code, from an entry to an end.

ghost use Rattle.std.specs.Prelude.{◌≡◌, ◌<◌, IfNone, IfSome, [], length, None, Some};
ghost use Rattle.tab_load.specs.Loading.{IsLoaded};
ghost use Rattle.tab_image.specs.RunBy.{says};
ghost use Rattle.tab_image.specs.Walks.{IsAt, IsEnd};

use tab_call::Registry;
use tab_law::Scene;
use tab_load::{CodeInstruction, Program, step_in, width_of};
use tab_text::Places;

/// How a walk ends: by a row and its Next, or without a row.
#[derive(Clone, Copy, Debug, PartialEq, Eq)]
pub(crate) enum Ending {
    Row(u16, u8),
    NoRow,
}

/// A walk through the code of a program.
#[derive(Drop)]
pub(crate) struct Walk {
    /// The offset at which it began.
    pub begin: usize,
    /// The offset that it has come to.
    pub at: usize,
    /// The row that was begun last; 0 before any.
    pub row: u16,
    /// The places in the book of that row's actions so far.
    pub acts: Places,
}

impl Walk {
    /// A walk that begins at an offset.
    pub(crate) fn new(begin: u32) -> Walk
        ensures { result ≡ record { begin = begin; at = begin; row = 0; acts = [] } }
    {
        Walk {
            begin: begin as usize,
            at: begin as usize,
            row: 0,
            acts: Places::new(),
        }
    }
}

/// What the guard of that number says, by its callback.
fn says(program: &Program, registry: &Registry, scene: &Scene, guard: u8) -> bool
    requires loaded { IsLoaded registry.now.book program.now }
    requires named { guard < length program.now.image.guards }
    ensures { result ≡ says registry.now.book program.now.image scene.now guard }
{
    let place = program.names().guards.places[guard as usize];
    registry.ask(place as usize, scene)
}

/// Goes on behind the instruction that the walk has come to, or ends there.
fn advance(walk: &mut Walk, program: &Program, registry: &Registry, scene: &Scene) -> Option<Ending>
    requires loaded { IsLoaded registry.now.book program.now }
    requires on_way { IsAt registry.now.book program.now scene.now walk.old }
    ensures on_way { IfNone result (IsAt registry.now.book program.now scene.now walk.new) }
    ensures forward { IfNone result (walk.old.at < walk.new.at) }
    ensures begin { walk.new.begin ≡ walk.old.begin }
    ensures ended { IfSome result (IsEnd registry.now.book program.now scene.now walk.new) }
{
    let format = program.format();
    let code = program.code();
    match step_in(format, &code[walk.at..]) {
        CodeInstruction::Begin(row) => {
            walk.row = row;
            walk.acts.clear();
            walk.at += 3;
            None
        }
        CodeInstruction::Test(guard, otherwise) => {
            if says(program, registry, scene, guard) {
                walk.at += 2 + width_of(format);
                return None;
            }
            walk.at = otherwise as usize;
            None
        }
        CodeInstruction::Act(action) => {
            let place = program.names().actions.places[action as usize];
            walk.acts.push(place);
            walk.at += 2;
            None
        }
        CodeInstruction::Go(state) => Some(Ending::Row(walk.row, state)),
        CodeInstruction::End => Some(Ending::NoRow),
    }
}

/// Goes on to the end. Each instruction leads forward, so there are at most as many as the code has octets.
pub(crate) fn finish(
    walk: &mut Walk,
    program: &Program,
    registry: &Registry,
    scene: &Scene,
) -> Ending
    requires loaded { IsLoaded registry.now.book program.now }
    requires on_way { IsAt registry.now.book program.now scene.now walk.old }
    ensures begin { walk.new.begin ≡ walk.old.begin }
    ensures ended { IsEnd registry.now.book program.now scene.now walk.new result }
{
    loop {
        if let Some(ending) = advance(walk, program, registry, scene) {
            return ending;
        }
    }
}
