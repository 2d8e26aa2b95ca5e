//! What a line of a script asks for.
use bench_item::{Key, Step};

/// The kind of an event whose name the book of laws lacks: no place of a kind there.
pub const NO_KIND: u8 = 255;

/// What a line of a script asks for.
#[derive(Drop)]
pub enum ScriptStep {
    /// A step.
    Step(Step),
    /// That the timer of a machine fires. The machine has its number only once it is there:
    /// where the key has none, the step is refused.
    Fired { key: Key, generation: u64 },
}
