//! How a walk is asked for, and where it begins.
ghost use Rattle.std.specs.Prelude.{◌≡◌, position};
ghost use Rattle.std.specs.Str.{bytes_eq};
ghost use Rattle.tab_walk.specs.Starts.{from_of, machine_at, machine_of, start_of};

use base_list::Octets;
use event_text::registers_of;
use tab_law::PLACES;
use tab_step::MachineState;
use text_parts::Words;

/// How a walk is printed, and where it begins.
#[derive(Clone, Copy)]
pub struct WalkOptions<'a> {
    /// Under each step stand the registers that changed, and why rows before the one that took the event didn't.
    pub why: bool,
    /// `STATE rN=V ..`: a state by its name, and registers, those that aren't written 0.
    /// Without it, a walk begins in the first state.
    pub from: Option<&'a [u8]>,
}

/// The number of the state of that name.
fn state_named(names: &[Octets], name: &[u8]) -> Option<usize>
    ensures { result ≡ position (λ state. bytes_eq state name.now) names.now }
{
    names.iter().position(|state| state.as_slice() == name)
}

/// A machine in the state of that number.
fn machine_at(state: usize, regs: [u64; PLACES]) -> Option<MachineState>
    ensures { result ≡ machine_at state regs }
{
    if state < 256 {
        let state = state as u8;
        Some(MachineState { state, regs })
    } else {
        None
    }
}

/// The machine of a text `STATE rN=V ..`.
#[tactic(auto, unfolding(crate::specs::Starts::machine_of))]
fn machine_of(names: &[Octets], text: &[u8]) -> Option<MachineState>
    ensures { result ≡ machine_of names.now text.now }
{
    let mut words = Words::new(text);
    let name = words.next()?;
    let state = state_named(names, name.octets)?;
    let regs = registers_of(&mut words)?;
    machine_at(state, regs)
}

/// Where a walk begins.
pub(crate) fn start_of(names: &[Octets], options: WalkOptions<'_>) -> Option<MachineState>
    ensures { result ≡ start_of names.now (from_of options.entry) }
{
    match options.from {
        Some(text) => machine_of(names, text),
        None => Some(MachineState {
            state: 0,
            regs: [0; PLACES],
        }),
    }
}
