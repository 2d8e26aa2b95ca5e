//! Commands, breakpoints, and why a command is refused.
ghost use Rattle.std.specs.Prelude.{◌≡◌};
ghost use Rattle.debug_text.specs.Faults.{number_of};

use bench_item::{Key, Role, StepFault};

/// Where a run is to stop: at an entry that meets this.
#[derive(Drop)]
pub enum Breakpoint {
    /// A machine of the role moves by that row of its table, from 0.
    Row {
        role: Role,
        row: u64,
    },
    /// The machine moves, and stands in that state afterwards.
    State {
        key: Key,
        state: u8,
    },
    /// An event of that kind is handled, by its place in the book of laws.
    Kind(u8),
    /// An item for the machine is handled.
    Machine(Key),
    /// The machine moves, and its register has that value afterwards and had not before.
    Value {
        key: Key,
        register: usize,
        value: u64,
    },
}

/// What a debugger is told to do.
#[derive(Drop)]
pub enum Command {
    /// `step`: the next step of the script.
    Step,
    /// `back`: the last step is taken back.
    Back,
    /// `go`: steps up to one that meets a breakpoint, or to the end of the script.
    Go,
    /// `rgo`: back to the last entry that meets a breakpoint, to the place before it.
    ReverseGo,
    /// `goto N`: back to that place, or forward along the script.
    Goto(u64),
    /// `break ..`
    Break(Breakpoint),
    /// `clear B`
    Clear(u64),
    /// `show KEY`: where the machine stands.
    Show(Key),
    /// `list ROLE R`: a row of the role's table.
    ListRow { role: Role, row: u64 },
    /// `totals ACCOUNT`
    TotalsOf(u64),
    /// `where`: the place, and the place in the script.
    Where,
    /// `help`
    Help,
    /// `history KEY`: all moves of the machine.
    History(Key),
    /// `why KEY`: its last move, and how it came about.
    Why(Key),
    /// `queues`: what waits in each outbox, hand and inbox.
    Queues,
    /// `timers`: which are armed.
    Timers,
    /// `lines`: where each connection stands, and how much it sent.
    Lines,
    /// `sent L`: what a connection has sent.
    Sent(u64),
    /// `accounts`: what stands on each.
    Accounts,
}

/// Why a command is refused. Where several hold, the first of these is told:
/// an unknown command, a bad number, no such row, too many breakpoints; and want of memory last.
#[derive(Clone, Copy)]
pub enum CommandFault {
    /// The word or the form is none of a command; a role, a kind of events or a state that isn't there,
    /// or a word that is no key, in `break` and `list`.
    UnknownCommand,
    /// A number is none, or of nothing that is there.
    BadNumber,
    /// There is no such machine.
    NoSuchMachine,
    /// There is no such breakpoint.
    NoSuchBreakpoint,
    /// No step was taken.
    AtStart,
    /// As many breakpoints are set as there may be.
    TooManyBreakpoints,
    /// Memory was refused.
    NoMemory,
    /// The step was refused, for this.
    StepRefused(StepFault),
    /// There is no such account.
    NoSuchAccount,
    /// The table has no such row.
    NoSuchRow,
}

impl CommandFault {
    /// The number that is printed for it.
    pub fn number(self) -> u8
        ensures { result ≡ number_of self }
    {
        match self {
            CommandFault::UnknownCommand => 1,
            CommandFault::BadNumber => 2,
            CommandFault::NoSuchMachine => 3,
            CommandFault::NoSuchBreakpoint => 4,
            CommandFault::AtStart => 5,
            CommandFault::TooManyBreakpoints => 6,
            CommandFault::NoMemory => 7,
            CommandFault::StepRefused(_) => 8,
            CommandFault::NoSuchAccount => 9,
            CommandFault::NoSuchRow => 10,
        }
    }
}
