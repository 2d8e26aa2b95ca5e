//! The first word of a line.

ghost use Rattle.std.specs.Prelude.{◌≡◌};
ghost use Rattle.std.specs.List.{find};
ghost use Rattle.std.specs.Str.{bytes_eq};
ghost use Rattle.step_text.specs.Commands.{name_of, command_of, which};

use bench_item::Step;

/// What kind of step a line has.
#[derive(Clone, Copy)]
pub(crate) enum Command {
    Join,
    Dialled,
    Came,
    Lost,
    Told,
    Fired,
    Lift,
    Drop,
    Work,
}

/// All of them.
const COMMANDS: [Command; 9] = [
    Command::Join,
    Command::Dialled,
    Command::Came,
    Command::Lost,
    Command::Told,
    Command::Fired,
    Command::Lift,
    Command::Drop,
    Command::Work,
];

impl Command {
    /// The word.
    pub(crate) fn name(self) -> &'static [u8]
        ensures { result.now ≡ name_of self }
    {
        match self {
            Command::Join => b"join",
            Command::Dialled => b"dialled",
            Command::Came => b"came",
            Command::Lost => b"lost",
            Command::Told => b"told",
            Command::Fired => b"fired",
            Command::Lift => b"lift",
            Command::Drop => b"drop",
            Command::Work => b"work",
        }
    }
}

/// Which command a step has.
pub(crate) fn which(step: &Step) -> Command
    ensures { result ≡ which step.now }
{
    match step {
        Step::Joined => Command::Join,
        Step::Dialled(_) => Command::Dialled,
        Step::Came { .. } => Command::Came,
        Step::Lost(_) => Command::Lost,
        Step::Told { .. } => Command::Told,
        Step::Fired { .. } => Command::Fired,
        Step::Lift(_) => Command::Lift,
        Step::Drop(_) => Command::Drop,
        Step::Work(_) => Command::Work,
    }
}

/// The first of these commands with that name.
fn named_in(commands: &[Command], word: &[u8]) -> Option<Command>
    ensures { result ≡ find (λ command. bytes_eq word.now (name_of command)) commands.now }
{
    for command in commands {
        if word == command.name() {
            return Some(*command);
        }
    }
    None
}

/// The command of a word, if it is one.
pub(crate) fn command_of(word: &[u8]) -> Option<Command>
    ensures { result ≡ command_of word.now }
{
    named_in(&COMMANDS, word)
}
