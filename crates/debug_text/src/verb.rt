//! The first word of a command.
ghost use Rattle.std.specs.Prelude.{◌≡◌};
ghost use Rattle.std.specs.List.{find};
ghost use Rattle.std.specs.Str.{bytes_eq};
ghost use Rattle.debug_text.specs.Verbs.{name_of, verb_of};

/// What kind of command it is.
#[derive(Clone, Copy)]
pub(crate) enum Verb {
    Step,
    Back,
    Go,
    ReverseGo,
    Goto,
    Break,
    Clear,
    Show,
    ListRow,
    TotalsOf,
    Where,
    Help,
    History,
    Why,
    Queues,
    Timers,
    Lines,
    Sent,
    Accounts,
}

/// All of them.
const VERBS: [Verb; 19] = [
    Verb::Step,
    Verb::Back,
    Verb::Go,
    Verb::ReverseGo,
    Verb::Goto,
    Verb::Break,
    Verb::Clear,
    Verb::Show,
    Verb::ListRow,
    Verb::TotalsOf,
    Verb::Where,
    Verb::Help,
    Verb::History,
    Verb::Why,
    Verb::Queues,
    Verb::Timers,
    Verb::Lines,
    Verb::Sent,
    Verb::Accounts,
];

impl Verb {
    /// The word.
    pub(crate) fn name(self) -> &'static [u8]
        ensures { result.now ≡ name_of self }
    {
        match self {
            Verb::Step => b"step",
            Verb::Back => b"back",
            Verb::Go => b"go",
            Verb::ReverseGo => b"rgo",
            Verb::Goto => b"goto",
            Verb::Break => b"break",
            Verb::Clear => b"clear",
            Verb::Show => b"show",
            Verb::ListRow => b"list",
            Verb::TotalsOf => b"totals",
            Verb::Where => b"where",
            Verb::Help => b"help",
            Verb::History => b"history",
            Verb::Why => b"why",
            Verb::Queues => b"queues",
            Verb::Timers => b"timers",
            Verb::Lines => b"lines",
            Verb::Sent => b"sent",
            Verb::Accounts => b"accounts",
        }
    }
}

/// The first of these with that word.
fn named_in(verbs: &[Verb], word: &[u8]) -> Option<Verb>
    ensures { result ≡ find (λ verb. bytes_eq word.now (name_of verb)) verbs.now }
{
    for verb in verbs {
        if word == verb.name() {
            return Some(*verb);
        }
    }
    None
}

/// The verb of a word, if it is one.
pub(crate) fn verb_of(word: &[u8]) -> Option<Verb>
    ensures { result ≡ verb_of word.now }
{
    named_in(&VERBS, word)
}
