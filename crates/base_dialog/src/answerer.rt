//! What answers lines.
ghost use Rattle.std.specs.Prelude.{◌++◌, IfOk, List, ℕ};

use base_list::Octets;
use std::alloc::AllocError;

/// What answered lines, and what it said.
#[derive(Drop)]
pub struct Answered<T> {
    pub answerer: T,
    pub text: Vec<u8>,
}

/// What answers lines.
pub trait Answerer: Drop {
    /// What is so of it between answers.
    ghost stands: { Self → Type 0 };

    /// Whether the first may become the second by answering these lines, in order, with that text.
    ghost has_answered: { Self → Self → List (List ℕ) → List ℕ → Type 0 };

    /// Answers lines, in order. Where memory ran out it is let go.
    fn answer(self, lines: &[Octets]) -> Result<Answered<Self>, AllocError>
        requires { stands self }
        ensures stands { IfOk result (λ answered. stands answered.answerer) }
        ensures answered { IfOk result (λ answered. (start : Self) (before : List (List ℕ)) (said : List ℕ)
            → has_answered start self before said
            → has_answered start answered.answerer (before ++ lines.now) (said ++ answered.text.items)) };
}
