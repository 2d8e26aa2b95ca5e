//! A text that is compared with what would be printed, in place of printing that: it takes no memory.

ghost use Rattle.std.specs.Prelude.{◌≡◌, ◌++◌, Some, decimal, option_map};
ghost use Rattle.step_text.specs.Matching.{behind_front, is_done, left_of, without};

/// What is left of a text that is compared with what would be printed.
#[derive(Drop)]
pub struct Matcher<'a> {
    /// None once they differed.
    left: Option<&'a [u8]>,
}

/// What stands in a text behind that front; none where the text begins otherwise.
fn behind_front<'a>(text: &'a [u8], front: &[u8]) -> Option<&'a [u8]>
    ensures { option_map (λ left. left.now) result ≡ behind_front front.now text.now }
{
    let mut left = text;
    for c in front {
        let [first, behind @ ..] = left else {
            return None;
        };
        if c != first {
            return None;
        }
        left = behind;
    }
    Some(left)
}

impl<'a> Matcher<'a> {
    /// Before anything is compared.
    pub fn new(text: &'a [u8]) -> Matcher<'a>
        ensures { left_of result ≡ Some text.now }
    {
        Matcher { left: Some(text) }
    }

    /// Compares what is next.
    #[tactic(auto, unfolding(crate::specs::Matching::without))]
    pub fn put(&mut self, printed: &[u8])
        ensures { left_of self.new ≡ without printed.now (left_of self.old) }
    {
        if let Some(text) = self.left {
            self.left = behind_front(text, printed);
        }
    }

    /// Compares a label and a number in decimal.
    #[tactic(auto, using(crate::proofs::MatchingLemmas::comparing))]
    pub fn put_number(&mut self, label: &[u8], number: u64)
        ensures { left_of self.new ≡ without (label.now ++ decimal number) (left_of self.old) }
    {
        let mut digits = itoa::Buffer::new();
        self.put(label);
        self.put(digits.format(number).as_bytes());
    }

    /// Whether nothing differed, and nothing is left.
    pub fn is_done(&self) -> bool
        ensures { result ≡ is_done (left_of self.now) }
    {
        match self.left {
            Some(text) => text.is_empty(),
            None => false,
        }
    }
}
