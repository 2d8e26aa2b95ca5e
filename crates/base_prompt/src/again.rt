//! Which commands an empty line repeats.
ghost use Rattle.std.specs.Prelude.{◌≡◌};
ghost use Rattle.base_prompt.specs.Again.{after, again_of, line_of};

/// A command that an empty line repeats.
#[derive(Clone, Copy)]
pub(crate) enum Again {
    Step,
    Back,
    Go,
    ReverseGo,
}

impl Again {
    /// Its line.
    pub(crate) fn line(self) -> &'static [u8]
        ensures { result.now ≡ line_of self }
    {
        match self {
            Again::Step => b"step\n",
            Again::Back => b"back\n",
            Again::Go => b"go\n",
            Again::ReverseGo => b"rgo\n",
        }
    }
}

/// The command of a line, if it is one of these.
fn again_of(line: &[u8]) -> Option<Again>
    ensures { result ≡ again_of line.now }
{
    if line == b"step\n".as_slice() {
        return Some(Again::Step);
    }
    if line == b"back\n".as_slice() {
        return Some(Again::Back);
    }
    if line == b"go\n".as_slice() {
        return Some(Again::Go);
    }
    if line == b"rgo\n".as_slice() {
        Some(Again::ReverseGo)
    } else {
        None
    }
}

/// The command that an empty line repeats behind a line: that of the line, or else the one before.
pub(crate) fn after(last: Option<Again>, line: &[u8]) -> Option<Again>
    ensures { result ≡ after last line.now }
{
    match again_of(line) {
        Some(again) => Some(again),
        None => last,
    }
}
