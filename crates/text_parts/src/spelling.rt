//! Blanks, and what a line is.
ghost use Rattle.std.specs.Prelude.{◌≡◌};
ghost use Rattle.text_parts.specs.Lines.{is_plain, is_blank, is_comment, is_skipped, is_more, is_row_line};
ghost use Rattle.text_parts.specs.Words.{trimmed_front, trimmed_back, trimmed};

/// Without the blanks in front.
pub fn trimmed_front(mut octets: &[u8]) -> &[u8]
    ensures { result.now ≡ trimmed_front octets.now }
{
    while let [b' ', rest @ ..] = octets {
        octets = rest;
    }
    octets
}

/// Without the blanks behind.
fn trimmed_back(octets: &[u8]) -> &[u8]
    ensures { result.now ≡ trimmed_back octets.now }
{
    let mut len = octets.len();
    while len > 0 && octets[len - 1] == b' ' {
        len -= 1;
    }
    &octets[..len]
}

/// Without the blanks in front and behind.
#[tactic(auto, unfolding(crate::specs::Words::trimmed))]
pub fn trimmed(octets: &[u8]) -> &[u8]
    ensures { result.now ≡ trimmed octets.now }
{
    trimmed_back(trimmed_front(octets))
}

/// Whether a text may have all these bytes.
pub fn is_plain(octets: &[u8]) -> bool
    ensures { result ≡ is_plain octets.now }
{
    octets.iter().all(|b| b' ' <= *b && *b <= b'~')
}

/// Whether a line is passed over: it is blank, or a comment.
pub fn is_skipped(octets: &[u8]) -> bool
    ensures { result ≡ is_skipped octets.now }
{
    is_blank(octets) || is_comment(octets)
}

/// Whether a line is blank.
fn is_blank(octets: &[u8]) -> bool
    ensures { result ≡ is_blank octets.now }
{
    octets.iter().all(|b| *b == b' ')
}

/// Whether a line is a comment.
fn is_comment(octets: &[u8]) -> bool
    ensures { result ≡ is_comment octets.now }
{
    match octets {
        [] => false,
        [first, ..] => *first == b'#',
    }
}

/// Whether a line continues the row before it.
pub fn is_more(octets: &[u8]) -> bool
    ensures { result ≡ is_more octets.now }
{
    match octets {
        [] => false,
        [first, ..] => *first == b'+',
    }
}

/// Whether a line begins as one behind the header does.
pub fn is_row_line(octets: &[u8]) -> bool
    ensures { result ≡ is_row_line octets.now }
{
    octets.starts_with(b"  ") || octets.starts_with(b"+ ") || octets == b"+".as_slice()
}
