//! Numbers from decimal digits.
ghost use Rattle.std.specs.Prelude.{◌≡◌};
ghost use Rattle.base_text.specs.Numbers.{is_digit, number_of};

fn is_digit(c: u8) -> bool
    ensures { result ≡ is_digit c }
{
    matches!(c, b'0'..=b'9')
}

/// The number that a word spells in decimal digits: at least one, and below 2^64.
pub fn number_of(word: &[u8]) -> Option<u64>
    ensures { result ≡ number_of word.now }
{
    if word.is_empty() {
        return None;
    }
    let mut value = 0;
    for c in word {
        if !is_digit(*c) {
            return None;
        }
        let digit = u64::from(*c - b'0');
        if value > (u64::MAX - digit) / 10 {
            return None;
        }
        value = value * 10 + digit;
    }
    Some(value)
}
