//! Octets from hexadecimal digits, in text that comes in pieces.
ghost use Rattle.std.specs.Prelude.{◌≡◌, ◌<◌, ◌≤◌, ◌+◌, ◌*◌, ℕ, List, [], ◌∷◌, ◌++◌, false, None, Option};
ghost use Rattle.std.specs.Prelude.{IfSome, length, take};
ghost use Rattle.std.specs.Option.{ForSome, option_to_list};
ghost use Rattle.hex.specs.Hex.{hex_digit_value};
ghost use Rattle.base_text.specs.Digits.{is_blank, is_hex_text, Means};
ghost use Rattle.base_text.specs.Stops.{Stops};

/// Why `decode` went no further.
#[derive(Clone, Copy, PartialEq, Eq)]
pub enum Stop {
    /// The whole text is used.
    TextEnds,
    /// No octet more fits.
    PieceFull,
    /// The next character is neither a digit nor a blank.
    BadCharacter,
}

/// How far `decode` came.
#[derive(Clone, Copy, PartialEq, Eq)]
pub struct Decoded {
    /// Characters that were used.
    pub used: usize,
    /// Octets at the front of the piece that were made.
    pub made: usize,
    pub stop: Stop,
    /// The digit of an octet whose second digit hasn't come.
    pub half: Option<u8>,
}

/// However a text is cut, its parts mean what the whole means: the octets of the first and then of the second.
pub fn parts_mean_the_whole()
    ensures { (before between after : Option ℕ) (text more octets others : List ℕ)
        → Means before text octets between → Means between more others after
        → Means before (text ++ more) (octets ++ others) after }
{}

/// A text means one list of octets, and leaves one digit or none.
pub fn one_meaning()
    ensures { (before after other : Option ℕ) (text octets others : List ℕ)
        → Means before text octets after → Means before text others other
        → (octets ≡ others) × (after ≡ other) }
{}

/// The value of each character that is a hexadecimal digit, and 16 for each other.
#[rattlefmt::skip]
static VALUES: [u8; 256] = [
    16, 16, 16, 16, 16, 16, 16, 16, 16, 16, 16, 16, 16, 16, 16, 16,
    16, 16, 16, 16, 16, 16, 16, 16, 16, 16, 16, 16, 16, 16, 16, 16,
    16, 16, 16, 16, 16, 16, 16, 16, 16, 16, 16, 16, 16, 16, 16, 16,
    0, 1, 2, 3, 4, 5, 6, 7, 8, 9, 16, 16, 16, 16, 16, 16,
    16, 10, 11, 12, 13, 14, 15, 16, 16, 16, 16, 16, 16, 16, 16, 16,
    16, 16, 16, 16, 16, 16, 16, 16, 16, 16, 16, 16, 16, 16, 16, 16,
    16, 10, 11, 12, 13, 14, 15, 16, 16, 16, 16, 16, 16, 16, 16, 16,
    16, 16, 16, 16, 16, 16, 16, 16, 16, 16, 16, 16, 16, 16, 16, 16,
    16, 16, 16, 16, 16, 16, 16, 16, 16, 16, 16, 16, 16, 16, 16, 16,
    16, 16, 16, 16, 16, 16, 16, 16, 16, 16, 16, 16, 16, 16, 16, 16,
    16, 16, 16, 16, 16, 16, 16, 16, 16, 16, 16, 16, 16, 16, 16, 16,
    16, 16, 16, 16, 16, 16, 16, 16, 16, 16, 16, 16, 16, 16, 16, 16,
    16, 16, 16, 16, 16, 16, 16, 16, 16, 16, 16, 16, 16, 16, 16, 16,
    16, 16, 16, 16, 16, 16, 16, 16, 16, 16, 16, 16, 16, 16, 16, 16,
    16, 16, 16, 16, 16, 16, 16, 16, 16, 16, 16, 16, 16, 16, 16, 16,
    16, 16, 16, 16, 16, 16, 16, 16, 16, 16, 16, 16, 16, 16, 16, 16,
];

/// The value of a hexadecimal digit of either case.
#[inline]
pub fn digit_value(c: u8) -> Option<u8>
    ensures { result ≡ hex_digit_value c }
{
    let value = VALUES[usize::from(c)];
    if value < 16 { Some(value) } else { None }
}

// The octet of two digits.
#[inline(always)]
fn pair_value(high: u8, low: u8) -> Option<u8>
    ensures { IfSome result (λ octet. Means None (high ∷ low ∷ []) (octet ∷ []) None) }
{
    match (digit_value(high), digit_value(low)) {
        (Some(high), Some(low)) => Some(high * 16 + low),
        _ => None,
    }
}

// What a character means, with the digit before: one octet or none, and a digit may be left over.
#[derive(Clone, Copy)]
struct CharacterMeaning {
    octet: Option<u8>,
    half: Option<u8>,
}

// What a character means behind a digit or none; nothing where it is neither a digit nor a blank.
fn character(half: Option<u8>, c: u8) -> Option<CharacterMeaning>
    requires { ForSome half (λ digit. digit < 16) }
    ensures value { IfSome result (λ step. Means half (c ∷ []) (option_to_list step.octet) step.half) }
    ensures none { result ≡ None → is_hex_text c ≡ false }
{
    match (digit_value(c), half) {
        (Some(low), Some(high)) => Some(CharacterMeaning {
            octet: Some(high * 16 + low),
            half: None,
        }),
        (Some(high), None) => Some(CharacterMeaning {
            octet: None,
            half: Some(high),
        }),
        (None, _) if is_blank_character(c) => Some(CharacterMeaning { octet: None, half }),
        (None, _) => None,
    }
}

fn is_blank_character(c: u8) -> bool
    ensures { result ≡ is_blank c }
{
    matches!(c, b' ' | b'\t' | b'\n' | b'\r')
}

// Puts the octets of pairs of digits, from a place of a text on, into a piece from a place on:
// as many as stand there in a row and fit. It says how many.
fn run_of_pairs(text: &[u8], piece: &mut [u8], used: usize, made: usize) -> usize
    requires used { used ≤ length text.now }
    requires made { made ≤ length piece.old }
    ensures meaning { (before : Option ℕ) → Means before (take used text.now) (take made piece.old) None
        → Means before (take (used + 2 * result) text.now) (take (made + result) piece.new) None }
    ensures room { made + result ≤ length piece.new }
    ensures text { used + 2 * result ≤ length text.now }
{
    let mut at = used;
    let mut to = made;
    'pairs: while to < piece.len() && text.len() - at > 1 {
        let Some(octet) = pair_value(text[at], text[at + 1]) else {
            return to - made;
        };
        piece[to] = octet;
        to += 1;
        at += 2;
    }
    to - made
}

// The same behind a digit or none: behind a digit no pair begins.
fn pairs(half: Option<u8>, text: &[u8], piece: &mut [u8], used: usize, made: usize) -> usize
    requires used { used ≤ length text.now }
    requires made { made ≤ length piece.old }
    ensures meaning { (before : Option ℕ) → Means before (take used text.now) (take made piece.old) half
        → Means before (take (used + 2 * result) text.now) (take (made + result) piece.new) half }
    ensures room { made + result ≤ length piece.new }
    ensures text { used + 2 * result ≤ length text.now }
{
    match half {
        None => run_of_pairs(text, piece, used, made),
        Some(_) => 0,
    }
}

/// Reads digits from the front of `text` and puts their octets at the front of `piece`. `half` is the digit that
/// the text before has left over.
pub fn decode(half: Option<u8>, text: &[u8], piece: &mut [u8]) -> Decoded
    requires { ForSome half (λ digit. digit < 16) }
    ensures meaning { Means half (take result.used text.now) (take result.made piece.new) result.half }
    ensures made { result.made ≤ length piece.new }
    ensures used { result.used ≤ length text.now }
    ensures progress { result.made ≤ result.used }
    ensures stop { Stops text.now (length piece.new) result }
{
    let mut half = half;
    let mut used = 0;
    let mut made = 0;
    'steps: while used < text.len() {
        if made == piece.len() {
            let stop = Stop::PieceFull;
            return Decoded {
                used,
                made,
                stop,
                half,
            };
        }
        let Some(step) = character(half, text[used]) else {
            let stop = Stop::BadCharacter;
            return Decoded {
                used,
                made,
                stop,
                half,
            };
        };
        if let Some(octet) = step.octet {
            piece[made] = octet;
            made += 1;
        }
        half = step.half;
        used += 1;
        let count = pairs(half, text, piece, used, made);
        used += 2 * count;
        made += count;
    }
    let stop = Stop::TextEnds;
    Decoded {
        used,
        made,
        stop,
        half,
    }
}
