//! What an image begins with: its format, and how many names and rows there are.

ghost use Rattle.std.specs.Prelude.{◌≡◌, ◌+◌, ◌*◌, ◌≤◌, ◌<◌, IfOk, IfErr, length, Some, None};
ghost use Rattle.std.specs.Int.{from_be_bytes};
ghost use Rattle.tab_load.specs.Faults.{width_of, number_at, count_fault, CountsOf};
ghost use Rattle.tab_load.specs.Faults.{BeginsWith, MagicWrong, CountsWrong};

use crate::fault::{ImageFault, LoadFault, fault_at};
use tab_text::{MAX_ACTIONS, MAX_GUARDS, MAX_KINDS, MAX_ROWS, MAX_STATES};

/// The formats of images.
#[derive(Clone, Copy, PartialEq, Eq)]
pub enum Format {
    One,
    Two,
}

/// How many names and rows an image has.
#[derive(Clone, Copy, PartialEq, Eq)]
pub(crate) struct Counts {
    pub states: usize,
    pub kinds: usize,
    pub guards: usize,
    pub actions: usize,
    pub rows: usize,
}

/// How many octets an offset has.
pub fn width_of(format: Format) -> usize
    ensures { result ≡ width_of format }
{
    match format {
        Format::One => 2,
        Format::Two => 4,
    }
}

/// The format of an image.
pub(crate) fn read_format(octets: &[u8]) -> Result<Format, LoadFault>
    ensures ok { IfOk result (λ format. BeginsWith format octets.now) }
    ensures err { IfErr result (λ fault. MagicWrong octets.now fault.at fault.code) }
{
    let length = octets.len();
    match octets {
        [68, 84, 73, 49, ..] => Ok(Format::One),
        [68, 84, 73, 50, ..] => Ok(Format::Two),
        [_, _, _, _, ..] => Err(fault_at(ImageFault::Magic, 0, length)),
        _ => Err(fault_at(ImageFault::Cut, 0, length)),
    }
}

/// The number in the two octets at a place.
fn number_at(octets: &[u8], at: usize) -> usize
    requires { at + 2 ≤ length octets.now }
    ensures value { result ≡ number_at octets.now at }
    ensures small { result < 65536 }
{
    u16::from_be_bytes([octets[at], octets[at + 1]]) as usize
}

/// What is wrong with a count.
fn count_fault(format: Format, octets: &[u8], number: usize) -> Option<ImageFault>
    requires { number < 5 }
    ensures { result ≡ count_fault format octets.now number }
{
    let rows = match format {
        Format::One => 512,
        Format::Two => MAX_ROWS,
    };
    let most = [MAX_STATES, MAX_KINDS, MAX_GUARDS, MAX_ACTIONS, rows][number];
    let least = [1, 0, 0, 0, 1][number];
    if octets.len() < 6 + 2 * number {
        return Some(ImageFault::Cut);
    }
    let count = number_at(octets, 4 + 2 * number);
    if count < least || most < count {
        return Some(ImageFault::Count);
    }
    None
}

/// How many names and rows there are.
pub(crate) fn read_counts(format: Format, octets: &[u8]) -> Result<Counts, LoadFault>
    ensures ok { IfOk result (λ counts. CountsOf format octets.now counts) }
    ensures err { IfErr result (λ fault. CountsWrong format octets.now fault.at fault.code) }
{
    for number in 0..5 {
        if let Some(code) = count_fault(format, octets, number) {
            return Err(fault_at(code, 4 + 2 * number, octets.len()));
        }
    }
    Ok(Counts {
        states: number_at(octets, 4),
        kinds: number_at(octets, 6),
        guards: number_at(octets, 8),
        actions: number_at(octets, 10),
        rows: number_at(octets, 12),
    })
}
