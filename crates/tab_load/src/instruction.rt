//! Instructions of the code.

ghost use Rattle.std.specs.Prelude.{◌≡◌, ◌++◌, ◌<◌, ◌≤◌, drop, length, None, true, slice_index_or};
ghost use Rattle.std.specs.Int.{to_be_bytes};
ghost use Rattle.tab_asm.specs.Formats.{octets_of};
ghost use Rattle.tab_load.specs.Faults.{format_of, width_of, code_limit};
ghost use Rattle.tab_load.specs.Code.{instruction_of, size_of, Fits, octets_fault, counted};
ghost use Rattle.tab_load.specs.Code.{instruction_fault, is_in_range, is_in_row, is_forward};

use crate::counts::{Counts, Format, width_of};
use crate::fault::ImageFault;

/// An instruction with its operands.
#[derive(Clone, Copy, PartialEq, Eq)]
pub enum CodeInstruction {
    /// Begins that row anew.
    Begin(u16),
    /// Goes to that offset where the guard says no.
    Test(u8, u32),
    /// Runs that action.
    Act(u8),
    /// Ends in that state.
    Go(u8),
    /// Ends without a row.
    End,
}

/// How many octets an instruction has that begins with this one.
pub(crate) fn size_of(format: Format, op: u8) -> usize
    ensures value { result ≡ size_of format op }
{
    match op {
        1 => 3,
        2 => 2 + width_of(format),
        5 => 1,
        _ => 2,
    }
}

/// What is wrong with octets that are to begin with an instruction.
pub(crate) fn octets_fault(format: Format, octets: &[u8]) -> Option<ImageFault>
    requires { 0 < length octets.now }
    ensures { result ≡ octets_fault format octets.now }
{
    let op = octets[0];
    if op < 1 || 5 < op {
        return Some(ImageFault::OpCode);
    }
    if octets.len() < size_of(format, op) {
        return Some(ImageFault::Cut);
    }
    None
}

/// The offset at the front of octets.
pub(crate) fn offset_in(format: Format, octets: &[u8]) -> u32
    requires { width_of format ≤ length octets.now }
    ensures octets { octets.now ≡ to_be_bytes (format_of format).width result ++ drop (width_of format) octets.now }
    ensures small { result < code_limit format }
{
    match format {
        Format::One => u16::from_be_bytes([octets[0], octets[1]]) as u32,
        Format::Two => u32::from_be_bytes([octets[0], octets[1], octets[2], octets[3]]),
    }
}

/// The instruction that octets begin with.
pub fn step_in(format: Format, octets: &[u8]) -> CodeInstruction
    requires { octets_fault format octets.now ≡ None }
    ensures octets { octets.now ≡ octets_of (format_of format) (instruction_of result)
        ++ drop (size_of format (slice_index_or octets.now 0 0)) octets.now }
    ensures fits { Fits format (instruction_of result) }
{
    match octets[0] {
        1 => CodeInstruction::Begin(u16::from_be_bytes([octets[1], octets[2]])),
        2 => CodeInstruction::Test(octets[1], offset_in(format, &octets[2..])),
        3 => CodeInstruction::Act(octets[1]),
        4 => CodeInstruction::Go(octets[1]),
        _ => CodeInstruction::End,
    }
}

/// Whether the operands of an instruction name what the image has.
fn is_in_range(counts: &Counts, step: CodeInstruction) -> bool
    ensures { result ≡ is_in_range counts.now (instruction_of step) }
{
    match step {
        CodeInstruction::Begin(row) => (row as usize) < counts.rows,
        CodeInstruction::Test(guard, _) => (guard as usize) < counts.guards,
        CodeInstruction::Act(action) => (action as usize) < counts.actions,
        CodeInstruction::Go(state) => (state as usize) < counts.states,
        CodeInstruction::End => true,
    }
}

/// Whether an instruction may stand behind that many actions of a row.
fn is_in_row(count: Option<usize>, step: CodeInstruction) -> bool
    ensures { result ≡ is_in_row count (instruction_of step) }
{
    match step {
        CodeInstruction::Begin(_) | CodeInstruction::End => true,
        CodeInstruction::Test(..) | CodeInstruction::Go(_) => count.is_some(),
        CodeInstruction::Act(_) => match count {
            None => false,
            Some(n) => n < 8,
        },
    }
}

/// Whether a failed guard goes on behind its test.
fn is_forward(behind: usize, step: CodeInstruction) -> bool
    ensures { result ≡ is_forward behind (instruction_of step) }
{
    match step {
        CodeInstruction::Test(_, otherwise) => behind <= otherwise as usize,
        _ => true,
    }
}

/// What is wrong with an instruction that ends at that offset, behind that many actions of a row.
pub(crate) fn instruction_fault(
    counts: &Counts,
    count: Option<usize>,
    behind: usize,
    step: CodeInstruction,
) -> Option<ImageFault>
    ensures { result ≡ instruction_fault counts.now count behind (instruction_of step) }
{
    if !(is_in_range(counts, step) && is_in_row(count, step)) {
        return Some(ImageFault::Count);
    }
    if !is_forward(behind, step) {
        return Some(ImageFault::BackJump);
    }
    None
}

/// How many actions of a row stand behind its begin, with one more instruction.
pub(crate) fn counted(count: Option<usize>, step: CodeInstruction) -> Option<usize>
    requires { is_in_row count (instruction_of step) ≡ true }
    ensures { result ≡ counted count (instruction_of step) }
{
    match step {
        CodeInstruction::Begin(_) => Some(0),
        CodeInstruction::Act(_) => match count {
            Some(n) => Some(n + 1),
            None => None,
        },
        _ => count,
    }
}
