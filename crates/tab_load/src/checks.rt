//! What is looked at once each instruction was read: the end of the code, and where guards and entries lead.

ghost use Rattle.std.specs.Prelude.{◌≡◌, ◌<◌, ◌+◌, ◌*◌, [], length, true, false, None, OnOk, IfErr, is_some};
ghost use Rattle.std.specs.List.{list_any, list_all};
ghost use Rattle.tab_asm.specs.Formats.{octets_of, code_of};
ghost use Rattle.tab_load.specs.Faults.{format_of, width_of};
ghost use Rattle.tab_load.specs.Code.{instruction_of, read_in, EntriesLead, landings, is_end, lands};
ghost use Rattle.tab_load.specs.Code.{leads, is_entry, IsEnded, EndWrong, GuardWrong, EntryWrong};

use crate::counts::{Format, width_of};
use crate::fault::{ImageFault, LoadFault};
use crate::instruction::CodeInstruction;
use crate::scan::Scan;

/// How many octets an instruction has.
pub fn size_of_step(format: Format, step: CodeInstruction) -> usize
    ensures { result ≡ length (octets_of (format_of format) (instruction_of step)) }
{
    match step {
        CodeInstruction::Begin(_) => 3,
        CodeInstruction::Test(..) => 2 + width_of(format),
        CodeInstruction::Act(_) | CodeInstruction::Go(_) => 2,
        CodeInstruction::End => 1,
    }
}

/// Whether an instruction ends an event.
fn is_end(step: CodeInstruction) -> bool
    ensures { result ≡ is_end (instruction_of step) }
{
    matches!(step, CodeInstruction::Go(_) | CodeInstruction::End)
}

/// Whether there is an entry.
fn has_entry(entries: &[Option<u32>]) -> bool
    ensures { result ≡ list_any is_some entries.now }
{
    entries.iter().any(|entry| entry.is_some())
}

/// Checks that the last instruction is an end. `begin` is the code's place in the image.
pub(crate) fn check_end(
    format: Format,
    scan: &Scan,
    entries: &[Option<u32>],
    begin: usize,
) -> Result<(), LoadFault>
    requires whole { scan.now.at ≡ length (code_of (format_of format) (read_in scan.now)) }
    requires small { begin + scan.now.at < 18446744073709551616 }
    ensures ok { OnOk result (IsEnded (read_in scan.now)) }
    ensures err { IfErr result (λ fault. EndWrong format (read_in scan.now) entries.now begin fault.at fault.code) }
{
    let code = ImageFault::NoEnd;
    match scan.steps.as_slice() {
        [] => {
            if has_entry(entries) {
                return Err(LoadFault { at: begin, code });
            }
        }
        [_before @ .., last] => {
            if !is_end(*last) {
                let at = begin + scan.at - size_of_step(format, *last);
                return Err(LoadFault { at, code });
            }
        }
    }
    Ok(())
}

/// Whether a jump may lead to an offset.
fn lands(marks: &[bool], offset: u32) -> bool
    ensures { result ≡ lands marks.now offset }
{
    marks.get(offset as usize).copied().unwrap_or(false)
}

/// Whether a failed guard leads where a jump may lead.
fn leads(marks: &[bool], step: CodeInstruction) -> bool
    ensures { result ≡ leads marks.now (instruction_of step) }
{
    match step {
        CodeInstruction::Test(_, otherwise) => lands(marks, otherwise),
        _ => true,
    }
}

/// Checks where failed guards lead.
pub(crate) fn check_guards(format: Format, scan: &Scan, begin: usize) -> Result<(), LoadFault>
    requires whole { scan.now.at ≡ length (code_of (format_of format) (read_in scan.now)) }
    requires small { begin + scan.now.at < 18446744073709551616 }
    requires marks { scan.now.landings.items ≡ landings format (read_in scan.now) }
    ensures ok { OnOk result (list_all (leads (landings format (read_in scan.now))) (read_in scan.now) ≡ true) }
    ensures err { IfErr result (λ fault. GuardWrong format (read_in scan.now) begin fault.at fault.code) }
{
    let mut at = 0;
    for step in scan.steps.as_slice() {
        if !leads(scan.landings.as_slice(), *step) {
            let at = begin + at;
            let code = ImageFault::Offset;
            return Err(LoadFault { at, code });
        }
        at += size_of_step(format, *step);
    }
    Ok(())
}

/// Whether an entry leads where a jump may lead.
fn is_entry(marks: &[bool], entry: Option<u32>) -> bool
    ensures { result ≡ is_entry marks.now entry }
{
    match entry {
        None => true,
        Some(offset) => lands(marks, offset),
    }
}

/// Checks where entries lead. They begin there in the image.
pub(crate) fn check_entries(
    format: Format,
    scan: &Scan,
    entries: &[Option<u32>],
    begin: usize,
) -> Result<(), LoadFault>
    requires small { begin + width_of format * length entries.now < 18446744073709551616 }
    requires marks { scan.now.landings.items ≡ landings format (read_in scan.now) }
    ensures ok { OnOk result (EntriesLead format (read_in scan.now) entries.now) }
    ensures err { IfErr result (λ fault. EntryWrong format (read_in scan.now) entries.now begin fault.at fault.code) }
{
    for number in 0..entries.len() {
        if !is_entry(scan.landings.as_slice(), entries[number]) {
            let code = ImageFault::Offset;
            let at = begin + width_of(format) * number;
            return Err(LoadFault { at, code });
        }
    }
    Ok(())
}
