//! The code of an image, instruction by instruction.

ghost use Rattle.std.specs.Prelude.{◌≡◌, ◌++◌, ◌<◌, ◌+◌, ◌-◌, ◌≤◌, length, false, None, Some, OnOk, IfOk, IfErr};
ghost use Rattle.tab_load.specs.Code.{StandsAt, StepWrong, IsStepFine, marks_of, end_at};
ghost use Rattle.tab_load.specs.Code.{instruction_of, Fits, size_of, is_landing, landings, IsScanned};
ghost use Rattle.tab_load.specs.Code.{ScanWrong, IsOnly, IsRefusal, instruction_fault, octets_fault};

use crate::counts::{Counts, Format};
use crate::fault::{ImageFault, LoadError, fault_at};
use crate::instruction::{
    CodeInstruction, counted, instruction_fault, octets_fault, size_of, step_in,
};
use std::alloc::{AllocError, Global};

/// What is known of the code as far as it was read.
#[derive(Drop)]
pub struct Scan {
    /// How many octets were read.
    pub at: usize,
    pub steps: Vec<CodeInstruction>,
    /// For each octet that was read whether a jump may lead there.
    pub landings: Vec<bool>,
    /// How many actions stand behind the row that was begun last.
    pub count: Option<usize>,
}

/// Whether a jump may lead to an instruction.
fn is_landing(step: CodeInstruction) -> bool
    ensures { result ≡ is_landing (instruction_of step) }
{
    matches!(step, CodeInstruction::Begin(_) | CodeInstruction::End)
}

/// Notes for each octet of an instruction whether a jump may lead there.
fn put_landings(out: &mut Vec<bool>, step: CodeInstruction, size: usize) -> Result<(), AllocError>
    requires { 0 < size }
    ensures { OnOk result (out.new.items ≡ out.old.items ++ marks_of size (instruction_of step)) }
{
    out.push(is_landing(step))?;
    for _ in 0..size - 1 {
        out.push(false)?;
    }
    Ok(())
}

/// The next instruction of the code, or what is wrong with it.
fn read_step(
    format: Format,
    counts: &Counts,
    count: Option<usize>,
    code: &[u8],
    at: usize,
) -> Result<CodeInstruction, ImageFault>
    requires { at < length code.now }
    ensures octets { IfErr result (StepWrong format counts.now count code.now at) }
    ensures stands { IfOk result (λ step. StandsAt format code.now at (instruction_of step)) }
    ensures fits { IfOk result (λ step. Fits format (instruction_of step)) }
    ensures whole { OnOk result (end_at format code.now at ≤ length code.now) }
    ensures fine { IfOk result (λ step. IsStepFine format counts.now count code.now at (instruction_of step)) }
{
    let rest = &code[at..];
    if let Some(fault) = octets_fault(format, rest) {
        return Err(fault);
    }
    let step = step_in(format, rest);
    let behind = at + size_of(format, code[at]);
    match instruction_fault(counts, count, behind, step) {
        Some(fault) => Err(fault),
        None => Ok(step),
    }
}

/// Reads the next instruction of the code. `begin` is the code's place in its image, `whole` the image's length.
fn read_next(
    scan: &mut Scan,
    format: Format,
    counts: &Counts,
    code: &[u8],
    begin: usize,
    whole: usize,
) -> Result<(), LoadError>
    requires scanned { IsScanned format counts.now code.now scan.old }
    requires more { scan.old.at < length code.now }
    requires within { begin + length code.now ≤ whole }
    ensures ok { OnOk result (IsScanned format counts.now code.now scan.new) }
    ensures forward { OnOk result (scan.old.at < scan.new.at) }
    ensures err { IfErr result (IsRefusal (ScanWrong format counts.now code.now begin whole)) }
{
    let step = match read_step(format, counts, scan.count, code, scan.at) {
        Ok(step) => step,
        Err(fault) => return Err(LoadError::Refused(fault_at(fault, begin + scan.at, whole))),
    };
    let size = size_of(format, code[scan.at]);
    put_landings(&mut scan.landings, step, size)?;
    scan.steps.push(step)?;
    scan.count = counted(scan.count, step);
    scan.at += size;
    Ok(())
}

/// Reads the instructions of the code.
pub(crate) fn read_code(
    alloc: Global,
    format: Format,
    counts: &Counts,
    code: &[u8],
    begin: usize,
    whole: usize,
) -> Result<Scan, LoadError>
    requires within { begin + length code.now ≤ whole }
    ensures ok { IfOk result (λ scan. IsScanned format counts.now code.now scan) }
    ensures end { IfOk result (λ scan. scan.at ≡ length code.now) }
    ensures err { IfErr result (IsRefusal (ScanWrong format counts.now code.now begin whole)) }
    ensures only { IfErr result (IsRefusal (IsOnly (ScanWrong format counts.now code.now begin whole))) }
{
    let mut scan = Scan {
        at: 0,
        steps: Vec::new(alloc),
        landings: Vec::new(alloc),
        count: None,
    };
    while scan.at < code.len() {
        read_next(&mut scan, format, counts, code, begin, whole)?;
    }
    Ok(scan)
}
