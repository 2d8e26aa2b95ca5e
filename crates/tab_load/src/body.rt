//! What stands behind the names: the entries, the code's length and the code.

ghost use Rattle.std.specs.Prelude.{◌≡◌, ◌++◌, ◌+◌, ◌*◌, ◌≤◌, ◌<◌, drop, take, length};
ghost use Rattle.std.specs.Prelude.{All, IfOk, IfErr, OnOk, Option, Some, None};
ghost use Rattle.std.specs.List.{flat_map};
ghost use Rattle.tab_asm.specs.Images.{offset_octets};
ghost use Rattle.tab_load.specs.Faults.{format_of, width_of, code_limit};
ghost use Rattle.tab_load.specs.Code.{IsRefusal};
ghost use Rattle.tab_load.specs.Loading.{IsOffset, EntriesOf, CutWrong, CodeWrong, IsSoundCode};
ghost use Rattle.tab_load.specs.declared.fault.LoadError.TheVariants.{Refused};
ghost use Rattle.tab_load.specs.declared.fault.ImageFault.TheVariants.{Cut};

use crate::checks::{check_end, check_entries, check_guards};
use crate::counts::{Counts, Format, width_of};
use crate::fault::{ImageFault, LoadError, fault_at};
use crate::instruction::offset_in;
use crate::scan::read_code;
use std::alloc::{AllocError, Global};

/// The entries of an image, and how long its code is.
#[derive(Drop)]
pub(crate) struct Body {
    pub entries: Vec<Option<u32>>,
    pub size: usize,
}

/// The entry at a place of the image.
fn read_entry(format: Format, octets: &[u8], at: usize) -> Option<u32>
    requires { at + width_of format ≤ length octets.now }
    ensures stands { drop at octets.now ≡ offset_octets (format_of format) result
        ++ drop (width_of format) (drop at octets.now) }
    ensures fits { IsOffset format result }
{
    let offset = offset_in(format, &octets[at..]);
    let none = match format {
        Format::One => 65_535,
        Format::Two => u32::MAX,
    };
    if offset == none { None } else { Some(offset) }
}

/// So many entries, which begin there in the image.
fn read_entries(
    alloc: Global,
    format: Format,
    octets: &[u8],
    begin: usize,
    count: usize,
) -> Result<Vec<Option<u32>>, AllocError>
    requires { begin + width_of format * count ≤ length octets.now }
    ensures many { IfOk result (λ entries. length entries.items ≡ count) }
    ensures fits { IfOk result (λ entries. All (IsOffset format) entries.items) }
    ensures front { IfOk result (λ entries. take (begin + width_of format * count) octets.now
        ≡ take begin octets.now ++ flat_map (offset_octets (format_of format)) entries.items) }
{
    let mut entries = Vec::new(alloc);
    let mut at = begin;
    for _ in 0..count {
        entries.push(read_entry(format, octets, at))?;
        at += width_of(format);
    }
    Ok(entries)
}

/// The entries, which begin there in the image, and how long the code is, all of which is there.
pub(crate) fn read_body(
    alloc: Global,
    format: Format,
    octets: &[u8],
    begin: usize,
    count: usize,
) -> Result<Body, LoadError>
    requires inside { begin ≤ length octets.now }
    requires small { count ≤ 65536 }
    ensures ok { IfOk result (λ body. EntriesOf format octets.now begin count body.entries.items body.size) }
    ensures whole { IfOk result (λ b. begin + width_of format * count + width_of format + b.size ≤ length octets.now) }
    ensures short { IfOk result (λ body. body.size < code_limit format) }
    ensures err { IfErr result (IsRefusal (CutWrong format octets.now begin count)) }
{
    let width = width_of(format);
    let table = width * count;
    if octets.len() - begin < table + width {
        let cut = fault_at(ImageFault::Cut, begin, octets.len());
        return Err(LoadError::Refused(cut));
    }
    let entries = read_entries(alloc, format, octets, begin, count)?;
    let size = offset_in(format, &octets[begin + table..]) as usize;
    if octets.len() - begin - table - width < size {
        let cut = fault_at(ImageFault::Cut, begin, octets.len());
        return Err(LoadError::Refused(cut));
    }
    Ok(Body { entries, size })
}

/// Checks the code. It and the entries begin there in an image of that length.
pub(crate) fn check_code(
    alloc: Global,
    format: Format,
    counts: &Counts,
    code: &[u8],
    entries: &[Option<u32>],
    begin: usize,
    table: usize,
    whole: usize,
) -> Result<(), LoadError>
    requires within { begin + length code.now ≤ whole }
    requires behind { table + width_of format * length entries.now ≤ begin }
    ensures ok { OnOk result (IsSoundCode format counts.now code.now entries.now) }
    ensures err { IfErr result (IsRefusal (CodeWrong format counts.now code.now entries.now begin table whole)) }
{
    let scan = read_code(alloc, format, counts, code, begin, whole)?;
    check_end(format, &scan, entries, begin)?;
    check_guards(format, &scan, begin)?;
    check_entries(format, &scan, entries, table)?;
    Ok(())
}
