//! The image of a table.
ghost use Rattle.std.specs.Prelude.{◌≡◌, ◌<◌, ◌++◌, All, length, map, OnOk, IfOk};
ghost use Rattle.std.specs.List.{flat_map, range_with_len};
ghost use Rattle.std.specs.Int.{w16, to_be_bytes};
ghost use Rattle.tab_asm.specs.Formats.{format_2};
ghost use Rattle.tab_asm.specs.Images.{counts, name_octets, names, offset_octets, image_octets};
ghost use Rattle.tab_asm.specs.Assembled.{code_to, entry_offset, entry_count, image_of, Means};

use crate::code::put_entry;
use std::alloc::{AllocError, Global};
use tab_step::Bound;
use tab_text::{NameList, Table};

/// The octets that images of format 2 begin with.
const MAGIC: [u8; 4] = [68, 84, 73, 50];

/// The entries of a table's image and its code.
#[derive(Drop)]
struct Coded {
    entries: Vec<u8>,
    code: Vec<u8>,
}

/// Puts a count in two octets.
fn put_count(out: &mut Vec<u8>, count: usize) -> Result<(), AllocError>
    requires { count < 65536 }
    ensures { OnOk result (out.new.items ≡ out.old.items ++ to_be_bytes w16 count) }
{
    out.extend_from_slice(&(count as u16).to_be_bytes())?;
    Ok(())
}

/// Puts how many states, kinds, guards, actions and rows there are.
fn put_counts(out: &mut Vec<u8>, table: &Table) -> Result<(), AllocError>
    ensures { OnOk result (out.new.items ≡ out.old.items ++ counts (image_of table.now)) }
{
    put_count(out, table.states().as_slice().len())?;
    put_count(out, table.kinds().as_slice().len())?;
    put_count(out, table.guards().as_slice().len())?;
    put_count(out, table.actions().as_slice().len())?;
    put_count(out, table.rows().len())
}

/// Puts names, each behind its length.
fn put_names(out: &mut Vec<u8>, names: &NameList) -> Result<(), AllocError>
    requires { All (λ name. length name < 256) names.now }
    ensures { OnOk result (out.new.items ≡ out.old.items ++ flat_map name_octets names.now) }
{
    for name in names.as_slice() {
        out.push(name.len() as u8)?;
        out.extend_from_slice(name.as_slice())?;
    }
    Ok(())
}

/// Puts the names of a table.
fn put_all_names(out: &mut Vec<u8>, table: &Table) -> Result<(), AllocError>
    ensures { OnOk result (out.new.items ≡ out.old.items ++ names (image_of table.now)) }
{
    let _rows = table.rows();
    put_names(out, table.states())?;
    put_names(out, table.kinds())?;
    put_names(out, table.guards())?;
    put_names(out, table.actions())
}

/// Puts an offset, or what stands for none.
fn put_offset(out: &mut Vec<u8>, offset: Option<u32>) -> Result<(), AllocError>
    ensures { OnOk result (out.new.items ≡ out.old.items ++ offset_octets format_2 offset) }
{
    let number = offset.unwrap_or(u32::MAX);
    out.extend_from_slice(&number.to_be_bytes())?;
    Ok(())
}

/// The entries of a table, state by state and in each kind by kind, and their code.
fn code_entries(alloc: Global, table: &Table) -> Result<Coded, AllocError>
    ensures code { IfOk result (λ coded. coded.code.items ≡ code_to table.now (entry_count table.now)) }
    ensures entries { IfOk result (λ coded. coded.entries.items
        ≡ flat_map (offset_octets format_2) (map (entry_offset table.now) (range_with_len 0 (entry_count table.now)))) }
    ensures few { IfOk result (λ coded. length coded.code.items < 4294967296) }
{
    let count = table.states().as_slice().len() * table.kinds().as_slice().len();
    let mut entries = Vec::new(alloc);
    let mut code = Vec::new(alloc);
    for entry in 0..count {
        let offset = put_entry(&mut code, table, entry)?;
        put_offset(&mut entries, offset)?;
    }
    Ok(Coded { entries, code })
}

/// The octets of a table's image.
#[tactic(auto, unfolding(crate::specs::Images::image_octets))]
fn image(alloc: Global, table: &Table) -> Result<Vec<u8>, AllocError>
    ensures { IfOk result (λ octets. octets.items ≡ image_octets format_2 (image_of table.now)) }
{
    let coded = code_entries(alloc, table)?;
    let mut out = Vec::new(alloc);
    out.extend_from_slice(&MAGIC)?;
    put_counts(&mut out, table)?;
    put_all_names(&mut out, table)?;
    out.extend_from_slice(coded.entries.as_slice())?;
    out.extend_from_slice(&(coded.code.len() as u32).to_be_bytes())?;
    out.extend_from_slice(coded.code.as_slice())?;
    Ok(out)
}

/// The image of a bound table, in format 2. A table within its limits always has one, so only memory can be wanting.
///
/// In each state, at each kind of events and whatever the guards answer, the image leads to the first row of the
/// table that matches, with that row's actions.
pub fn assemble(alloc: Global, bound: &Bound) -> Result<Vec<u8>, AllocError>
    ensures octets { IfOk result (λ octets. octets.items ≡ image_octets format_2 (image_of bound.now.table)) }
    ensures means { Means (image_of bound.now.table) bound.now.table }
{
    let _rows = bound.table().rows();
    image(alloc, bound.table())
}
