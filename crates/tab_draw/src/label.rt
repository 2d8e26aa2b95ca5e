//! What is written at a row: its number, the kind of its events and its guards.
ghost use Rattle.std.specs.Prelude.{◌≡◌, ◌++◌, ◌<◌, length, All, OnOk};
ghost use Rattle.std.specs.List.{flat_map};
ghost use Rattle.tab_text.specs.Contents.{IsRowOf};
ghost use Rattle.tab_text.specs.Rows.{name_at};
ghost use Rattle.tab_draw.specs.Labels.{and_guard, guards_text, label};

use base_text::put_number;
use std::alloc::AllocError;
use tab_text::{NameList, Row, Table};

/// The name of that number.
pub(crate) fn name_of<'a>(names: &'a NameList, number: u8) -> &'a [u8]
    requires { number < length names.now }
    ensures { result.now ≡ name_at names.now number }
{
    names.as_slice()[number as usize].as_slice()
}

/// Puts each of the guards behind the first.
fn put_rest(out: &mut Vec<u8>, names: &NameList, guards: &[u8]) -> Result<(), AllocError>
    requires { All (λ guard. guard < length names.now) guards.now }
    ensures { OnOk result (out.new.items ≡ out.old.items ++ flat_map (and_guard names.now) guards.now) }
{
    for guard in guards {
        out.extend_from_slice(b" and ")?;
        out.extend_from_slice(name_of(names, *guard))?;
    }
    Ok(())
}

/// Puts the guards of a row.
fn put_guards(out: &mut Vec<u8>, names: &NameList, guards: &[u8]) -> Result<(), AllocError>
    requires { All (λ guard. guard < length names.now) guards.now }
    ensures { OnOk result (out.new.items ≡ out.old.items ++ guards_text names.now guards.now) }
{
    match guards {
        [] => Ok(()),
        [first, rest @ ..] => {
            out.extend_from_slice(b" [")?;
            out.extend_from_slice(name_of(names, *first))?;
            put_rest(out, names, rest)?;
            out.extend_from_slice(b"]")
        }
    }
}

/// Puts the label of the row of that number.
#[tactic(auto, unfolding(crate::specs::Labels::label))]
pub(crate) fn put_label(
    out: &mut Vec<u8>,
    table: &Table,
    number: usize,
    row: &Row,
) -> Result<(), AllocError>
    requires { IsRowOf table.now row.now }
    ensures { OnOk result (out.new.items ≡ out.old.items ++ label table.now (number, row.now)) }
{
    put_number(out, b"", number as u64)?;
    out.extend_from_slice(b" ")?;
    out.extend_from_slice(name_of(table.kinds(), row.kind))?;
    put_guards(out, table.guards(), row.guards.as_slice())
}
