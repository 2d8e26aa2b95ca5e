//! The lines of an input that comes piece by piece.
ghost use Rattle.std.specs.Prelude.{◌++◌, ◌∷◌, [], IfOk, List, OnOk, ℕ};
ghost use Rattle.base_dialog.specs.Lines.{IsCut, IsLine};

use base_list::Octets;
use std::alloc::{AllocError, Global};

/// Takes an octet behind the line that is begun: a newline ends it.
fn take_octet(
    alloc: Global,
    lines: &mut Vec<Octets>,
    begun: &mut Vec<u8>,
    octet: u8,
) -> Result<(), AllocError>
    ensures { OnOk result ((text : List ℕ) → IsCut text lines.old.items begun.old.items
        → IsCut (text ++ octet ∷ []) lines.new.items begun.new.items) }
{
    if octet != b'\n' {
        return Ok(begun.push(octet)?);
    }
    lines.push(Octets::from_slice(alloc, begun)?)?;
    begun.clear();
    Ok(())
}

/// Takes a piece of an input behind the line that is begun, and hands out the lines that it ends.
pub(crate) fn take_lines(
    alloc: Global,
    begun: &mut Vec<u8>,
    piece: &[u8],
) -> Result<Vec<Octets>, AllocError>
    requires { IsLine begun.old.items }
    ensures { IfOk result (λ lines. IsCut (begun.old.items ++ piece.now) lines.items begun.new.items) }
{
    let mut lines = Vec::new(alloc);
    'octets: for octet in piece {
        take_octet(alloc, &mut lines, begun, *octet)?;
    }
    Ok(lines)
}
