//! Where connections stand.
ghost use Rattle.std.specs.Prelude.{◌≡◌, ◌++◌, OnOk};
ghost use Rattle.bench_show.specs.Lines.{line_text, lines_text};

use base_text::put_number;
use bench_core::Core;
use bench_script::{line_count, put_stands};
use std::alloc::AllocError;

/// Puts where a line stands, and how many octets it sent.
fn put_line(out: &mut Vec<u8>, core: &Core, line: u32) -> Result<(), AllocError>
    ensures { OnOk result (out.new.items ≡ out.old.items ++ line_text core.now line) }
{
    put_number(out, b"line ", u64::from(line))?;
    put_stands(out, core, core.line(line))?;
    put_number(out, b" sent ", core.sent(line).len() as u64)?;
    out.extend_from_slice(b"\n")
}

/// Puts each line that was opened behind what `out` holds, by number: `line N STATE sent OCTETS`, where it stands and
/// how many octets it sent. STATE is `open`, `closed` or `dialling HOST`.
pub fn put_line_states(out: &mut Vec<u8>, core: &Core) -> Result<(), AllocError>
    ensures { OnOk result (out.new.items ≡ out.old.items ++ lines_text core.now) }
{
    let count = line_count(core);
    'lines: for line in 0..count {
        put_line(out, core, line + 1)?;
    }
    Ok(())
}
