//! What a program's image holds, in words: its entries and its instructions.
ghost use Rattle.std.specs.Prelude.{◌≡◌, ◌++◌, ◌<◌, length, OnOk, IfOk};
ghost use Rattle.tab_load.specs.Code.{instruction_of};
ghost use Rattle.tab_load.specs.Loading.{IsLoaded};
ghost use Rattle.tab_step.specs.Moves.{name_at};
ghost use Rattle.image_text.specs.Listings.{IsListing, IsCodeListing, entries_text};
ghost use Rattle.image_text.specs.Listings.{entry_text, instruction_text, line_text};

use base_list::Octets;
use base_text::put_number;
use std::alloc::{AllocError, Global};
use tab_law::LawBook;
use tab_load::{CodeInstruction, Program, size_of_step, step_in};

/// Puts a label and the name of that number.
fn put_named(
    out: &mut Vec<u8>,
    label: &[u8],
    names: &[Octets],
    number: usize,
) -> Result<(), AllocError>
    ensures { OnOk result (out.new.items ≡ out.old.items ++ label.now ++ name_at names.now number) }
{
    out.extend_from_slice(label)?;
    match names.get(number) {
        Some(name) => out.extend_from_slice(name.as_slice()),
        None => Ok(()),
    }
}

/// Puts an entry, if it has an offset: its state, its kind of events and the offset.
fn put_entry(out: &mut Vec<u8>, program: &Program, number: usize) -> Result<(), AllocError>
    requires kinds { 0 < length program.now.image.kinds }
    requires entry { number < length program.now.image.entries }
    ensures { OnOk result (out.new.items ≡ out.old.items ++ entry_text program.now.image number) }
{
    let Some(offset) = program.entries()[number] else {
        return Ok(());
    };
    let kinds = program.names().kinds.names.as_slice();
    put_named(
        out,
        b"",
        program.names().states.names.as_slice(),
        number / kinds.len(),
    )?;
    put_named(out, b" ", kinds, number % kinds.len())?;
    put_number(out, b" ", u64::from(offset))?;
    out.extend_from_slice(b"\n")
}

/// Puts the entries that have offsets, in order.
fn put_entries(out: &mut Vec<u8>, program: &Program, book: &LawBook) -> Result<(), AllocError>
    requires { IsLoaded book.now program.now }
    ensures { OnOk result (out.new.items ≡ out.old.items ++ entries_text program.now.image) }
{
    for number in 0..program.entries().len() {
        put_entry(out, program, number)?;
    }
    Ok(())
}

/// Puts an instruction: its operation, and its operands by name or number.
fn put_step(out: &mut Vec<u8>, program: &Program, step: CodeInstruction) -> Result<(), AllocError>
    ensures { OnOk result (out.new.items ≡ out.old.items ++ instruction_text program.now.image (instruction_of step)) }
{
    match step {
        CodeInstruction::Begin(row) => put_number(out, b"ROW ", u64::from(row)),
        CodeInstruction::Test(guard, otherwise) => {
            put_named(
                out,
                b"GUARD ",
                program.names().guards.names.as_slice(),
                guard as usize,
            )?;
            put_number(out, b" ", u64::from(otherwise))
        }
        CodeInstruction::Act(action) => put_named(
            out,
            b"ACT ",
            program.names().actions.names.as_slice(),
            action as usize,
        ),
        CodeInstruction::Go(state) => put_named(
            out,
            b"GOTO ",
            program.names().states.names.as_slice(),
            state as usize,
        ),
        CodeInstruction::End => out.extend_from_slice(b"NONE"),
    }
}

/// Puts the line of an instruction at that offset.
fn put_line(
    out: &mut Vec<u8>,
    program: &Program,
    at: usize,
    step: CodeInstruction,
) -> Result<(), AllocError>
    ensures { OnOk result (out.new.items ≡ out.old.items ++ line_text program.now.image at (instruction_of step)) }
{
    put_number(out, b"", at as u64)?;
    out.extend_from_slice(b" ")?;
    put_step(out, program, step)?;
    out.extend_from_slice(b"\n")
}

/// Puts the instructions, one behind the other.
fn put_code(out: &mut Vec<u8>, program: &Program, book: &LawBook) -> Result<(), AllocError>
    requires { IsLoaded book.now program.now }
    ensures { OnOk result (IsCodeListing program.now out.old.items out.new.items) }
{
    let code = program.code();
    let format = program.format();
    let mut at = 0;
    'instructions: while at < code.len() {
        let step = step_in(format, &code[at..]);
        put_line(out, program, at, step)?;
        at += size_of_step(format, step);
    }
    Ok(())
}

/// The listing of a program that was loaded with this book.
pub(crate) fn listing(
    alloc: Global,
    program: &Program,
    book: &LawBook,
) -> Result<Vec<u8>, AllocError>
    requires { IsLoaded book.now program.now }
    ensures { IfOk result (λ text. IsListing program.now text.items) }
{
    let mut text = Vec::new(alloc);
    put_entries(&mut text, program, book)?;
    put_code(&mut text, program, book)?;
    Ok(text)
}
