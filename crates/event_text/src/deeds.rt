//! What is printed of deeds: a line each, the deed's name or code and its arguments.
ghost use Rattle.std.specs.Prelude.{◌≡◌, ◌++◌, OnOk, codes, decimal};
ghost use Rattle.std.specs.List.{flat_map};
ghost use Rattle.std.specs.Option.{option_map};
ghost use Rattle.event_text.specs.Deeds.{deed_line, deed_name, deed_words, name_or, without_last_zeros};

use base_codes::DeedCode;
use base_text::put_number;
use std::alloc::AllocError;
use tab_law::Deed;

/// The name of the deed with this code.
fn deed_name(code: u16) -> Option<&'static [u8]>
    ensures { option_map (λ name. name.now) result ≡ deed_name code }
{
    match DeedCode::coded(code) {
        Some(deed) => Some(deed.name().as_bytes()),
        None => None,
    }
}

/// A name behind a label, or the number where there is none.
pub fn put_name(
    out: &mut Vec<u8>,
    label: &[u8],
    name: Option<&[u8]>,
    number: u64,
) -> Result<(), AllocError>
    ensures { OnOk result (out.new.items
        ≡ out.old.items ++ label.now ++ name_or (option_map (λ name. name.now) name.entry) number) }
{
    match name {
        Some(name) => {
            out.extend_from_slice(label)?;
            out.extend_from_slice(name)
        }
        None => put_number(out, label, number),
    }
}

/// The values up to the last that isn't 0.
fn without_last_zeros(values: &[u64]) -> &[u64]
    ensures { result.now ≡ without_last_zeros values.now }
{
    let mut end = values.len();
    while end > 0 {
        if values[end - 1] != 0 {
            return &values[..end];
        }
        end -= 1;
    }
    &values[..0]
}

/// Each value behind a blank.
fn put_values(out: &mut Vec<u8>, values: &[u64]) -> Result<(), AllocError>
    ensures { OnOk result (out.new.items ≡ out.old.items ++ flat_map (λ value. codes " " ++ decimal value) values.now) }
{
    for value in values {
        put_number(out, b" ", *value)?;
    }
    Ok(())
}

/// A deed behind a label: its name or else its code, and its arguments up to the last that isn't 0.
pub fn put_deed_words(out: &mut Vec<u8>, label: &[u8], deed: &Deed) -> Result<(), AllocError>
    ensures { OnOk result (out.new.items ≡ out.old.items ++ label.now ++ deed_words deed.now) }
{
    put_name(out, label, deed_name(deed.code), u64::from(deed.code))?;
    put_values(out, without_last_zeros(&deed.a))
}

/// A deed on a line of its own, behind two blanks.
pub fn put_deed(out: &mut Vec<u8>, deed: &Deed) -> Result<(), AllocError>
    ensures { OnOk result (out.new.items ≡ out.old.items ++ deed_line deed.now) }
{
    put_deed_words(out, b"  ", deed)?;
    out.extend_from_slice(b"\n")
}

/// Each deed on a line of its own.
pub fn put_deeds(out: &mut Vec<u8>, deeds: &[Deed]) -> Result<(), AllocError>
    ensures { OnOk result (out.new.items ≡ out.old.items ++ flat_map deed_line deeds.now) }
{
    for deed in deeds {
        put_deed(out, deed)?;
    }
    Ok(())
}
