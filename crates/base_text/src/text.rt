//! Numbers and octets as text, put behind what a buffer holds.
ghost use Rattle.std.specs.Prelude.{◌≡◌, ◌<◌, ◌≤◌, ◌*◌, ◌++◌, OnOk, length, take, slice_index, decimal};
ghost use Rattle.hex.specs.Hex.{encode_lower, lower_digits};
ghost use Rattle.base_text.specs.Contents.{content_text};

use std::alloc::AllocError;

/// How many octets are written at once.
const CHUNK: usize = 64;

// Puts a number in decimal.
fn put_decimal(out: &mut Vec<u8>, number: u64) -> Result<(), AllocError>
    ensures { OnOk result (out.new.items ≡ out.old.items ++ decimal number) }
{
    let mut digits = itoa::Buffer::new();
    out.extend_from_slice(digits.format(number).as_bytes())
}

/// Puts a label and a number in decimal.
// Where it is called the label's length is known, so that it is copied without a call.
#[inline(always)]
pub fn put_number(out: &mut Vec<u8>, label: &[u8], number: u64) -> Result<(), AllocError>
    ensures { OnOk result (out.new.items ≡ out.old.items ++ label.now ++ decimal number) }
{
    out.extend_from_slice(label)?;
    put_decimal(out, number)
}

// The digit of a value below 16, in lower case. No table is read, so that many digits are made in one step.
#[inline(always)]
fn digit(value: u8) -> u8
    requires { value < 16 }
    ensures { result ≡ slice_index lower_digits value }
{
    if value < 10 { value + 48 } else { value + 87 }
}

// Puts the digits of octets at the front of a room, two for each.
fn put_digits(octets: &[u8], room: &mut [u8])
    requires { 2 * length octets.now ≤ length room.old }
    ensures { take (2 * length octets.now) room.new ≡ encode_lower octets.now }
{
    for place in 0..octets.len() {
        let octet = octets[place];
        room[2 * place] = digit(octet / 16);
        room[2 * place + 1] = digit(octet % 16);
    }
}

/// Puts at most `CHUNK` octets in hexadecimal.
fn put_chunk(out: &mut Vec<u8>, octets: &[u8]) -> Result<(), AllocError>
    requires { length octets.now ≤ CHUNK }
    ensures { OnOk result (out.new.items ≡ out.old.items ++ encode_lower octets.now) }
{
    let mut room = [0u8; 2 * CHUNK];
    let text = &mut room[..2 * octets.len()];
    put_digits(octets, text);
    out.extend_from_slice(text)
}

/// Puts octets in hexadecimal, two digits each, in lower case.
pub fn put_hex(out: &mut Vec<u8>, octets: &[u8]) -> Result<(), AllocError>
    ensures { OnOk result (out.new.items ≡ out.old.items ++ encode_lower octets.now) }
{
    let mut at = 0;
    'chunks: while at < octets.len() {
        let end = at + (octets.len() - at).min(CHUNK);
        put_chunk(out, &octets[at..end])?;
        at = end;
    }
    Ok(())
}

/// Puts octets in hexadecimal behind one blank, and nothing where there are none.
pub fn put_content(out: &mut Vec<u8>, octets: &[u8]) -> Result<(), AllocError>
    ensures { OnOk result (out.new.items ≡ out.old.items ++ content_text octets.now) }
{
    if octets.is_empty() {
        return Ok(());
    }
    out.extend_from_slice(b" ")?;
    put_hex(out, octets)
}
