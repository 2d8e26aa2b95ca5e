//! Texts put into a room, one behind the other: whole lines are made there, so that a buffer grows once a line.
ghost use Rattle.std.specs.Prelude.{◌≡◌, ◌<◌, ◌≤◌, ◌+◌, ◌*◌, length, take, decimal, slice_index};
ghost use Rattle.hex.specs.Hex.{encode_lower, lower_digits};
ghost use Rattle.msg_text.specs.Rooms.{Puts};

/// How many digits a number of 64 bits has at most.
pub(crate) const DIGITS: usize = 20;

/// Puts octets at a place, and says where they end.
#[inline(always)]
pub(crate) fn put(room: &mut [u8], at: usize, octets: &[u8]) -> usize
    requires { at + length octets.now ≤ length room.old }
    ensures puts { Puts room.old room.new at result octets.now }
    ensures end { result ≡ at + length octets.now }
    ensures len { length room.new ≡ length room.old }
{
    let end = at + octets.len();
    room[at..end].copy_from_slice(octets);
    end
}

// Puts the digits of a number at a place, and says where they end.
fn put_digits(room: &mut [u8], at: usize, number: u64) -> usize
    requires { at + length (decimal number) ≤ length room.old }
    ensures puts { Puts room.old room.new at result (decimal number) }
    ensures end { result ≡ at + length (decimal number) }
    ensures len { length room.new ≡ length room.old }
{
    if number < 10 {
        room[at] = number as u8 + b'0';
        return at + 1;
    }
    let end = put_digits(room, at, number / 10);
    room[end] = (number % 10) as u8 + b'0';
    end + 1
}

/// Puts a number in decimal at a place, and says where it ends.
#[inline(always)]
pub(crate) fn put_number(room: &mut [u8], at: usize, number: u64) -> usize
    requires { at + DIGITS ≤ length room.old }
    ensures puts { Puts room.old room.new at result (decimal number) }
    ensures end { result ≤ at + DIGITS }
    ensures len { length room.new ≡ length room.old }
{
    put_digits(room, at, number)
}

// The digit of a value below 16, in lower case. No table is read, so that many digits are made in one step.
#[inline(always)]
fn digit(value: u8) -> u8
    requires { value < 16 }
    ensures { result ≡ slice_index lower_digits value }
{
    if value < 10 { value + 48 } else { value + 87 }
}

// Fills a room with the digits of octets, two for each.
#[inline(always)]
fn fill_hex(room: &mut [u8], octets: &[u8])
    requires { length room.old ≡ 2 * length octets.now }
    ensures text { take (2 * length octets.now) room.new ≡ encode_lower octets.now }
    ensures len { length room.new ≡ length room.old }
{
    for place in 0..octets.len() {
        let octet = octets[place];
        room[2 * place] = digit(octet / 16);
        room[2 * place + 1] = digit(octet % 16);
    }
}

/// Puts octets in hexadecimal at a place, two digits each, in lower case, and says where they end.
pub(crate) fn put_hex(room: &mut [u8], at: usize, octets: &[u8]) -> usize
    requires { at + 2 * length octets.now ≤ length room.old }
    ensures puts { Puts room.old room.new at result (encode_lower octets.now) }
    ensures end { result ≡ at + 2 * length octets.now }
    ensures len { length room.new ≡ length room.old }
{
    let end = at + 2 * octets.len();
    fill_hex(&mut room[at..end], octets);
    end
}
