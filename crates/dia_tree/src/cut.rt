//! Octets of which some may be missing: those count as zero.

ghost use Rattle.std.specs.Prelude.{◌≡◌, ◌≤◌, slice_index, drop};
ghost use Rattle.byteorder.specs.Endian.{big_number};
ghost use Rattle.dia_avp.specs.View.{seen};
ghost use Rattle.dia_tree.specs.Faults.{cut_avp as cut_header};

use byteorder::{BigEndian, ByteOrder};
use dia_avp::AvpView;

/// The octet at a place, 0 where it is missing.
pub fn octet_at(octets: &[u8], place: usize) -> u8
    ensures { result ≡ slice_index octets.now place }
{
    octets.get(place).copied().unwrap_or(0)
}

/// The number that the four octets from a place on are; octets that are missing count as zero.
pub fn number_at(octets: &[u8], place: usize) -> u32
    requires { place ≤ 8 }
    ensures { result ≡ big_number 4 (drop place octets.now) }
{
    BigEndian::read_u32(&[
        octet_at(octets, place),
        octet_at(octets, place + 1),
        octet_at(octets, place + 2),
        octet_at(octets, place + 3),
    ])
}

/// The header of an AVP that may be cut off, without data.
pub fn cut_avp<'a>(octets: &[u8]) -> AvpView<'a>
    ensures { seen result ≡ cut_header octets.now }
{
    let flags = octet_at(octets, 4);
    let vendor = match number_at(octets, 8) {
        id if flags & 0x80 != 0 && id != 0 => Some(id),
        _ => None,
    };
    AvpView {
        code: number_at(octets, 0),
        vendor,
        mandatory: flags & 0x40 != 0,
        protected: flags & 0x20 != 0,
        octets: &[],
    }
}
