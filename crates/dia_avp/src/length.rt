//! How long AVPs are where they are written.

ghost use Rattle.std.specs.Prelude.{◌≡◌, ◌+◌, ◌<◌, ◌≤◌, ◌^◌, length, IsTrue, false, All};
ghost use Rattle.std.specs.Option.{SomeIff};
ghost use Rattle.dia_avp.specs.View.{seen};
ghost use Rattle.dia_avp.specs.Encoding.{length_of, encoded, encoding, HasLong};

use crate::avp::{Avp, AvpView};
use crate::avp_list::AvpList;
use base_codes::{AVP_HEADER_LEN, AVP_VENDOR_HEADER_LEN, MAX_LENGTH};

/// The AVP Length: header, Vendor-ID and data.
#[tactic(auto, unfolding(crate::specs::Encoding::length_of))]
pub(crate) fn length_of(avp: &AvpView<'_>) -> usize
    ensures is { result ≡ length_of (seen avp.now) }
    ensures small { result < 2 ^ 63 + 16 }
{
    let header = match avp.vendor {
        None | Some(0) => AVP_HEADER_LEN,
        Some(_) => AVP_VENDOR_HEADER_LEN,
    };
    header + avp.octets.len()
}

impl<'a> AvpView<'a> {
    /// How many octets the encoding of the AVP has, with its padding.
    #[tactic(auto, using(crate::proofs::Encoded::length_encoded))]
    pub fn encoded_len(&self) -> usize
        ensures { result ≡ length (encoded (seen self.now)) }
    {
        length_of(self).div_ceil(4) * 4
    }
}

/// How many octets the encoding of the AVPs has, where a `usize` can hold the number.
pub(crate) fn encoded_len_of(avps: &[Avp]) -> Option<usize>
    ensures { SomeIff result (length (encoding avps.now) < 2 ^ 64) (length (encoding avps.now)) }
{
    let mut sum: usize = 0;
    for avp in avps {
        sum = sum.checked_add(avp.view().encoded_len())?;
    }
    Some(sum)
}

impl AvpList {
    /// How many octets the encoding of the AVPs has, with all padding; none where a `usize` can't hold the number.
    pub fn encoded_len(&self) -> Option<usize>
        ensures { SomeIff result (length (encoding self.now) < 2 ^ 64) (length (encoding self.now)) }
    {
        encoded_len_of(self.as_slice())
    }
}

/// Whether the AVP is too long for 24 bits of length.
pub(crate) fn is_long(avp: &AvpView<'_>) -> bool
    ensures long { IsTrue result → 2 ^ 24 ≤ length_of (seen avp.now) }
    ensures short { result ≡ false → length_of (seen avp.now) < 2 ^ 24 }
{
    length_of(avp) > MAX_LENGTH
}

/// Whether one of the AVPs is.
pub(crate) fn has_long(avps: &[Avp]) -> bool
    ensures long { IsTrue result → HasLong avps.now }
    ensures short { result ≡ false → All (λ a. length_of a < 2 ^ 24) avps.now }
{
    avps.iter().any(|avp| is_long(&avp.view()))
}
