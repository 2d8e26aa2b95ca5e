//! Faults whose failed AVP is a header and zeros of the least size of its type (RFC 6733 section 7.5).

ghost use Rattle.std.specs.Prelude.{◌≡◌, ◌≤◌};
ghost use Rattle.dia_avp.specs.View.{seen};
ghost use Rattle.dia_dict.specs.Dictionary.{known};
ghost use Rattle.dia_tree.specs.View.{seen_fault};
ghost use Rattle.dia_tree.specs.Faults.{zeros as with_zeros, zeroed as with_least_zeros};
ghost use Rattle.dia_tree.specs.Faults.{broken_fault as fault_of_broken, missing_fault as fault_of_missing};

use crate::cut::cut_avp;
use crate::fault::FaultView;
use base_codes::ResultCode;
use dia_avp::AvpView;
use dia_dict::Dictionary;

/// As many zeros as the greatest least size of a type.
const ZEROS: [u8; 8] = [0; 8];

/// An AVP with so many zeros as its data.
pub(crate) fn zeros<'a>(size: usize, avp: &AvpView<'a>) -> AvpView<'a>
    requires { size ≤ 8 }
    ensures { seen result ≡ with_zeros size (seen avp.now) }
{
    AvpView {
        octets: &ZEROS[..size],
        ..*avp
    }
}

// An AVP's header with zeros of the least size of its type, none where the type is unknown.
fn zeroed<'a>(dictionary: &Dictionary, avp: &AvpView<'a>) -> AvpView<'a>
    ensures { seen result ≡ with_least_zeros (known dictionary.now) (seen avp.now) }
{
    match dictionary.find(avp.code, avp.vendor) {
        None => zeros(0, avp),
        Some(definition) => zeros(definition.kind.least_size(), avp),
    }
}

/// The fault of an AVP whose length is broken.
#[cold]
#[inline(never)]
pub(crate) fn broken_fault<'a>(dictionary: &Dictionary, octets: &[u8]) -> FaultView<'a>
    ensures { seen_fault result ≡ fault_of_broken (known dictionary.now) octets.now }
{
    FaultView::of(
        ResultCode::InvalidAvpLength,
        &zeroed(dictionary, &cut_avp(octets)),
    )
}

/// The fault of a required AVP that is missing: `MissingAvp`, and as the failed AVP one of that code with flag M and
/// zeros of the least size of its type (RFC 6733 section 7.1.5). Takes no memory.
#[cold]
#[inline(never)]
pub fn missing_fault<'a>(dictionary: &Dictionary, code: u32) -> FaultView<'a>
    ensures { seen_fault result ≡ fault_of_missing (known dictionary.now) code }
{
    let avp = AvpView {
        code,
        vendor: None,
        mandatory: true,
        protected: false,
        octets: &[],
    };
    FaultView::of(ResultCode::MissingAvp, &zeroed(dictionary, &avp))
}
