//! Why an AVP has no value.

ghost use Rattle.std.specs.Prelude.{◌≡◌};
ghost use Rattle.dia_dict.specs.Kind.{fault_of_field};

use dia_avp::FieldFault;
use thiserror::Error;

/// Why an AVP has no value by the dictionary.
#[derive(Clone, Copy, Debug, PartialEq, Eq, Error)]
pub enum DictFault {
    /// The dictionary does not have the AVP, which may be ignored.
    #[error("unknown AVP without flag M; ignore it")]
    Unknown,
    /// The dictionary does not have the AVP, which has flag M.
    #[error("unknown AVP with flag M; its sender wants it understood")]
    UnknownMandatory,
    /// The data is none that the AVP's type allows.
    #[error("AVP data that its type does not allow")]
    BadValue,
    /// The data has a size that the AVP's type does not have.
    #[error("AVP data of a size that its type does not have")]
    BadLength,
}

impl From<FieldFault> for DictFault {
    ghost from_gives = { λ f e. e ≡ fault_of_field f };

    fn from(fault: FieldFault) -> DictFault {
        match fault {
            FieldFault::BadValue => DictFault::BadValue,
            FieldFault::BadLength => DictFault::BadLength,
        }
    }
}
