//! Which AVPs are groups.
ghost use Rattle.std.specs.Prelude.{◌≡◌};
ghost use Rattle.dia_avp.specs.View.{seen};
ghost use Rattle.dia_dict.specs.Dictionary.{known, definition_of};
ghost use Rattle.dia_tree.specs.Kind.{is_group as is_group_kind, is_grouped};

use dia_avp::AvpView;
use dia_dict::{AvpKind, Dictionary};

/// Whether a type is that of groups.
pub(crate) fn is_group(kind: AvpKind) -> bool
    ensures { result ≡ is_group_kind kind }
{
    matches!(kind, AvpKind::Grouped)
}

/// Whether an AVP is a group by the dictionary.
pub fn is_grouped(dictionary: &Dictionary, avp: &AvpView<'_>) -> bool
    ensures { let a = seen avp.now in result ≡ is_grouped (definition_of (known dictionary.now) a.code a.vendor) }
{
    match dictionary.find(avp.code, avp.vendor) {
        None => false,
        Some(definition) => is_group(definition.kind),
    }
}
