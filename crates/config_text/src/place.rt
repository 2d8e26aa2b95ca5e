//! Where a value stands.
ghost use Rattle.std.specs.Prelude.{◌≡◌};
ghost use Rattle.config_text.specs.Places.{item_at, line_at, node_at, whole, within};

use crate::field::Field;

/// Where a value stands, as `nodes[0].desks[1].lines[2]`: with no part it is the whole text.
#[derive(Clone, Copy)]
pub struct Place {
    /// The node, from 0.
    pub node: Option<u64>,
    /// A field of the node, or of the whole where no node is told.
    pub field: Option<Field>,
    /// The item of the field's list, from 0.
    pub item: Option<u64>,
    /// A field of that item, or of the object that the field is.
    pub inner: Option<Field>,
    /// The item of that list, from 0.
    pub line: Option<u64>,
}

impl Place {
    /// The whole text.
    pub(crate) fn whole() -> Place
        ensures { result ≡ whole }
    {
        Place {
            node: None,
            field: None,
            item: None,
            inner: None,
            line: None,
        }
    }

    /// A node.
    pub(crate) fn node(index: u64) -> Place
        ensures { result ≡ node_at index }
    {
        Place {
            node: Some(index),
            ..Place::whole()
        }
    }

    /// A field of the object here.
    #[tactic(auto, unfolding(crate::specs::Places::within))]
    pub(crate) fn within(self, field: Field) -> Place
        ensures { result ≡ within field self }
    {
        if self.field.is_none() {
            Place {
                field: Some(field),
                ..self
            }
        } else {
            Place {
                inner: Some(field),
                ..self
            }
        }
    }

    /// An item of the list of a node's field.
    pub(crate) fn item(self, index: u64) -> Place
        ensures { result ≡ item_at index self }
    {
        Place {
            item: Some(index),
            ..self
        }
    }

    /// An item of the list here.
    pub(crate) fn line(self, index: u64) -> Place
        ensures { result ≡ line_at index self }
    {
        Place {
            line: Some(index),
            ..self
        }
    }
}
