//! Deeds for a connection.

ghost use Rattle.std.specs.Prelude.{◌≡◌};
ghost use Rattle.bench_item.specs.Posts.{handed_on};
ghost use Rattle.bench_post.specs.Made.{Makes};
ghost use Rattle.bench_post.specs.Groups.{line_posts, message_posts};
ghost use Rattle.bench_post.specs.Nodes.{doer_of};

use crate::session::session_event;
use base_codes::session_fact;
use base_list::Octets;
use bench_item::{Item, KeptDeed, LineItem, MachineItem, Role};
use std::alloc::{AllocError, Global};
use tab_law::Deed;

/// The Session-Id that a deed hands on: a session's own name, and of a peer's machine that of its event.
pub(crate) fn handed_on(item: &MachineItem) -> &[u8]
    ensures { result.now ≡ handed_on (doer_of 0 item.now) }
{
    match item.key.role {
        Role::Peer => item.session.as_slice(),
        Role::Client | Role::Server => item.key.name.as_slice(),
    }
}

/// The deed itself, for the connection that its argument 1 names.
pub(crate) fn to_line(
    alloc: Global,
    item: &MachineItem,
    deed: &Deed,
) -> Result<Option<Item>, AllocError>
    ensures { Makes result (line_posts item.now deed.now) }
{
    deed.known();
    let kept = KeptDeed::keep(alloc, deed)?;
    let session = Octets::from_slice(alloc, handed_on(item))?;
    Ok(Some(Item::ToLine(LineItem {
        line: deed.a[session_fact::LINE],
        deed: kept,
        session,
    })))
}

/// A message of credit control for a connection, where one can be made of the arguments.
pub(crate) fn message_to_line(
    alloc: Global,
    item: &MachineItem,
    deed: &Deed,
) -> Result<Option<Item>, AllocError>
    ensures { Makes result (message_posts item.now deed.now) }
{
    deed.known();
    if handed_on(item).is_empty() || session_event(&deed.a).is_none() {
        return Ok(None);
    }
    to_line(alloc, item, deed)
}
