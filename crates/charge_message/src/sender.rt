//! The AVPs that tell a message's session and its sender (RFC 8506 sections 3.1 and 3.2).

ghost use Rattle.std.specs.Prelude.{◌≡◌, IfOk};
ghost use Rattle.dia_write.specs.Answer.{made};

use deed_message::{made, made_copy};
use dia_avp::Octets;
use dia_command::{Text, TypedAvp};
use dia_write::Identity;
use std::alloc::{AllocError, Global};

/// What a message tells of its session and its sender.
#[derive(Drop)]
pub(crate) struct Sender {
    pub(crate) session_id: TypedAvp<Text>,
    pub(crate) origin_host: TypedAvp<Octets>,
    pub(crate) origin_realm: TypedAvp<Octets>,
}

/// What a message of this node tells of a session.
pub(crate) fn sender_of(
    alloc: Global,
    identity: &Identity,
    session: &str,
) -> Result<Sender, AllocError>
    ensures { IfOk result (λ s. s ≡ record {
      session_id = made session.now;
      origin_host = made identity.now.host;
      origin_realm = made identity.now.realm;
    }) }
{
    Ok(Sender {
        session_id: made(Text::from_str(alloc, session)?),
        origin_host: made_copy(alloc, &identity.host)?,
        origin_realm: made_copy(alloc, &identity.realm)?,
    })
}
