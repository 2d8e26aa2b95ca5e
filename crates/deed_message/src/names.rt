//! What the messages of a machine say of names: this node's, and the machine's Session-Id.
ghost use Rattle.std.specs.Prelude.{◌≡◌, IfOk};
ghost use Rattle.dia_write.specs.Answer.{made};

use dia_avp::Octets;
use dia_command::TypedAvp;
use dia_write::{Identity, made};
use std::alloc::{AllocError, Global};

/// What the messages of a machine say of names: who this node is, and the Session-Id of the machine, empty where it has
/// none.
#[derive(Clone, Copy)]
pub struct Names<'a> {
    pub identity: &'a Identity,
    pub session: &'a [u8],
}

/// A copy of octets as the value of an AVP that this node makes: with flag M, without P (RFC 6733 section 4.1).
pub fn made_copy(alloc: Global, octets: &Octets) -> Result<TypedAvp<Octets>, AllocError>
    ensures { IfOk result (λ avp. avp ≡ made octets.now) }
{
    Ok(made(octets.copy(alloc)?))
}
