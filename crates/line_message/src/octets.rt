//! The messages that deeds send, and the octets of a message.

ghost use Rattle.std.specs.Prelude.{◌≡◌, IfOk};
ghost use Rattle.line_message.specs.Sent.{command_of, octets_of, message_octets};

use base_list::Octets;
use bench_item::LineItem;
use charge_message::{answer_message, request_message};
use dia_avp::WriteError;
use dia_command::Command;
use dia_write::{Identity, write_message};
use peer_rules::{Names, peer_message};
use std::alloc::{AllocError, Global};

/// The octets of a message, none where 24 bits don't hold its length.
pub(crate) fn octets_of(alloc: Global, command: &Command) -> Result<Octets, AllocError>
    ensures { IfOk result (λ octets. octets ≡ octets_of command.now) }
{
    let mut out = Vec::new(alloc);
    match write_message(command, &mut out) {
        Ok(()) => Ok(Octets::new(out)),
        Err(WriteError::LengthOver24Bits) => Ok(Octets::new(Vec::new(alloc))),
        Err(WriteError::NoMemory) => Err(AllocError),
    }
}

/// The message that a deed sends.
fn command_of(
    alloc: Global,
    identity: &Identity,
    item: &LineItem,
) -> Result<Option<Command>, AllocError>
    ensures { IfOk result (λ command. command ≡ command_of identity.now item.now) }
{
    let names = Names {
        identity,
        session: item.session.as_slice(),
    };
    let deed = item.deed.show();
    if let Some(command) = peer_message(alloc, &deed, &names)? {
        return Ok(Some(command));
    }
    if let Some(command) = request_message(alloc, &deed, &names)? {
        return Ok(Some(command));
    }
    answer_message(alloc, &deed, &names)
}

/// The octets of the message that a deed sends, none where it sends none.
pub(crate) fn message_octets(
    alloc: Global,
    identity: &Identity,
    item: &LineItem,
) -> Result<Octets, AllocError>
    ensures { IfOk result (λ octets. octets ≡ message_octets identity.now item.now) }
{
    match command_of(alloc, identity, item)? {
        Some(command) => octets_of(alloc, &command),
        None => Ok(Octets::new(Vec::new(alloc))),
    }
}
