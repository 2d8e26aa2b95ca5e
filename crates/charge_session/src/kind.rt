//! The kinds of events of a session, by the CC-Request-Type (RFC 8506 section 8.3).

ghost use Rattle.std.specs.Prelude.{◌≡◌};
ghost use Rattle.charge_session.specs.Events.{answer_name, server_name};
ghost use Rattle.client_rules.specs.Kinds.{name_of as client_name_of};
ghost use Rattle.server_rules.specs.Kinds.{name_of as server_name_of};

use client_rules::ClientKind;
use dia_command::RequestType;
use server_rules::ServerKind;

/// The kind of event that a request of this type is for a server's session.
pub fn request_kind(request_type: RequestType) -> ServerKind
    ensures { server_name_of result ≡ server_name request_type }
{
    match request_type {
        RequestType::Initial => ServerKind::Initial,
        RequestType::Update => ServerKind::Update,
        RequestType::Termination => ServerKind::Terminate,
        RequestType::Event => ServerKind::Event,
    }
}

/// The kind of event that an answer to a request of this type is for a client's session.
pub fn answer_kind(request_type: RequestType) -> ClientKind
    ensures { client_name_of result ≡ answer_name request_type }
{
    match request_type {
        RequestType::Initial => ClientKind::CcaI,
        RequestType::Update => ClientKind::CcaU,
        RequestType::Termination => ClientKind::CcaT,
        RequestType::Event => ClientKind::CcaE,
    }
}
