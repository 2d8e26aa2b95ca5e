//! The events of credit control for sessions.

ghost use Rattle.std.specs.Prelude.{◌≡◌, IfSome, option_map, slice_index};
ghost use Rattle.base_codes.specs.declared.session_fact.TheConstants.{CLASS, REQUEST_TYPE};
ghost use Rattle.bench_item.specs.declared.key.Role.TheVariants.{Client, Server};
ghost use Rattle.bench_item.specs.Posts.{session_event, request_kind, answer_kind};
ghost use Rattle.dia_command.specs.Value.{type_coded};
ghost use Rattle.bench_post.specs.Sessions.{role_of, name_of, as_event};

use base_codes::{message_class, session_fact};
use bench_item::Role;
use charge_session::{answer_kind, request_kind};
use client_rules::ClientKind;
use dia_command::RequestType;
use server_rules::ServerKind;
use tab_law::PLACES;

/// What a message of credit control is for the machine of its session.
#[derive(Clone, Copy)]
pub(crate) enum SessionEvent {
    /// A request, for the server's session.
    Server(ServerKind),
    /// An answer, for the client's.
    Client(ClientKind),
}

impl SessionEvent {
    /// Whose event it is.
    pub(crate) fn role(self) -> Role
        ensures { result ≡ role_of self }
    {
        match self {
            SessionEvent::Server(_) => Role::Server,
            SessionEvent::Client(_) => Role::Client,
        }
    }

    /// The name of its kind.
    pub(crate) fn name(self) -> &'static [u8]
        ensures { result.now ≡ name_of self }
    {
        match self {
            SessionEvent::Server(kind) => kind.name().as_bytes(),
            SessionEvent::Client(kind) => kind.name().as_bytes(),
        }
    }
}

/// The CC-Request-Type of that number (RFC 8506 section 8.3).
#[tactic(auto, using(crate::proofs::TypeLemmas::none_past))]
fn type_of(number: u64) -> Option<RequestType>
    ensures { result ≡ type_coded number }
{
    RequestType::coded(u32::try_from(number).ok()?)
}

/// What a request is, by its CC-Request-Type.
#[tactic(auto, using(crate::proofs::TypeLemmas::request_named))]
fn request_event(number: u64) -> Option<SessionEvent>
    ensures names { option_map name_of result ≡ request_kind number }
    ensures role { IfSome result (λ event. role_of event ≡ Server) }
{
    Some(SessionEvent::Server(request_kind(type_of(number)?)))
}

/// What an answer is, by the CC-Request-Type that it repeats.
#[tactic(auto, using(crate::proofs::TypeLemmas::answer_named))]
fn answer_event(number: u64) -> Option<SessionEvent>
    ensures names { option_map name_of result ≡ answer_kind number }
    ensures role { IfSome result (λ event. role_of event ≡ Client) }
{
    Some(SessionEvent::Client(answer_kind(type_of(number)?)))
}

/// What a message with these facts is, by its class; none for another class or type.
pub(crate) fn session_event(facts: &[u64; PLACES]) -> Option<SessionEvent>
    ensures { option_map as_event result
        ≡ session_event (slice_index facts.now CLASS) (slice_index facts.now REQUEST_TYPE) }
{
    match facts[session_fact::CLASS] {
        message_class::REQUEST => request_event(facts[session_fact::REQUEST_TYPE]),
        message_class::ANSWER => answer_event(facts[session_fact::REQUEST_TYPE]),
        message_class::FAULT => Some(SessionEvent::Client(ClientKind::CcaFault)),
        _ => None,
    }
}
