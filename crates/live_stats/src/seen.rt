//! What an entry says of connections, messages and machines.
ghost use Rattle.std.specs.Prelude.{◌≡◌};
ghost use Rattle.live_stats.specs.Seen.{heard, key_of, message_in, moved, request_hop, seen_in, sent};

use base_codes::{CommandCode, DeedCode, message_class, session_fact};
use bench_item::{Entry, Handled, Item, LineItem, MachineItem, Role, Source, Step};
use deed_message::request_header;
use tab_law::PLACES;

/// A message of credit control, by its connection and its Hop-by-Hop Identifier.
#[derive(Clone, Copy)]
pub(crate) enum Message {
    /// A CCR.
    Request { key: u64 },
    /// A CCA, and its Result-Code.
    Answer { key: u64, code: u64 },
}

/// What an entry says.
#[derive(Clone, Copy)]
pub(crate) enum Seen {
    /// Nothing that is counted.
    Nothing,
    /// Octets came on a connection.
    Came(u32),
    /// A message was taken off the connection on which it came.
    Heard(u32, Message),
    /// A message was handed to its connection.
    Sent(Message),
    /// A machine left a state, and came into one.
    Moved(Role, u8, u8),
}

/// A connection and a Hop-by-Hop Identifier, which has 32 bits (RFC 6733 section 3), as one number.
fn key_of(line: u64, hop_by_hop: u64) -> u64
    ensures { result ≡ key_of line hop_by_hop }
{
    line % 0x1_0000 * 0x1_0000_0000 + hop_by_hop % 0x1_0000_0000
}

/// A message, by its class; none where it is no message of credit control.
fn message_in(class: u64, request: u64, answer: u64, code: u64) -> Option<Message>
    ensures { result ≡ message_in class request answer code }
{
    match class {
        message_class::REQUEST => Some(Message::Request { key: request }),
        message_class::ANSWER | message_class::FAULT => Some(Message::Answer { key: answer, code }),
        _ => None,
    }
}

/// What came on a connection, by the facts of the event that it is.
fn heard(line: u32, facts: &[u64; PLACES]) -> Seen
    ensures { result ≡ heard line facts.now }
{
    let key = key_of(u64::from(line), facts[session_fact::HOP_BY_HOP]);
    let code = facts[session_fact::RESULT_CODE];
    match message_in(facts[session_fact::CLASS], key, key, code) {
        Some(message) => Seen::Heard(line, message),
        None => Seen::Nothing,
    }
}

/// The Hop-by-Hop Identifier of a request that a deed sends.
fn request_hop(a: &[u64; PLACES]) -> u64
    ensures { result ≡ request_hop a.now }
{
    let count = a[session_fact::REQUEST_NUMBER].saturating_sub(1);
    let header = request_header(
        CommandCode::CreditControl,
        a[session_fact::HOP_BY_HOP],
        count,
    );
    u64::from(header.hop_by_hop)
}

/// What a deed sends on a connection.
fn sent(item: &LineItem) -> Seen
    ensures { result ≡ sent item.now }
{
    if item.deed.code() != DeedCode::SndMsg.number() {
        return Seen::Nothing;
    }
    let a = &item.deed.show().a;
    let request = key_of(item.line, request_hop(a));
    let answer = key_of(item.line, a[session_fact::HOP_BY_HOP]);
    let code = a[session_fact::RESULT_CODE];
    match message_in(a[session_fact::CLASS], request, answer, code) {
        Some(message) => Seen::Sent(message),
        None => Seen::Nothing,
    }
}

/// What became of an event that a shard handled.
fn moved(item: &MachineItem, handled: &Handled) -> Seen
    ensures { result ≡ moved item.now handled.now }
{
    match handled {
        Handled::Move(moved) => Seen::Moved(item.key.role, moved.before.state, moved.after.state),
        Handled::TooBusy | Handled::Stale(_) => Seen::Nothing,
    }
}

/// What an entry says.
pub(crate) fn seen_in(entry: &Entry) -> Seen
    ensures { result ≡ seen_in entry.now }
{
    match (&entry.step, &entry.item, &entry.handled) {
        (Step::Came { line, .. }, _, _) => Seen::Came(*line),
        (Step::Lift(Source::Line(line)), Some(Item::ToMachine(item)), _) => {
            heard(*line, &item.event.show().facts)
        }
        (Step::Drop(_), Some(Item::ToLine(item)), _) => sent(item),
        (Step::Work(_), Some(Item::ToMachine(item)), Some(handled)) => moved(item, handled),
        _ => Seen::Nothing,
    }
}
