//! A node s.example of realm example, of two shards, whose one peer is c.example: the machine of number 4096.

use base_list::Octets;
use bench_item::{Item, Key, Peers, Step};
use bench_line::Lines;
use dia_dict::Dictionary;
use dia_write::Identity;
use line_message::Listener;
use peer_rules::peer_laws;
use std::alloc::Global;
use std::test::Fail;
use step_text::{Machines, write_step};
use tab_law::LawBook;

/// Parts of messages: the AVPs of a CER but those that name its sender and its application; Auth-Application-Id 4,
/// credit control, and 1, NASREQ; Session-Id c1;1, Origin-Host c.example, Origin-Realm and Destination-Realm example,
/// Auth-Application-Id 4; Origin-Host c.example and Origin-Realm example, and C.EXAMPLE; z.example, and Z.EXAMPLE, with
/// that realm; Service-Context-Id; CC-Request-Type 1 and CC-Request-Number 0; Subscription-Id of account 100; 60 of
/// CC-Service-Specific-Units; what the node says of itself. Words that are not listed are digits themselves.
const WORDS: &str = "\
address 000001014000000e00017f0000010000
vendor 0000010a4000000c00000000
product 0000010d0000000978000000
credit 000001024000000c00000004
nasreq 000001024000000c00000001
client 000001074000000c63313b310000010840000011632e6578616d706c65000000000001284000000f6578616d706c65000000011b4000000f\
    6578616d706c6500000001024000000c00000004
peer 0000010840000011632e6578616d706c65000000000001284000000f6578616d706c6500
PEER 0000010840000011432e4558414d504c45000000000001284000000f6578616d706c6500
stranger 00000108400000117a2e6578616d706c65000000000001284000000f6578616d706c6500
STRANGER 00000108400000115a2e4558414d504c45000000000001284000000f6578616d706c6500
context 000001cd4000000b78407900
initial 000001a04000000c000000010000019f4000000c00000000
subscriber 000001bb40000020000001c24000000c00000000000001bc4000000b31303000
sixty 000001b540000018000001a140000010000000000000003c
server 0000010840000011732e6578616d706c65000000000001284000000f6578616d706c6500
session 000001074000000c63313b31
";

/// The CER of c.example, and its Credit-Control-Request for 60 units of account 100.
pub const CER: &str = "0100006c80000101000000000000000100000001 peer address vendor product credit";

pub const CCR: &str =
    "010000bcc0000110000000040000000700000007 client context initial subscriber sixty";

fn digits_of(word: &str) -> &str {
    for line in WORDS.split('\n') {
        if let Some((name, digits)) = line.split_once(' ')
            && name == word
        {
            return digits;
        }
    }
    word
}

/// The octets of words; none where one of them is no hexadecimal digits.
pub fn joined(alloc: Global, words: &str) -> Result<Vec<u8>, Fail> {
    let mut octets = Vec::new(alloc);
    if words.is_empty() {
        return Ok(octets);
    }
    for word in words.split(' ') {
        let Ok(more) = hex::decode(alloc, digits_of(word).as_bytes()) else {
            return Ok(Vec::new(alloc));
        };
        octets.extend_from_slice(more.as_slice())?;
    }
    Ok(octets)
}

/// The node's connections, none so far.
pub fn connections(alloc: Global) -> Result<Lines<Listener>, Fail> {
    let identity = Identity {
        host: Octets::from_slice(alloc, b"s.example")?,
        realm: Octets::from_slice(alloc, b"example")?,
        address: [192, 0, 2, 1],
    };
    let mut peers = Peers::new(alloc, 2);
    peers.add(b"c.example")?;
    let laws = peer_laws(alloc)?;
    let dictionary = Dictionary::base(alloc)?;
    let listener = Listener::new(alloc, identity, dictionary, &peers, 0, &laws)?;
    Ok(Lines::new(alloc, listener))
}

/// Puts what an item says: the machine, the kind and the facts of its event, and its condition.
pub fn put_item(alloc: Global, laws: &LawBook, item: &Item, out: &mut Vec<u8>) -> Result<(), Fail> {
    let Item::ToMachine(item) = item else {
        out.extend_from_slice(b"to no machine\n")?;
        return Ok(());
    };
    let key = Key {
        role: item.key.role,
        name: item.key.name.copy(alloc)?,
    };
    let told = Step::Told {
        desk: 0,
        key,
        event: item.event.show(),
    };
    write_step(out, laws, &Machines::new(alloc), &told)?;
    if let Some(condition) = item.condition {
        let (register, value) = (condition.register, condition.value);
        let text = format!(in alloc; " if {register}={value}")?;
        out.extend_from_slice(text.as_bytes())?;
    }
    out.extend_from_slice(b"\n")?;
    Ok(())
}

/// Lifts what a connection has put out, and says it: a line for each item.
pub fn lifted(alloc: Global, lines: &mut Lines<Listener>, line: u64) -> Result<Vec<u8>, Fail> {
    let laws = peer_laws(alloc)?;
    let mut text = Vec::new(alloc);
    for _ in 0..64 {
        let Some(item) = lines.next(line) else {
            break;
        };
        put_item(alloc, &laws, &item.show(alloc)?, &mut text)?;
        let _ = lines.lift(line);
    }
    Ok(text)
}
