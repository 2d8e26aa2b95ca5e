//! Messages by words, and what is asked of them.

use dia_avp::Octets;
use dia_dict::Dictionary;
use dia_msg::{Command, Identity, read_message, write_message};
use std::alloc::{AllocError, Global};
use std::test::Fail;

/// Parts of messages. Behind the flags stand the Command Code, the Application-Id and both identifiers, which are 7.
///
/// Then AVPs: `loose-host` is `host` with reserved bits and padding, `second-host` another Origin-Host with flag P,
/// `product` without flag M. Result-Codes 2001 and 4012; Disconnect-Cause 2; `subscription` of type 0 with the data
/// 100, and the same with a reserved bit, without the inner padding at its end. `failed` has an Origin-Host without
/// octets, `state` is Origin-State-Id 7. AVP 9999, which the dictionary lacks, without and with flag M.
///
/// AVPs that have a fault: an Origin-Host that is not ASCII, a Disconnect-Cause of 3 octets, a CC-Request-Type 0, a
/// Requested-Action 4, five groups, each in the one before, and a Used-Service-Unit whose CC-Total-Octets has the
/// length 17 in 16 octets. Failed AVPs with zeros of the least size of their type, and two whole Failed-AVPs.
///
/// Requests for credit control up to Service-Context-Id, with two Destination-Realms;
/// services of Rating-Groups 1 to 4, and one without. `server` is Origin-Host s.example and Origin-Realm example.
const WORDS: &str = "\
cer 000101000000000000000700000007
dwr 000118000000000000000700000007
dpr 00011a000000000000000700000007
rar 000102000000040000000700000007
ccr 000110000000040000000700000007
session 000001074000000c63313b31
host 0000010840000011632e6578616d706c65000000
loose-host 000001085f000011632e6578616d706c650000ff
second-host 000001086000000964000000
realm 000001284000000f6578616d706c6500
destination-realm 0000011b4000000972000000
destination-host 000001254000000968000000
address 000001014000000e0001c00002010000
vendor-id 0000010a4000000c00000000
product 0000010d0000000970000000
application 000001024000000c00000004
success 0000010c4000000c000007d1
limit-reached 0000010c4000000c00000fac
cause 000001114000000c00000002
re-auth-type 0000011d4000000c00000000
context 000001cd4000000b78407900
initial 000001a04000000c00000001
event 000001a04000000c00000004
number 0000019f4000000c00000007
number-0 0000019f4000000c00000000
subscription 000001bb40000020000001c24000000c00000000000001bc4000000b31303000
loose-subscription 000001bb4000001f000001c24100000c00000000000001bc4000000b31303000
action 000001b44000000c00000002
requested 000001b540000018000001a140000010000000000000003c
used 000001be40000014000001a44000000c0000001e
granted 000001af40000018000001a140000010000000000000003c
final-unit 000001ae40000014000001c14000000c00000000
check 000001a64000000c00000001
failed 00000117400000100000010840000008
state 000001164000000c00000007
unknown 0000270f0000000c00000001
mandatory 0000270f4000000c00000001
bad-host 000001084000000980000000
bad-cause 000001114000000b00000200
type-0 000001a04000000c00000000
action-4 000001b44000000c00000004
deep 000001bb40000028000001bb40000020000001bb40000018000001bb40000010000001bb40000008
long-used 000001be40000018000001a5400000110000000000000005
no-session 0000010740000008
no-host 0000010840000008
no-realm 0000012840000008
no-cause 000001114000000c00000000
no-action 000001b44000000c00000000
no-state 000001160000000c00000000
failed-unknown 00000117400000140000270f4000000c00000001
failed-total 0000011740000018000001a5400000100000000000000000
credit 000001074000000c63313b310000010840000011632e6578616d706c65000000000001284000000f6578616d706c65000000011b40000009\
    72000000000001024000000c00000004000001cd4000000b78407900
names 000001074000000c63313b310000010840000011632e6578616d706c65000000000001284000000f6578616d706c65000000011b4000000f6\
    578616d706c6500000001024000000c00000004
indicator 000001c74000000c00000001
group-1 000001c840000014000001b04000000c00000001
group-2 000001c840000014000001b04000000c00000002
group-3 000001c840000014000001b04000000c00000003
group-4 000001c840000014000001b04000000c00000004
no-group 000001c840000008
server 0000010840000011732e6578616d706c65000000000001284000000f6578616d706c6500
";

/// The digits of a word; words that are not listed are digits themselves.
fn digits_of(word: &str) -> &str {
    for line in WORDS.split('\n') {
        if let Some((name, digits)) = line.split_once(' ')
            && name == word
        {
            return digits;
        }
    }
    word
}

/// Appends the octets of words; all octets go where one of them is no hexadecimal digits.
pub fn append(octets: &mut Vec<u8>, alloc: Global, words: &str) -> Result<(), Fail> {
    for word in words.split(' ') {
        match hex::decode(alloc, digits_of(word).as_bytes()) {
            Ok(more) => octets.extend_from_slice(more.as_slice())?,
            Err(_) => octets.clear(),
        }
    }
    Ok(())
}

/// The octets of words.
pub fn octets_of(alloc: Global, words: &str) -> Result<Vec<u8>, Fail> {
    let mut octets = Vec::new(alloc);
    append(&mut octets, alloc, words)?;
    Ok(octets)
}

/// Puts the number of a message's octets into its header.
pub fn set_length(octets: &mut Vec<u8>) {
    let len = octets.len();
    if let Some(octet) = octets.get_mut(2) {
        *octet = (len / 256 % 256) as u8;
    }
    if let Some(octet) = octets.get_mut(3) {
        *octet = (len % 256) as u8;
    }
}

/// The message of words: its flags, its command and its AVPs.
pub fn message(alloc: Global, words: &str) -> Result<Vec<u8>, Fail> {
    let mut octets = Vec::from_slice(alloc, &[1, 0, 0, 0])?;
    append(&mut octets, alloc, words)?;
    set_length(&mut octets);
    Ok(octets)
}

/// The message of words with so many AVPs 9999 behind them, without flag M.
pub fn message_of_many(alloc: Global, words: &str, count: usize) -> Result<Vec<u8>, Fail> {
    let mut octets = message(alloc, words)?;
    for _ in 0..count {
        octets.extend_from_slice(&[0, 0, 0x27, 0x0f, 0, 0, 0, 12, 0, 0, 0, 1])?;
    }
    set_length(&mut octets);
    Ok(octets)
}

/// Whether a command is written as these octets.
pub fn is_written(alloc: Global, command: &Command, octets: &[u8]) -> bool {
    let mut out = Vec::new(alloc);
    write_message(command, &mut out).is_ok() && out.as_slice() == octets
}

/// Whether octets are read as a command that is written as they stand.
pub fn is_kept(alloc: Global, dictionary: &Dictionary, octets: &[u8]) -> bool {
    match &read_message(alloc, dictionary, octets) {
        Ok(command) => is_written(alloc, command, octets),
        Err(_) => false,
    }
}

/// The node s.example.
pub fn server(alloc: Global) -> Result<Identity, AllocError> {
    let host = Octets::from_slice(alloc, b"s.example")?;
    let realm = Octets::from_slice(alloc, b"example")?;
    Ok(Identity {
        host,
        realm,
        address: [192, 0, 2, 1],
    })
}
