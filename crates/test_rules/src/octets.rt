//! Octets typed as hexadecimal digits, and facts typed as words.

use base_text::number_of;
use std::alloc::Global;
use std::test::Fail;
use tab_law::PLACES;

/// Parts of messages. The names are Session-Id, Origin-Host, Origin-Realm, Destination-Realm, Auth-Application-Id and
/// Service-Context-Id. Then Subscription-Ids: `subscriber` 100 and `seven` of type 0, `imsi` of type 1, one without
/// data, and of type 0 with the data x, 0100, 15 digits 9 and the digits 1234567890123456. Requested-Service-Units: 60
/// of CC-Service-Specific-Units, none, CC-Input-Octets alone, and 3 CC-Service-Specific-Units before 9 of CC-Time.
/// Used-Service-Units: 5 seconds, 7 octets, as many octets as 64 bits hold, and none. Requested-Action CHECK_BALANCE,
/// an AVP that is in no dictionary, without flag M, and Multiple-Services-Indicator 1. Services: 70 octets of
/// Rating-Group 1, 50 of 2, of group 1 without an amount; 80 and 1 octets used and 10 wanted without a Rating-Group, 10
/// seconds used of the greatest one, and four services with Rating-Groups 0 to 3 alone. Of messages that deeds send:
/// `origin` is Origin-Host s.example and Origin-Realm example, `target` Destination-Realm example, Auth-Application-Id
/// 4 and Service-Context-Id dbench@example; CC-Request-Types and CC-Request-Numbers; Subscription-Ids of type 0 of the
/// accounts 100, 0 and 2^64 - 1; Result-Codes.
const WORDS: &str = "\
names 000001074000000c63313b310000010840000011632e6578616d706c65000000000001284000000f6578616d706c65000000011b4000000f6\
    578616d706c6500000001024000000c00000004000001cd4000000b78407900
subscriber 000001bb40000020000001c24000000c00000000000001bc4000000b31303000
seven 000001bb40000020000001c24000000c00000000000001bc4000000937000000
imsi 000001bb40000020000001c24000000c00000001000001bc4000000937000000
no-data 000001bb40000014000001c24000000c00000000
letter 000001bb40000020000001c24000000c00000000000001bc4000000978000000
leading-zero 000001bb40000020000001c24000000c00000000000001bc4000000c30313030
fifteen 000001bb4000002c000001c24000000c00000000000001bc4000001739393939393939393939393939393900
sixteen 000001bb4000002c000001c24000000c00000000000001bc4000001831323334353637383930313233343536
sixty 000001b540000018000001a140000010000000000000003c
no-amount 000001b540000008
input 000001b5400000180000019c400000100000000000000009
two-amounts 000001b540000024000001a1400000100000000000000003000001a44000000c00000009
five-seconds 000001be40000014000001a44000000c00000005
seven-octets 000001be40000018000001a5400000100000000000000007
many 000001be40000018000001a540000010ffffffffffffffff
none-used 000001be40000008
check 000001b44000000c00000002
unknown 0000270f0000000c00000001
indicator 000001c74000000c00000001
seventy 000001c84000002c000001b540000018000001a5400000100000000000000046000001b04000000c00000001
fifty 000001c84000002c000001b540000018000001a5400000100000000000000032000001b04000000c00000002
any-amount 000001c84000001c000001b540000008000001b04000000c00000001
eighty-one 000001c840000050000001be40000018000001a5400000100000000000000050000001be40000018000001a540000010000000000000\
    0001000001b540000018000001a540000010000000000000000a
greatest 000001c840000028000001b04000000cffffffff000001be40000014000001a44000000c0000000a
four 000001c840000014000001b04000000c00000000000001c840000014000001b04000000c00000001000001c840000014000001b04000000c00\
    000002000001c840000014000001b04000000c00000003
session 000001074000000c63313b31
origin 0000010840000011732e6578616d706c65000000000001284000000f6578616d706c6500
target 0000011b4000000f6578616d706c6500000001024000000c00000004000001cd400000166462656e6368406578616d706c650000
application 000001024000000c00000004
initial 000001a04000000c00000001
update 000001a04000000c00000002
termination 000001a04000000c00000003
event 000001a04000000c00000004
number-0 0000019f4000000c00000000
number-65538 0000019f4000000c00010002
account-100 000001bb40000020000001c24000000c00000000000001bc4000000b31303000
account-0 000001bb40000020000001c24000000c00000000000001bc4000000930000000
account-greatest 000001bb40000030000001c24000000c00000000000001bc4000001c3138343436373434303733373039353531363135
success 0000010c4000000c000007d1
limit 0000010c4000000c00000fac
too-busy 0000010c4000000c00000bbc
";

/// The digits of a part of a message; words that are not listed are digits themselves.
fn digits_of(word: &str) -> &str {
    for line in WORDS.split('\n') {
        if let Some((name, digits)) = line.split_once(' ')
            && name == word
        {
            return digits;
        }
    }
    word
}

/// Appends the octets of words; all octets go where one of them is no hexadecimal digits.
fn append(octets: &mut Vec<u8>, alloc: Global, words: &str) -> Result<(), Fail> {
    for word in words.split(' ') {
        match hex::decode(alloc, digits_of(word).as_bytes()) {
            Ok(more) => octets.extend_from_slice(more.as_slice())?,
            Err(_) => octets.clear(),
        }
    }
    Ok(())
}

/// The octets of words.
pub fn octets_of(alloc: Global, words: &str) -> Result<Vec<u8>, Fail> {
    let mut octets = Vec::new(alloc);
    append(&mut octets, alloc, words)?;
    Ok(octets)
}

/// A message of credit control with these flags, and the words of its identifiers and AVPs in parts.
pub fn message_of(alloc: Global, flags: u8, parts: &[&str]) -> Result<Vec<u8>, Fail> {
    let mut octets = Vec::from_slice(alloc, &[1, 0, 0, 0, flags, 0, 1, 0x10, 0, 0, 0, 4])?;
    for words in parts {
        append(&mut octets, alloc, words)?;
    }
    let len = octets.len();
    if let Some(octet) = octets.get_mut(2) {
        *octet = (len / 256 % 256) as u8;
    }
    if let Some(octet) = octets.get_mut(3) {
        *octet = (len % 256) as u8;
    }
    Ok(octets)
}

/// The place and the number of a word `PLACE=NUMBER`.
fn told_by(word: &str) -> Option<(u64, u64)> {
    let (place, number) = word.split_once('=')?;
    Some((number_of(place.as_bytes())?, number_of(number.as_bytes())?))
}

/// All places, 0 but for those that words tell. A word of another form spoils all places.
pub fn places(told: &str) -> [u64; PLACES] {
    let mut places = [0; PLACES];
    for word in told.split(' ') {
        match told_by(word) {
            Some((place, number)) if place < PLACES as u64 => places[place as usize] = number,
            _ => places = [u64::MAX; PLACES],
        }
    }
    places
}
