//! Several services in a message (RFC 8506 section 5.1.2).

use crate::octets::{is_written, message};
use dia_dict::Dictionary;
use dia_msg::{Command, MsgError, read_message};
use std::alloc::Global;
use std::test::Fail;

/// How many services a command has, and how many AVPs are in its rest.
fn counts(command: &Command) -> (usize, usize) {
    let services = match command {
        Command::Ccr(ccr) => ccr.multiple_services_credit_control.as_slice().len(),
        Command::Cca(cca) => cca.multiple_services_credit_control.as_slice().len(),
        _ => 0,
    };
    (services, command.rest().len())
}

/// Messages with so many services and other AVPs:
/// four services of different groups, and services of an error answer, which are kept and not looked at.
const KEPT: &[(&str, usize, usize)] = &[
    (
        "c0 ccr names context initial number-0 indicator group-1 no-group group-2 group-3",
        4,
        0,
    ),
    (
        "00 ccr host realm limit-reached group-1 group-1 group-1 group-1 group-1",
        0,
        5,
    ),
];

/// Whether a message is read as a command with so many services and other AVPs, which is written as they stand.
fn is_kept(
    alloc: Global,
    dictionary: &Dictionary,
    (words, services, rest): (&str, usize, usize),
) -> Result<bool, Fail> {
    let octets = message(alloc, words)?;
    Ok(match &read_message(alloc, dictionary, &octets) {
        Ok(command) => {
            counts(command) == (services, rest) && is_written(alloc, command, &octets)
        }
        Err(_) => false,
    })
}

/// Messages with five services, two of one group, two without a group, and a service in an EVENT request.
const REFUSED: &[&str] = &[
    "c0 ccr names context initial number-0 group-1 group-2 group-3 group-4 no-group",
    "c0 ccr names context initial number-0 group-1 group-2 group-1",
    "c0 ccr names context initial number-0 no-group no-group",
    "c0 ccr names context event action number-0 group-1",
];

/// Whether a message has the fault 5012 without a failed AVP.
fn is_refused(alloc: Global, dictionary: &Dictionary, words: &str) -> Result<bool, Fail> {
    let octets = message(alloc, words)?;
    Ok(match &read_message(alloc, dictionary, &octets) {
        Err(MsgError::Fault(fault)) => fault.result.number() == 5012 && fault.failed.is_none(),
        _ => false,
    })
}

/// The first message that goes wrong.
fn wrong_services(alloc: Global, dictionary: &Dictionary) -> Result<Option<&'static str>, Fail> {
    for row in KEPT {
        if !is_kept(alloc, dictionary, *row)? {
            return Ok(Some(row.0));
        }
    }
    for words in REFUSED {
        if !is_refused(alloc, dictionary, words)? {
            return Ok(Some(words));
        }
    }
    Ok(None)
}

#[test]
fn four_services_of_different_groups_are_read_and_others_refused(
    rt: HostRuntime,
) -> Result<(), Fail> {
    let dictionary = Dictionary::base(rt.alloc())?;
    let wrong = wrong_services(rt.alloc(), &dictionary)?;
    assert!(rt; wrong.is_none(), "{wrong:?}");
    Ok(())
}
