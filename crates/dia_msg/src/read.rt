//! The command that octets mean.

ghost use Rattle.std.specs.Prelude.{◌≡◌, ◌≤◌, ◌<◌, [], List, length, drop, slice_get, false, Some, None};
ghost use Rattle.std.specs.Prelude.{IfOk, IfErr, OnOk, IsErrOf};
ghost use Rattle.std.specs.Option.{option_map};
ghost use Rattle.dia_avp.specs.Avps.{Avps};
ghost use Rattle.dia_dict.specs.Dictionary.{known};
ghost use Rattle.dia_tree.specs.declared.fault.FaultView.{FaultView};
ghost use Rattle.dia_tree.specs.View.{seen_fault};
ghost use Rattle.dia_tree.specs.declared.fault.MsgFault.{MsgFault as Fault};
ghost use Rattle.dia_tree.specs.Faults.{fault, HasMessageFaults};
ghost use Rattle.dia_command.specs.Header.{header_in};
ghost use Rattle.dia_command.specs.Format.{kind_coded, format_of as format_by};
ghost use Rattle.dia_msg.specs.Faults.{header_faults, kind_in, is_credit as is_credit_by, is_event as is_event_by};
ghost use Rattle.dia_msg.specs.Faults.{has_failed as has_failed_by, answer_as, read_as};
ghost use Rattle.dia_msg.specs.Sorting.{seen_all, IsSorted};
ghost use Rattle.dia_msg.specs.Reading.{IsReading, IsOnlyReading, IsReadAgain, UnlessNoMemory, MayNeedMemory};
ghost use Rattle.dia_msg.specs.Walk.{IsErrorOf, IsDecided, IsOutcome};

use crate::check::{checked_header, is_credit};
use crate::fault::{MsgError, error_of};
use crate::services::{are_faulty, has_services};
use crate::sorting::{Sorted, sort};
use crate::source::Source;
use base_codes::{HEADER_LEN, ResultCode, avp_code};
use base_list::FixedList;
use dia_avp::{AvpView, MAX_AVPS, first_number_among};
use dia_command::{Command, CommandKind, Header, RequestType, format_of, header_of};
use dia_dict::Dictionary;
use dia_tree::{FaultView, MsgFault, NoRoom, missing_fault, survey};
use std::alloc::Global;

/// How many AVPs most messages have at most.
const FEW_AVPS: usize = 16;

// Whether a message of a header and AVPs is an EVENT request (RFC 8506 section 8.3).
fn is_event(header: &Header, avps: &[AvpView<'_>]) -> bool
    ensures { result ≡ is_event_by header.now (seen_all avps.now) }
{
    is_credit(header)
        && first_number_among(avps, avp_code::CC_REQUEST_TYPE) == Some(RequestType::Event.number())
}

// Whether the first Result-Code tells no success.
fn has_failed(avps: &[AvpView<'_>]) -> bool
    ensures { result ≡ has_failed_by (seen_all avps.now) }
{
    match first_number_among(avps, avp_code::RESULT_CODE) {
        Some(number) => number / 1000 != 2,
        None => false,
    }
}

// A fault without a failed AVP.
#[cold]
#[inline(never)]
fn fault_of(code: ResultCode) -> MsgError
    ensures { result ≡ MsgError.Fault (fault code None) }
{
    MsgError::Fault(MsgFault {
        result: code,
        failed: None,
    })
}

// The kind as which the AVPs of an answer are read; they are sorted by its format.
fn sort_answer(
    command: CommandKind,
    error: bool,
    avps: &[AvpView<'_>],
    sorted: &mut Sorted,
) -> CommandKind
    requires { length avps.now ≤ 128 }
    ensures kind { result ≡ answer_as command error (seen_all avps.now) }
    ensures sorted { IsSorted (format_by result false) (seen_all avps.now) sorted.new }
{
    let format = format_of(command, false);
    sort(format, avps, sorted);
    if error || has_failed(avps) && sorted.missing(format).is_some() {
        let kind = CommandKind::ErrorAnswer;
        sort(format_of(kind, false), avps, sorted);
        return kind;
    }
    command
}

// The kind as which AVPs are read; they are sorted by its format.
fn sort_as(
    command: CommandKind,
    header: &Header,
    event: bool,
    avps: &[AvpView<'_>],
    sorted: &mut Sorted,
) -> CommandKind
    requires few { length avps.now ≤ 128 }
    requires event { event ≡ is_event_by header.now (seen_all avps.now) }
    ensures kind { result ≡ read_as command header.now.flags (seen_all avps.now) }
    ensures sorted { IsSorted (format_by result event) (seen_all avps.now) sorted.new }
{
    if header.flags.request {
        sort(format_of(command, event), avps, sorted);
        return command;
    }
    sort_answer(command, header.flags.error, avps, sorted)
}

// The kind as which AVPs are read where the header and they have no fault, or the first of the other faults; the AVPs
// are sorted by its format.
fn kind_of(
    alloc: Global,
    dictionary: &Dictionary,
    header: &Header,
    command: CommandKind,
    event: bool,
    avps: &[AvpView<'_>],
    sorted: &mut Sorted,
) -> Result<CommandKind, MsgError>
    requires known { kind_coded header.now.command header.now.flags.request ≡ Some command }
    requires few { length avps.now ≤ 128 }
    requires event { event ≡ is_event_by header.now (seen_all avps.now) }
    ensures ok { IfOk result (λ kind. IsDecided (known dictionary.now) header.now (seen_all avps.now) sorted.new kind) }
    ensures err { IfErr result (λ e. IsOutcome dictionary.now header.now (seen_all avps.now) (Err e)) }
{
    let kind = sort_as(command, header, event, avps, sorted);
    if let Some(entry) = sorted.missing(format_of(kind, event)) {
        return Err(error_of(alloc, &missing_fault(dictionary, entry.code)));
    }
    if has_services(kind) && are_faulty(event, avps) {
        return Err(fault_of(ResultCode::UnableToComply));
    }
    Ok(kind)
}

// Nothing where AVPs have no fault, and else the error for their first.
fn without_fault(alloc: Global, first: &Option<FaultView<'_>>) -> Result<(), MsgError>
    ensures ok { OnOk result (first.now ≡ None) }
    ensures err { IfErr result (λ e. (f : FaultView) × (first.now ≡ Some f) × IsErrorOf (seen_fault f) e) }
{
    match first {
        None => Ok(()),
        Some(fault) => Err(error_of(alloc, fault)),
    }
}

// What is made of a message whose header has no fault: the error for the first fault of its AVPs, where they have one,
// and else what is made of them. It stands in its caller, so that a command is copied once less.
#[inline(always)]
fn concluded(
    alloc: Global,
    dictionary: &Dictionary,
    octets: &[u8],
    command: CommandKind,
    first: &Option<FaultView<'_>>,
    avps: &[AvpView<'_>],
) -> Result<Command, MsgError>
    requires whole { 20 ≤ length octets.now }
    requires header { header_faults octets.now ≡ [] }
    requires known { kind_in octets.now ≡ Some command }
    requires first { (faults : List Fault)
        × HasMessageFaults (known dictionary.now) (is_credit_by (header_in octets.now)) (drop 20 octets.now) faults
        × (option_map seen_fault first.now ≡ slice_get faults 0) }
    requires avps { first.now ≡ None → Avps (drop 20 octets.now) (seen_all avps.now) }
    requires few { length avps.now ≤ 128 }
    ensures reading { UnlessNoMemory result (IsReading (known dictionary.now) octets.now) }
    ensures memory { IsErrOf result MsgError.NoMemory → MayNeedMemory (known dictionary.now) octets.now }
{
    without_fault(alloc, first)?;
    let header = header_of(octets);
    let event = is_event(&header, avps);
    let mut sorted = Sorted::new();
    let kind = kind_of(
        alloc,
        dictionary,
        &header,
        command,
        event,
        avps,
        &mut sorted,
    )?;
    let source = Source {
        alloc,
        dictionary,
        format: format_of(kind, event),
        avps,
        sorted: &sorted,
    };
    let mut no_memory = false;
    let command = source.command(kind, event, header, &mut no_memory);
    if no_memory {
        return Err(MsgError::NoMemory);
    }
    Ok(command)
}

// A message of any number of AVPs, whose header has no fault.
#[cold]
#[inline(never)]
fn reading_of_many(
    alloc: Global,
    dictionary: &Dictionary,
    octets: &[u8],
    command: CommandKind,
) -> Result<Command, MsgError>
    requires whole { 20 ≤ length octets.now }
    requires header { header_faults octets.now ≡ [] }
    requires known { kind_in octets.now ≡ Some command }
    ensures reading { UnlessNoMemory result (IsReading (known dictionary.now) octets.now) }
    ensures memory { IsErrOf result MsgError.NoMemory → MayNeedMemory (known dictionary.now) octets.now }
{
    let is_credit = is_credit(&header_of(octets));
    let mut avps = FixedList::<AvpView<'_>, MAX_AVPS>::new();
    match survey(dictionary, is_credit, &octets[HEADER_LEN..], &mut avps) {
        Ok(first) => concluded(alloc, dictionary, octets, command, &first, avps.as_slice()),
        Err(NoRoom) => unreachable!(),
    }
}

/// The command that the octets of one message mean (RFC 6733 sections 3 and 4), or its first fault.
pub fn read_message(
    alloc: Global,
    dictionary: &Dictionary,
    octets: &[u8],
) -> Result<Command, MsgError>
    // The command is what the octets mean, and a fault is the first; nothing else is.
    ensures reading { UnlessNoMemory result (IsReading (known dictionary.now) octets.now) }
    ensures only { UnlessNoMemory result (IsOnlyReading (known dictionary.now) octets.now) }

    // A fault whose failed AVP has at most 32 octets of data is answered whatever the memory.
    ensures memory { IsErrOf result MsgError.NoMemory → MayNeedMemory (known dictionary.now) octets.now }

    // The encoding of what was read is read as the same.
    ensures again { IfOk result (IsReadAgain (known dictionary.now)) }
{
    let (header, command) = match checked_header(octets) {
        Ok(known) => known,
        Err(result) => return Err(fault_of(result)),
    };
    // Most messages have few AVPs; the room for 128 is large, and made only where it is needed.
    let mut avps = FixedList::<AvpView<'_>, FEW_AVPS>::new();
    let first = match survey(
        dictionary,
        is_credit(&header),
        &octets[HEADER_LEN..],
        &mut avps,
    ) {
        Ok(first) => first,
        Err(NoRoom) => return reading_of_many(alloc, dictionary, octets, command),
    };
    concluded(alloc, dictionary, octets, command, &first, avps.as_slice())
}
