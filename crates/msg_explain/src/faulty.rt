//! What is wrong with a message.
ghost use Rattle.std.specs.Prelude.{◌≡◌, ◌++◌, OnOk, map, None, Some};
ghost use Rattle.dia_avp.specs.View.{seen};
ghost use Rattle.dia_avp.specs.Reading.{avp_at};
ghost use Rattle.dia_dict.specs.Dictionary.{known};
ghost use Rattle.msg_explain.specs.Parts.{seen_part};
ghost use Rattle.msg_explain.specs.Faulty.{reason, is_ill_sized, same_code, is_wrong_length, is_failed_itself};
ghost use Rattle.msg_explain.specs.Faulty.{is_failed, failed_place, at_text, vendor_of_text, avp_title};
ghost use Rattle.msg_explain.specs.Faulty.{failed_avp_text, failed_text, fault_name, message_place, fault_line};

use crate::lines::put_name;
use crate::messages::put_numbered;
use crate::parts::Part;
use base_codes::ResultCode;
use base_text::put_number;
use dia_avp::{Avp, AvpView, avp_at};
use dia_dict::{DictFault, Dictionary};
use dia_msg::MsgFault;
use dia_tree::{cut_avp, is_grouped};
use std::alloc::AllocError;

/// What a fault's Result-Code means of a message (RFC 6733 section 7.1).
#[tactic(auto, unfolding(crate::specs::Faulty::reason))]
pub fn reason(code: ResultCode) -> &'static [u8]
    ensures { result.now ≡ reason code }
{
    match code {
        ResultCode::CommandUnsupported => b"no command with this code and flag R is read here",
        ResultCode::ApplicationUnsupported => b"the Application-Id is not that of the command",
        ResultCode::AvpUnsupported => b"an AVP that is not known has flag M",
        ResultCode::InvalidAvpValue => b"an AVP has a value that is not allowed",
        ResultCode::MissingAvp => b"an AVP that is required is missing",
        ResultCode::UnsupportedVersion => b"the version is not 1",
        ResultCode::UnableToComply => {
            b"more than 128 AVPs, more than 4 levels of groups, or services that can't be told apart"
        }
        ResultCode::InvalidAvpLength => b"an AVP has a wrong length",
        ResultCode::InvalidMessageLength => {
            b"the length in the header is not that of the message"
        }
        _ => b"refused",
    }
}

fn is_ill_sized(dictionary: &Dictionary, avp: &AvpView<'_>) -> bool
    ensures { result ≡ is_ill_sized (known dictionary.now) (seen avp.now) }
{
    match dictionary.typed(avp) {
        Err(DictFault::BadLength) => !is_grouped(dictionary, avp),
        _ => false,
    }
}

fn same_code(a: &AvpView<'_>, b: &AvpView<'_>) -> bool
    ensures { result ≡ same_code (seen a.now) (seen b.now) }
{
    a.code == b.code && a.vendor.unwrap_or(0) == b.vendor.unwrap_or(0)
}

fn is_wrong_length(dictionary: &Dictionary, failed: &AvpView<'_>, octets: &[u8]) -> bool
    ensures { result ≡ is_wrong_length (known dictionary.now) (seen failed.now) octets.now (avp_at octets.now) }
{
    match avp_at(octets) {
        Ok((avp, _)) => same_code(failed, &avp) && is_ill_sized(dictionary, &avp),
        Err(_) => same_code(failed, &cut_avp(octets)),
    }
}

fn is_failed_itself(failed: &AvpView<'_>, octets: &[u8]) -> bool
    ensures { result ≡ is_failed_itself (seen failed.now) (avp_at octets.now) }
{
    match avp_at(octets) {
        Ok((avp, _)) => same_code(failed, &avp) && failed.octets == avp.octets,
        Err(_) => false,
    }
}

fn is_failed(dictionary: &Dictionary, code: ResultCode, failed: &AvpView<'_>, octets: &[u8]) -> bool
    ensures { result ≡ is_failed (known dictionary.now) code (seen failed.now) octets.now }
{
    match code {
        ResultCode::MissingAvp => false,
        ResultCode::InvalidAvpLength => is_wrong_length(dictionary, failed, octets),
        _ => is_failed_itself(failed, octets),
    }
}

/// Where the failed AVP of a fault begins in its message: the first of its parts that is it.
pub fn failed_place(
    dictionary: &Dictionary,
    code: ResultCode,
    failed: &AvpView<'_>,
    parts: &[Part<'_>],
) -> Option<usize>
    ensures { result ≡ failed_place (known dictionary.now) code (seen failed.now) (map seen_part parts.now) }
{
    for part in parts {
        if is_failed(dictionary, code, failed, part.octets) {
            return Some(part.place);
        }
    }
    None
}

fn put_at(out: &mut Vec<u8>, place: Option<usize>) -> Result<(), AllocError>
    ensures { OnOk result (out.new.items ≡ out.old.items ++ at_text place) }
{
    match place {
        None => Ok(()),
        Some(place) => put_number(out, b" at its octet ", place as u64),
    }
}

fn put_vendor_of(out: &mut Vec<u8>, vendor: Option<u32>) -> Result<(), AllocError>
    ensures { OnOk result (out.new.items ≡ out.old.items ++ vendor_of_text vendor) }
{
    match vendor {
        None => Ok(()),
        Some(vendor) => put_number(out, b"/", u64::from(vendor)),
    }
}

#[tactic(auto, unfolding(crate::specs::Faulty::avp_title))]
fn put_avp_title(
    out: &mut Vec<u8>,
    dictionary: &Dictionary,
    avp: &AvpView<'_>,
) -> Result<(), AllocError>
    ensures { OnOk result (out.new.items ≡ out.old.items ++ avp_title (known dictionary.now) (seen avp.now)) }
{
    put_number(out, b": AVP ", u64::from(avp.code))?;
    put_vendor_of(out, avp.vendor)?;
    out.extend_from_slice(b" ")?;
    put_name(out, dictionary.find(avp.code, avp.vendor))
}

#[tactic(auto, unfolding(crate::specs::Faulty::failed_avp_text))]
fn put_failed_avp(
    out: &mut Vec<u8>,
    dictionary: &Dictionary,
    code: ResultCode,
    failed: &AvpView<'_>,
    parts: &[Part<'_>],
) -> Result<(), AllocError>
    ensures { OnOk result (out.new.items
        ≡ out.old.items ++ failed_avp_text (known dictionary.now) code (seen failed.now) (map seen_part parts.now)) }
{
    put_avp_title(out, dictionary, failed)?;
    put_at(out, failed_place(dictionary, code, failed, parts))
}

fn put_failed(
    out: &mut Vec<u8>,
    dictionary: &Dictionary,
    code: ResultCode,
    failed: &Option<Avp>,
    parts: &[Part<'_>],
) -> Result<(), AllocError>
    ensures { OnOk result (out.new.items
        ≡ out.old.items ++ failed_text (known dictionary.now) code failed.now (map seen_part parts.now)) }
{
    match failed {
        None => Ok(()),
        Some(avp) => put_failed_avp(out, dictionary, code, &avp.view(), parts),
    }
}

#[tactic(auto, unfolding(crate::specs::Faulty::fault_name))]
fn put_fault_name(out: &mut Vec<u8>, code: ResultCode) -> Result<(), AllocError>
    ensures { OnOk result (out.new.items ≡ out.old.items ++ fault_name code) }
{
    put_number(out, b"fault ", u64::from(code.number()))?;
    out.extend_from_slice(b" ")?;
    out.extend_from_slice(code.name().as_bytes())
}

#[tactic(auto, unfolding(crate::specs::Faulty::message_place))]
fn put_message_place(
    out: &mut Vec<u8>,
    line: Option<u64>,
    number: u64,
    offset: u64,
) -> Result<(), AllocError>
    ensures { OnOk result (out.new.items ≡ out.old.items ++ message_place line number offset) }
{
    out.extend_from_slice(b" in ")?;
    put_numbered(out, line, number, offset)
}

/// Puts the line of the fault of a message, the `number`th of an input, which begins at `offset` in it.
#[tactic(auto, unfolding(crate::specs::Faulty::fault_line))]
pub(crate) fn put_fault_line(
    out: &mut Vec<u8>,
    dictionary: &Dictionary,
    line: Option<u64>,
    number: u64,
    offset: u64,
    parts: &[Part<'_>],
    fault: &MsgFault,
) -> Result<(), AllocError>
    ensures { OnOk result (out.new.items
        ≡ out.old.items ++ fault_line (known dictionary.now) line number offset (map seen_part parts.now) fault.now) }
{
    put_fault_name(out, fault.result)?;
    put_message_place(out, line, number, offset)?;
    out.extend_from_slice(reason(fault.result))?;
    put_failed(out, dictionary, fault.result, &fault.failed, parts)?;
    out.extend_from_slice(b"\n")
}
