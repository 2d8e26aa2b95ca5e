//! The fault of a message (RFC 6733 section 7).

use crate::avps::{put_name, put_vendor};
use crate::members::{put_made, put_null, put_number, put_word};
use base_codes::ResultCode;
use dia_avp::AvpView;
use dia_dict::Dictionary;
use dia_msg::MsgFault;
use msg_explain::{Part, failed_place, reason};
use serde::Serializer;

fn put_place<S: Serializer>(out: &mut S, place: Option<usize>) -> Result<(), S::Error> {
    match place {
        None => put_null(out, "place"),
        Some(place) => put_number(out, "place", place as u64),
    }
}

fn put_failed<S: Serializer>(
    out: &mut S,
    dictionary: &Dictionary,
    code: ResultCode,
    failed: &AvpView<'_>,
    parts: &[Part<'_>],
) -> Result<(), S::Error> {
    out.key("failed")?;
    out.begin_map(None)?;
    put_number(out, "code", u64::from(failed.code))?;
    put_vendor(out, failed.vendor)?;
    put_name(out, dictionary.find(failed.code, failed.vendor))?;
    put_place(out, failed_place(dictionary, code, failed, parts))?;
    out.end_map()
}

/// What a message is refused for: its Result-Code, why, and the AVP that it is about.
pub(crate) fn put_fault<S: Serializer>(
    out: &mut S,
    dictionary: &Dictionary,
    fault: &MsgFault,
    parts: &[Part<'_>],
) -> Result<(), S::Error> {
    out.key("fault")?;
    out.begin_map(None)?;
    put_number(out, "result_code", u64::from(fault.result.number()))?;
    put_word(out, "name", fault.result.name())?;
    put_made(out, "reason", reason(fault.result))?;
    match &fault.failed {
        None => put_null(out, "failed")?,
        Some(avp) => put_failed(out, dictionary, fault.result, &avp.view(), parts)?,
    }
    out.end_map()
}
