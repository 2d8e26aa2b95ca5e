//! The services of one request, quoted one after the other (RFC 8506 section 5.1.2).
ghost use Rattle.std.specs.Prelude.{◌≡◌, ◌<◌, fold};
ghost use Rattle.acct_totals.specs.Answers.{quote_from};
ghost use Rattle.std.specs.List.{list_any};
ghost use Rattle.acct_totals.specs.Slots.{free_after, held_by, is_numbered, verdict_of_request};

use crate::answer::Quote;
use base_codes::ResultCode;

/// One service of a request (Multiple-Services-Credit-Control, RFC 8506 section 8.16):
/// its group, and the service units that it used and wants.
#[derive(Clone, Copy, PartialEq, Eq)]
pub struct Slot {
    pub group: u64,
    pub used: u64,
    pub want: u64,
}

/// A slot of a request, empty where it has no service, with its quote.
pub type Quoted = (Option<Slot>, Option<Quote>);

impl Slot {
    /// The slot's quote where its reservation and what is free come to so much, and what is then free.
    pub fn quote(&self, funds: u64) -> (Quote, u64)
        ensures quote { result.0 ≡ quote_from funds self.now.used self.now.want }
        ensures free { result.1 ≡ free_after funds self.now }
    {
        let quote = Quote::from_funds(funds, self.used, self.want);
        (quote, funds - quote.pay - quote.offer)
    }
}

// A group's reservation once this slot has been served too.
fn held_by(group: u64, held: u64, earlier: Quoted) -> u64
    ensures { result ≡ held_by group held earlier }
{
    let (Some(slot), Some(quote)) = earlier else {
        return held;
    };
    if slot.group == group {
        quote.offer
    } else {
        held
    }
}

/// The reservation of a group once these slots have been served:
/// the offer of the last one of that group, else what it was before.
pub fn held_after(group: u64, held: u64, earlier: &[Quoted]) -> u64
    ensures { result ≡ fold (held_by group) held earlier.now }
{
    let mut last = held;
    for slot in earlier {
        last = held_by(group, last, *slot);
    }
    last
}

// Whether a quote's verdict has this number.
fn is_numbered(number: u32, quote: Option<Quote>) -> bool
    ensures { result ≡ is_numbered number quote }
{
    match quote {
        Some(quote) => quote.verdict.number() == number,
        None => false,
    }
}

// Whether the verdict of a slot has this number.
fn any_numbered(number: u32, quotes: &[Option<Quote>]) -> bool
    ensures { result ≡ list_any (is_numbered number) quotes.now }
{
    quotes.iter().any(|quote| is_numbered(number, *quote))
}

/// The verdict of a whole request: that of an unknown account, else success where one of its slots has it,
/// else that the credit limit is reached (RFC 8506 section 9).
pub fn request_verdict(quotes: &[Option<Quote>]) -> ResultCode
    ensures { result ≡ verdict_of_request quotes.now }
{
    if any_numbered(5030, quotes) {
        ResultCode::UserUnknown
    } else if any_numbered(2001, quotes) {
        ResultCode::Success
    } else {
        ResultCode::CreditLimitReached
    }
}
