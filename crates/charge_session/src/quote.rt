//! From the book's quotes to the facts of a server's event.

ghost use Rattle.std.specs.Prelude.{◌≡◌, ◌≤◌};
ghost use Rattle.charge_session.specs.Quotes.{with_numbers, with_quote, with_verdict, quoted};

use acct_totals::{Quote, request_verdict};
use base_codes::{session_fact, slot};
use tab_law::PLACES;

/// What the account book answers a server's event: a quote of the request, or one of each of its services by slot,
/// none where a slot has no service (RFC 8506 section 5.1.2).
#[derive(Clone, Copy, PartialEq, Eq)]
pub enum Quotes {
    One(Quote),
    Several([Option<Quote>; slot::MAX_SLOTS]),
}

/// Puts four numbers from a place on.
fn put_numbers(facts: &mut [u64; PLACES], first: usize, numbers: (u64, u64, u64, u64))
    requires { first ≤ 60 }
    ensures { facts.new ≡ with_numbers first numbers facts.old }
{
    facts[first] = numbers.0;
    facts[first + 1] = numbers.1;
    facts[first + 2] = numbers.2;
    facts[first + 3] = numbers.3;
}

/// Puts a quote from a place on: its verdict, the units offered, whether they are the last, the units that can be paid.
fn put_quote(facts: &mut [u64; PLACES], first: usize, quote: &Option<Quote>)
    requires { first ≤ 60 }
    ensures { facts.new ≡ with_quote first quote.now facts.old }
{
    let numbers = match quote {
        None => (0, 0, 0, 0),
        Some(quote) => (
            u64::from(quote.verdict.number()),
            quote.offer,
            u64::from(quote.is_final),
            quote.pay,
        ),
    };
    put_numbers(facts, first, numbers);
}

/// Puts the verdict of a request with several services.
fn put_verdict(facts: &mut [u64; PLACES], quotes: &[Option<Quote>; slot::MAX_SLOTS])
    ensures { facts.new ≡ with_verdict quotes.now facts.old }
{
    let verdict = u64::from(request_verdict(quotes).number());
    put_numbers(facts, session_fact::RESULT_CODE, (verdict, 0, 0, 0));
}

/// Puts what the book answers into the facts of a server's event. Of one quote its verdict, offer, whether that is
/// final, and what can be paid become facts 12 to 15; of several the same become those of each slot, 0 where it has no
/// service, and fact 12 is the verdict of the request: 5030 for an account that is not open, else 2001 where a slot has
/// it, else 4012 (RFC 8506 section 9). All other facts stay. Takes no memory.
pub fn fill_quotes(facts: &mut [u64; PLACES], quotes: &Quotes)
    ensures { facts.new ≡ quoted quotes.now facts.old }
{
    match quotes {
        Quotes::One(quote) => put_quote(facts, session_fact::RESULT_CODE, &Some(*quote)),
        Quotes::Several(quotes) => {
            put_verdict(facts, quotes);
            put_quote(facts, slot::FIRST + slot::RESULT_CODE, &quotes[0]);
            put_quote(
                facts,
                slot::FIRST + slot::SIZE + slot::RESULT_CODE,
                &quotes[1],
            );
            put_quote(
                facts,
                slot::FIRST + 2 * slot::SIZE + slot::RESULT_CODE,
                &quotes[2],
            );
            put_quote(
                facts,
                slot::FIRST + 3 * slot::SIZE + slot::RESULT_CODE,
                &quotes[3],
            );
        }
    }
}
