//! The event as which an item is handled.

ghost use Rattle.std.specs.Prelude.{◌≡◌};
ghost use Rattle.bench_spec.specs.Booked.{event_with_quote, quotes_for};

use acct_book::Page;
use charge_session::{Quotes, ServiceUnits, Want, fill_quotes};
use tab_step::Event;

/// What the book says to what is asked.
fn quotes_for(page: &Page, want: &Want) -> Quotes
    ensures { result ≡ quotes_for page.now.book want.now }
{
    match &want.asked {
        ServiceUnits::One(slot) => {
            let quote = page.quote(want.account, want.session, slot.group, slot.used, slot.want);
            Quotes::One(quote)
        }
        ServiceUnits::Several(slots) => {
            Quotes::Several(page.quote_groups(want.account, want.session, slots))
        }
    }
}

/// An event with the book's quote among its facts, where one is asked for.
pub(crate) fn event_with_quote(page: &Page, want: &Option<Want>, event: Event) -> Event
    ensures { result ≡ event_with_quote page.now.book want.now event }
{
    let mut event = event;
    if let Some(want) = want {
        fill_quotes(&mut event.facts, &quotes_for(page, want));
    }
    event
}
