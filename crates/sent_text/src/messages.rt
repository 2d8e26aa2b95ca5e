//! Octets cut into messages, each put in names.
ghost use Rattle.std.specs.Prelude.{◌≡◌, ◌+◌, ◌++◌, [], ℕ, All, IfOk, List, OnOk, false};
ghost use Rattle.dia_frame.specs.Frames.{Frames, IsMessage};
ghost use Rattle.dia_show.specs.Glossary.{base_meanings};
ghost use Rattle.sent_text.specs.Sent.{Tells, TellsWaiting, rest_text};

use base_text::put_content;
use dia_frame::{FeedError, Framer};
use dia_show::Glossary;
use msg_explain::explain;
use std::alloc::AllocError;

/// The longest message: the greatest multiple of 4 that a header's 24 bits tell (RFC 6733 section 3).
pub(crate) const LONGEST: usize = 0xff_fffc;

/// A count and so many more. No memory holds messages whose counts need more than 64 bits.
fn counted(count: usize, more: usize) -> Result<usize, AllocError>
    ensures { IfOk result (λ sum. sum ≡ count + more) }
{
    match count.checked_add(more) {
        Some(sum) => Ok(sum),
        None => Err(AllocError),
    }
}

/// Has a Framer take octets, its first ones: the messages in them wait then, also where those behind them show a fault.
fn take(framer: &mut Framer, octets: &[u8]) -> Result<(), AllocError>
    requires { framer.old ≡ record { limit = LONGEST; waiting = []; rest = []; broken = false } }
    ensures { OnOk result ((rest : List ℕ) × Frames octets.now LONGEST framer.new.waiting rest) }
{
    match framer.feed(octets) {
        Ok(_) => Ok(()),
        Err(FeedError::Fault(_)) => Ok(()),
        Err(FeedError::NoMemory) => Err(AllocError),
    }
}

/// Puts the messages that wait, in names. Says how many octets they have.
fn put_waiting(
    out: &mut Vec<u8>,
    glossary: &Glossary,
    framer: &mut Framer,
) -> Result<usize, AllocError>
    requires names { glossary.now ≡ base_meanings }
    requires each { All (IsMessage LONGEST) framer.old.waiting }
    ensures { IfOk result (λ place. TellsWaiting framer.old.waiting place out.old.items out.new.items) }
{
    let mut number = 0;
    let mut place = 0;
    'messages: while let Some(message) = framer.next_frame() {
        number = counted(number, 1)?;
        explain(
            out,
            glossary,
            None,
            number as u64,
            place as u64,
            message.as_slice(),
        )?;
        place = counted(place, message.len())?;
    }
    Ok(place)
}

/// Puts octets behind the messages that begin none; nothing where there are none.
fn put_rest(out: &mut Vec<u8>, rest: &[u8]) -> Result<(), AllocError>
    ensures { OnOk result (out.new.items ≡ out.old.items ++ rest_text rest.now) }
{
    if rest.is_empty() {
        return Ok(());
    }
    out.extend_from_slice(b"rest")?;
    put_content(out, rest)?;
    out.extend_from_slice(b"\n")
}

/// Puts what a connection has sent behind what `out` holds: each message in the standard's names, as `explain` does,
/// with its number from 1 and the octet at which it begins; and `rest HEX` where octets are left that begin no message.
pub fn put_messages(out: &mut Vec<u8>, octets: &[u8]) -> Result<(), AllocError>
    ensures { OnOk result ((text : List ℕ) × Tells octets.now text × (out.new.items ≡ out.old.items ++ text)) }
{
    let alloc = *out.allocator();
    let glossary = Glossary::base(alloc)?;
    let mut framer = Framer::new(alloc, LONGEST);
    take(&mut framer, octets)?;
    let place = put_waiting(out, &glossary, &mut framer)?;
    put_rest(out, &octets[place..])
}
