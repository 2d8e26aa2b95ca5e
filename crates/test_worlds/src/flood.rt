//! More sessions than a shard has room for.

use base_list::Octets;
use bench_item::{Source, Step};
use bench_play::{Play, joined};
use bench_world::TakesSteps;
use std::alloc::{AllocError, Global};

/// The most machines of a shard; one is the peer's.
const MACHINES: u32 = 4_096;

/// The header of a message of so many octets below 256, with these flags, command 272,
/// Application-Id 4 and both identifiers 7.
fn header(flags: u8, length: usize) -> [u8; 20] {
    let length = length.min(255) as u8;
    [
        1, 0, 0, length, flags, 0, 1, 16, 0, 0, 0, 4, 0, 0, 0, 7, 0, 0, 0, 7,
    ]
}

/// A message whose Session-Id is `f;` and a number, with so many octets behind that.
fn message(alloc: Global, flags: u8, number: u32, rest: &[u8]) -> Result<Vec<u8>, AllocError> {
    let name = format!(in alloc; "f;{number}")?;
    let size = name.len().min(9);
    let padded = (size + 3) / 4 * 4;
    let length = rest.len().min(200) + 28 + padded;
    let mut octets = Vec::new(alloc);
    octets.extend_from_slice(&header(flags, length))?;
    octets.extend_from_slice(&[0, 0, 1, 7, 0x40, 0, 0, 8 + size as u8])?;
    octets.extend_from_slice(name.as_bytes())?;
    for _ in size..padded {
        octets.push(0)?;
    }
    octets.extend_from_slice(rest)?;
    Ok(octets)
}

/// Takes the steps in which a request is served: it is handed on by the peer's machine, to its session and back.
fn serve<B: TakesSteps + Drop>(play: &mut Play<'_, B>) -> Result<(), AllocError> {
    for (source, items) in [
        (Source::Line(1), 1u32),
        (Source::Shard(0), 1),
        (Source::Shard(0), 2),
    ] {
        for _ in 0..items {
            play.take(Step::Lift(source), true)?;
            play.take(Step::Drop(source), true)?;
        }
        play.take(Step::Work(0), true)?;
    }
    play.take(Step::Lift(Source::Shard(0)), true)?;
    play.take(Step::Drop(Source::Shard(0)), true)?;
    Ok(())
}

/// Whether the request of a session is answered by these octets.
fn is_answered<B: TakesSteps + Drop>(
    play: &mut Play<'_, B>,
    piece: Octets,
    answer: &[u8],
) -> Result<bool, AllocError> {
    play.take(Step::Came { line: 1, piece }, true)?;
    serve(play)?;
    Ok(match play.worlds.get(0) {
        Some(world) => world.core().sent(1).ends_with(answer),
        None => false,
    })
}

/// The number of the first session that is not answered 2001.
fn wrong_session<B: TakesSteps + Drop>(
    play: &mut Play<'_, B>,
    asked: &[u8],
    granted: &[u8],
) -> Result<Option<u32>, AllocError> {
    for number in 0..MACHINES - 1 {
        let octets = message(play.alloc, 0xc0, number, asked)?;
        let answer = message(play.alloc, 0x40, number, granted)?;
        if !is_answered(play, Octets::new(octets), answer.as_slice())? {
            return Ok(Some(number));
        }
    }
    Ok(None)
}

/// A request for no units by each of 4,096 sessions, the last of which finds no room;
/// its octets come, and nothing of it is handled yet.
pub fn flood<B: TakesSteps + Drop>(play: &mut Play<'_, B>) -> Result<(), AllocError> {
    let alloc = play.alloc;
    let asked = joined(alloc, play.list, "others context initial subscriber")?;
    let granted = joined(alloc, play.list, "success server application initial")?;
    if let Some(number) = wrong_session(play, asked.as_slice(), granted.as_slice())? {
        let text = format!(in alloc; "session {number} is not granted\n")?;
        play.out.extend_from_slice(text.as_bytes())?;
    }
    let octets = message(alloc, 0xc0, MACHINES - 1, asked.as_slice())?;
    let piece = Octets::new(octets);
    play.take(Step::Came { line: 1, piece }, true)?;
    Ok(())
}
