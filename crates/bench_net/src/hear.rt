//! The reading half of a call: what a source gives is handed to the port, piece by piece.
ghost use Rattle.std.specs.Prelude.{◌≡◌, ◌<◌, ◌≤◌, ◌+◌, ◌-◌, ◌^◌, List, ℕ, Bool, length};
ghost use Rattle.std.specs.List.{concat};
ghost use Rattle.bench_net.specs.Pipes.{IsEmpty, waiting};
ghost use Rattle.bench_net.specs.Readings.{Hears, EndsBy, TurnsBy, end_behind_input, end_behind_piece};

use crate::end::End;
use crate::given::{Given, read_once};
use crate::pipe::Pipe;
use crate::port::Port;
use crate::settle::{Answer, Stop, settle};
use base_device::ByteSource;

/// How many reads and writes a call of `pump` makes at most.
pub const MAX_TURNS: u64 = 65_536;

/// What one turn of the reading half came to: how many octets were read, and why the half ended, if it did.
#[derive(Drop)]
struct Turn {
    count: usize,
    end: Option<End>,
}

/// What the reading half came to: why it ended, and how many octets were read in how many turns.
#[derive(Drop)]
pub(crate) struct Heard {
    pub(crate) end: End,
    pub(crate) read: u64,
    pub(crate) turns: u64,
}

// Why the half ends behind a piece, if it does.
fn end_of_piece(answer: Result<Answer, Stop>) -> Option<End>
    ensures { result ≡ end_behind_piece answer }
{
    match answer {
        Ok(Answer::Taken) => None,
        Ok(Answer::Declined) => Some(End::Declined),
        Err(stop) => Some(End::Held(stop)),
    }
}

// Why the half ends behind the end of the input.
fn end_of_input(answer: Result<Answer, Stop>) -> Option<End>
    ensures { result ≡ end_behind_input answer }
{
    match answer {
        Ok(_) => Some(End::Ended),
        Err(stop) => Some(End::Held(stop)),
    }
}

// Reads once, and hands on what was read.
fn hear_once<P: Port, I: ByteSource>(port: &mut P, pipe: &mut Pipe, source: &mut I) -> Turn
    requires empty { IsEmpty pipe.old }
    requires reads { I.reads source.old < 2 ^ 64 - 1 }
    requires failures { I.failures source.old < 2 ^ 64 - 1 }
    requires blocked { I.blocked source.old < 2 ^ 64 - 1 }
    ensures heard { (pieces : List (List ℕ)) × (lost : Bool)
        × (length (concat pieces) ≡ result.count)
        × Hears P.takes P.refuses P.sent I.remaining port.old port.new (waiting pipe.old) (waiting pipe.new)
        source.old source.new pieces lost
        × TurnsBy P.refuses I.remaining I.reads I.failures I.blocked port.new pipe.old pipe.new source.old source.new
        lost result.end }
    ensures few { result.count ≤ 4096 }
    ensures reads { I.reads source.new ≡ I.reads source.old + 1 }
    ensures out { pipe.new.out ≡ pipe.old.out }
{
    match read_once(source, &mut pipe.room) {
        Given::Octets(count) => {
            pipe.kept = count;
            let end = end_of_piece(settle(port, pipe));
            Turn { count, end }
        }
        Given::End => {
            pipe.losing = true;
            let end = end_of_input(settle(port, pipe));
            Turn { count: 0, end }
        }
        Given::Later => Turn {
            count: 0,
            end: Some(End::Blocked),
        },
        Given::Again => Turn {
            count: 0,
            end: None,
        },
        Given::Failed => Turn {
            count: 0,
            end: Some(End::Failed),
        },
    }
}

// Reads and hands on, turn by turn.
fn hear_all<P: Port, I: ByteSource>(port: &mut P, pipe: &mut Pipe, source: &mut I) -> Heard
    requires empty { IsEmpty pipe.old }
    requires reads { I.reads source.old ≤ 2 ^ 63 }
    requires failures { I.failures source.old ≤ 2 ^ 63 }
    requires blocked { I.blocked source.old ≤ 2 ^ 63 }
    ensures heard { (pieces : List (List ℕ)) × (lost : Bool)
        × (length (concat pieces) ≡ result.read)
        × Hears P.takes P.refuses P.sent I.remaining port.old port.new (waiting pipe.old) (waiting pipe.new)
        source.old source.new pieces lost
        × EndsBy P.refuses I.remaining I.reads I.failures I.blocked port.new pipe.old pipe.new source.old source.new
        lost result.end }
    ensures turns { result.turns ≤ MAX_TURNS }
    ensures reads { I.reads source.new ≡ I.reads source.old + result.turns }
    ensures out { pipe.new.out ≡ pipe.old.out }
{
    let mut read = 0;
    'turns: for turn in 0..MAX_TURNS {
        let went = hear_once(port, pipe, source);
        read += went.count as u64;
        if let Some(end) = went.end {
            let turns = turn + 1;
            return Heard { end, read, turns };
        }
    }
    Heard {
        end: End::Over,
        read,
        turns: MAX_TURNS,
    }
}

/// Hands on what the pipe keeps, and then what the source gives, until it has nothing, fails or ends, the port wants no
/// more, or all turns are made.
pub(crate) fn hear<P: Port, I: ByteSource>(port: &mut P, pipe: &mut Pipe, source: &mut I) -> Heard
    requires reads { I.reads source.old ≤ 2 ^ 63 }
    requires failures { I.failures source.old ≤ 2 ^ 63 }
    requires blocked { I.blocked source.old ≤ 2 ^ 63 }
    ensures heard { (pieces : List (List ℕ)) × (lost : Bool)
        × (length (concat pieces) ≡ result.read)
        × Hears P.takes P.refuses P.sent I.remaining port.old port.new (waiting pipe.old) (waiting pipe.new)
        source.old source.new pieces lost
        × EndsBy P.refuses I.remaining I.reads I.failures I.blocked port.new pipe.old pipe.new source.old source.new
        lost result.end }
    ensures turns { result.turns ≤ MAX_TURNS }
    ensures reads { I.reads source.new ≡ I.reads source.old + result.turns }
    ensures out { pipe.new.out ≡ pipe.old.out }
{
    if let Err(stop) = settle(port, pipe) {
        return Heard {
            end: End::Held(stop),
            read: 0,
            turns: 0,
        };
    }
    hear_all(port, pipe, source)
}
