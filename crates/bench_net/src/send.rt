//! The writing half of a call: what the port sent goes out.
ghost use Rattle.std.specs.Prelude.{◌≡◌, ◌≤◌, ◌+◌, ◌^◌};
ghost use Rattle.bench_net.specs.Pipes.{waiting};
ghost use Rattle.bench_net.specs.Writings.{Sends, SaysBy};

use crate::hear::MAX_TURNS;
use crate::pipe::{MAX_PIECE, Pipe};
use crate::port::Port;
use crate::put::{Put, write_once};
use crate::said::Said;
use base_device::ByteSink;

/// What the writing half came to: why it ended, how many octets went out, and how many turns were made then.
#[derive(Drop)]
pub(crate) struct Written {
    pub(crate) said: Said,
    pub(crate) written: u64,
    pub(crate) turns: u64,
}

/// Writes what the port sent and what isn't out yet, until all is out, the sink takes nothing for now or fails, or all
/// turns are made.
pub(crate) fn send<P: Port, O: ByteSink>(
    port: &P,
    pipe: &mut Pipe,
    sink: &mut O,
    turns: u64,
) -> Written
    requires turns { turns ≤ MAX_TURNS }
    requires writes { O.writes sink.old ≤ 2 ^ 63 }
    requires failures { O.failures sink.old ≤ 2 ^ 63 }
    requires idle { O.idle sink.old ≤ 2 ^ 63 }
    requires blocked { O.blocked sink.old ≤ 2 ^ 63 }
    ensures sent { Sends P.sent O.contents port.now pipe.old.out pipe.new.out sink.old sink.new result.written }
    ensures said { SaysBy P.sent O.failures O.blocked port.now pipe.new sink.old sink.new turns result.turns
        result.said }
    ensures turns { (turns ≤ result.turns) × (result.turns ≤ MAX_TURNS) }
    ensures writes { O.writes sink.new + turns ≡ O.writes sink.old + result.turns }
    ensures waiting { waiting pipe.new ≡ waiting pipe.old }
    ensures losing { pipe.new.losing ≡ pipe.old.losing }
    ensures kept { pipe.new.kept ≡ pipe.old.kept }
{
    let mut buffer = [0u8; MAX_PIECE];
    let mut written = 0;
    'turns: for turn in turns..MAX_TURNS {
        let count = port.unsent(pipe.out, &mut buffer);
        if count == 0 {
            let said = Said::Out;
            return Written {
                said,
                written,
                turns: turn,
            };
        }
        let said = match write_once(sink, &buffer[..count]) {
            Put::Taken(taken) => {
                pipe.out += taken;
                written += taken as u64;
                continue;
            }
            Put::Blocked => Said::Blocked,
            Put::Failed => Said::Failed,
        };
        let turns = turn + 1;
        return Written {
            said,
            written,
            turns,
        };
    }
    Written {
        said: Said::Over,
        written,
        turns: MAX_TURNS,
    }
}
