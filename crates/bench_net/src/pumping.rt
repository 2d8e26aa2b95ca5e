//! A call of `pump`: what came is read and handed on, and then what was sent goes out.
ghost use Rattle.std.specs.Prelude.{◌≡◌, ◌<◌, ◌≤◌, ◌+◌, ◌⊎◌, ◌&&◌, ◌^◌, max, not, Err, IfErr, OnOk};
ghost use Rattle.bench_net.specs.Pipes.{HandsOn, loss_waiting, waiting};
ghost use Rattle.bench_net.specs.Pumps.{code_by, is_ended, written_of, most_read, most_written};
ghost use Rattle.bench_net.specs.Pumps.{IsHeard, HasCause, IsHeldBy, IsOver};
ghost use Rattle.bench_net.specs.Texts.{EndsAt};
ghost use Rattle.bench_net.specs.Writings.{Sends};

use crate::end::End;
use crate::fault::{PumpCode, PumpFault, Pumped};
use crate::hear::hear;
use crate::pipe::Pipe;
use crate::port::Port;
use crate::said::Said;
use crate::send::send;
use crate::settle::{Stop, lose};
use base_device::{ByteSink, ByteSource};

/// How many calls of a kind a device may have made before, for `pump` to make any.
const MAX_CALLS: u64 = 1 << 63;

// The greatest of a source's counts.
fn most_read<I: ByteSource>(source: &I) -> u64
    ensures { result ≡ most_read I.reads I.failures I.blocked source.now }
{
    source.reads().max(source.failures()).max(source.blocked())
}

// The greatest of a sink's counts.
fn most_written<O: ByteSink>(sink: &O) -> u64
    ensures { result ≡ most_written O.writes O.failures O.idle O.blocked sink.now }
{
    let calls = sink.writes().max(sink.failures());
    calls.max(sink.idle()).max(sink.blocked())
}

// A call that ended before all was done.
fn fault(code: PumpCode, read: u64, written: u64) -> Result<Pumped, PumpFault>
    ensures { result ≡ Err (record { code = code; read = read; written = written }) }
{
    Err(PumpFault {
        code,
        read,
        written,
    })
}

// The fault of a port that holds things up.
fn code_of(stop: Stop) -> PumpCode
    ensures { result ≡ code_by stop }
{
    match stop {
        Stop::Full => PumpCode::Full,
        Stop::NoMemory => PumpCode::NoMemory,
    }
}

// The line is lost, where the end of the input hasn't made it so.
fn lose_unless_ended<P: Port>(port: &mut P, pipe: &mut Pipe, end: End)
    ensures handed { HandsOn P.takes P.refuses P.sent port.old port.new (waiting pipe.old) (waiting pipe.new)
        (loss_waiting (not (is_ended end) && not pipe.old.losing)) }
    ensures out { pipe.new.out ≡ pipe.old.out }
    ensures none_kept { pipe.old.kept ≡ 0 → pipe.new.kept ≡ 0 }
{
    if let End::Ended = end {
        return;
    }
    lose(port, pipe);
}

// Both halves, over devices that have made few calls.
fn pump_once<P: Port, I: ByteSource, O: ByteSink>(
    port: &mut P,
    pipe: &mut Pipe,
    source: &mut I,
    sink: &mut O,
) -> Result<Pumped, PumpFault>
    requires source { most_read I.reads I.failures I.blocked source.old ≤ 2 ^ 63 }
    requires sink { most_written O.writes O.failures O.idle O.blocked sink.old ≤ 2 ^ 63 }
    ensures heard { IsHeard P.takes P.refuses P.sent I.remaining I.blocked port.old port.new pipe.old pipe.new
        source.old source.new result }
    ensures sent { Sends P.sent O.contents port.new pipe.old.out pipe.new.out sink.old sink.new (written_of result) }
    ensures out { OnOk result (EndsAt (P.sent port.new) pipe.new.out ⊎ (O.blocked sink.new ≡ O.blocked sink.old + 1)) }
    ensures cause { HasCause I.failures O.failures source.old source.new sink.old sink.new result }
    ensures held { IfErr result (λ fault. IsHeldBy P.refuses port.new pipe.new fault.code) }
    ensures over { IfErr result (λ fault. fault.code ≡ PumpCode.TurnsOver
        → I.reads source.new + O.writes sink.new ≡ I.reads source.old + O.writes sink.old + 65536) }
    ensures turns { I.reads source.new + O.writes sink.new ≤ I.reads source.old + O.writes sink.old + 65536 }
{
    let heard = hear(port, pipe, source);
    let read = heard.read;
    let end = heard.end;
    if let End::Failed = end {
        lose(port, pipe);
        return fault(PumpCode::ReadFault, read, 0);
    }
    if let End::Over = end {
        lose(port, pipe);
        return fault(PumpCode::TurnsOver, read, 0);
    }
    let told = send(port, pipe, sink, heard.turns);
    let written = told.written;
    if let Said::Failed = told.said {
        lose_unless_ended(port, pipe, end);
        return fault(PumpCode::WriteFault, read, written);
    }
    if let End::Held(stop) = end {
        return fault(code_of(stop), read, written);
    }
    if let Said::Over = told.said {
        lose_unless_ended(port, pipe, end);
        return fault(PumpCode::TurnsOver, read, written);
    }
    Ok(Pumped { read, written })
}

/// Reads what the source gives and hands it to the port, in pieces of at most `MAX_PIECE` octets, until the source has
/// nothing for now or ends, or the port has no use for more; then writes what the port sent and isn't out yet, until
/// all is out or the sink takes nothing for now. The end of the input makes the line lost, and so do the faults of a
/// device and of turns. What the port refuses for now stays in the pipe and is handed on first at the next call; while
/// the port refuses it, nothing is read, and what it sent goes out all the same. At most `MAX_TURNS` reads and writes
/// are made. Takes no memory.
pub fn pump<P: Port, I: ByteSource, O: ByteSink>(
    port: &mut P,
    pipe: &mut Pipe,
    source: &mut I,
    sink: &mut O,
) -> Result<Pumped, PumpFault>
    // What was read, and what became of it and of the loss, at the port and in the pipe.
    ensures heard { IsHeard P.takes P.refuses P.sent I.remaining I.blocked port.old port.new pipe.old pipe.new
        source.old source.new result }
    // What went out stands next in what the port sent.
    ensures sent { Sends P.sent O.contents port.new pipe.old.out pipe.new.out sink.old sink.new (written_of result) }
    ensures out { OnOk result (EndsAt (P.sent port.new) pipe.new.out ⊎ (O.blocked sink.new ≡ O.blocked sink.old + 1)) }
    // Each fault has its cause.
    ensures cause { HasCause I.failures O.failures source.old source.new sink.old sink.new result }
    ensures held { IfErr result (λ fault. IsHeldBy P.refuses port.new pipe.new fault.code) }
    ensures over { IfErr result (λ fault. fault.code ≡ PumpCode.TurnsOver
        → IsOver I.reads I.failures I.blocked O.writes O.failures O.idle O.blocked source.old source.new
        sink.old sink.new) }
    ensures turns { I.reads source.new + O.writes sink.new ≤ I.reads source.old + O.writes sink.old + 65536 }
{
    if most_read(source) > MAX_CALLS || most_written(sink) > MAX_CALLS {
        lose(port, pipe);
        return fault(PumpCode::TurnsOver, 0, 0);
    }
    pump_once(port, pipe, source, sink)
}
