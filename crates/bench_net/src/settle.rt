//! What a pipe keeps is handed on.
ghost use Rattle.std.specs.Prelude.{◌≡◌, [], IfOk, IfErr, OnErr, OnOk, true, not};
ghost use Rattle.bench_net.specs.Answers.{meaning_of};
ghost use Rattle.bench_net.specs.Events.{HasDeclined};
ghost use Rattle.bench_net.specs.Pipes.{HandsOn, IsEmpty, IsHeld, loss_waiting, refusal_of, waiting};

use crate::pipe::Pipe;
use crate::port::Port;
use crate::refusal::Refusal;

/// What a port answered that doesn't want what it was offered again.
#[derive(Clone, Copy)]
pub(crate) enum Answer {
    /// It took it.
    Taken,
    /// It has no use for it: there is no such connection, or it is closed.
    Declined,
}

/// Why a port wants what it was offered later.
#[derive(Clone, Copy)]
pub(crate) enum Stop {
    Full,
    NoMemory,
}

// What a port's answer means to what it was offered.
fn answer_of(answer: Result<(), Refusal>) -> Result<Answer, Stop>
    ensures { result ≡ meaning_of answer }
{
    match answer {
        Ok(()) => Ok(Answer::Taken),
        Err(Refusal::Unknown) | Err(Refusal::Closed) => Ok(Answer::Declined),
        Err(Refusal::Full) => Err(Stop::Full),
        Err(Refusal::NoMemory) => Err(Stop::NoMemory),
    }
}

// Hands on the piece, where one waits.
fn settle_piece<P: Port>(port: &mut P, pipe: &mut Pipe) -> Result<Answer, Stop>
    ensures handed { HandsOn P.takes P.refuses P.sent port.old port.new (waiting pipe.old) (waiting pipe.new) [] }
    ensures gone { OnOk result (pipe.new.kept ≡ 0) }
    ensures declined { IfOk result (λ answer. answer ≡ Answer.Declined → HasDeclined P.refuses port.new) }
    ensures held { IfErr result (λ stop. IsHeld P.refuses port.new pipe.new (refusal_of stop)) }
    ensures none_kept { pipe.old.kept ≡ 0 → pipe.new.kept ≡ 0 }
    ensures losing { pipe.new.losing ≡ pipe.old.losing }
    ensures out { pipe.new.out ≡ pipe.old.out }
{
    if pipe.kept == 0 {
        return Ok(Answer::Taken);
    }
    match answer_of(port.came(&pipe.room[..pipe.kept])) {
        Ok(answer) => {
            pipe.kept = 0;
            Ok(answer)
        }
        Err(stop) => Err(stop),
    }
}

// Hands on the loss, where it waits and no piece does.
fn settle_loss<P: Port>(port: &mut P, pipe: &mut Pipe) -> Result<Answer, Stop>
    requires { pipe.old.kept ≡ 0 }
    ensures handed { HandsOn P.takes P.refuses P.sent port.old port.new (waiting pipe.old) (waiting pipe.new) [] }
    ensures gone { OnOk result (IsEmpty pipe.new) }
    ensures declined { IfOk result (λ answer. answer ≡ Answer.Declined → HasDeclined P.refuses port.new) }
    ensures held { IfErr result (λ stop. IsHeld P.refuses port.new pipe.new (refusal_of stop)) }
    ensures none_kept { pipe.new.kept ≡ 0 }
    ensures losing { pipe.new.losing ≡ true → pipe.old.losing ≡ true }
    ensures still_losing { OnErr result (pipe.new.losing ≡ pipe.old.losing) }
    ensures out { pipe.new.out ≡ pipe.old.out }
{
    if !pipe.losing {
        return Ok(Answer::Taken);
    }
    match answer_of(port.lost()) {
        Ok(answer) => {
            pipe.losing = false;
            Ok(answer)
        }
        Err(stop) => Err(stop),
    }
}

/// Hands on what waits: the piece, and then the loss. Says what the port answered last.
pub(crate) fn settle<P: Port>(port: &mut P, pipe: &mut Pipe) -> Result<Answer, Stop>
    ensures handed { HandsOn P.takes P.refuses P.sent port.old port.new (waiting pipe.old) (waiting pipe.new) [] }
    ensures empty { OnOk result (IsEmpty pipe.new) }
    ensures declined { IfOk result (λ answer. answer ≡ Answer.Declined → HasDeclined P.refuses port.new) }
    ensures held { IfErr result (λ stop. IsHeld P.refuses port.new pipe.new (refusal_of stop)) }
    ensures none_kept { pipe.old.kept ≡ 0 → pipe.new.kept ≡ 0 }
    ensures losing { pipe.new.losing ≡ true → pipe.old.losing ≡ true }
    ensures still_losing { OnErr result (pipe.new.losing ≡ pipe.old.losing) }
    ensures out { pipe.new.out ≡ pipe.old.out }
{
    let first = settle_piece(port, pipe)?;
    if !pipe.losing {
        return Ok(first);
    }
    settle_loss(port, pipe)
}

/// The connection is lost: the port is told, or, where it refuses that for now, the pipe keeps the loss, as it keeps a
/// piece. It is told once, though this be called again before it is.
pub fn lose<P: Port>(port: &mut P, pipe: &mut Pipe)
    ensures handed { HandsOn P.takes P.refuses P.sent port.old port.new (waiting pipe.old) (waiting pipe.new)
        (loss_waiting (not pipe.old.losing)) }
    ensures none_kept { pipe.old.kept ≡ 0 → pipe.new.kept ≡ 0 }
    ensures out { pipe.new.out ≡ pipe.old.out }
{
    pipe.losing = true;
    let _ = settle(port, pipe);
}
