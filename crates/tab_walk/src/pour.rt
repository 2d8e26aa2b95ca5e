//! A machine stepped over the events of a text, and what its steps print written out as they come.
ghost use Rattle.std.specs.Prelude.{◌≡◌, ◌≤◌, ◌<◌, ◌-◌, ◌^◌, ◌++◌, max, OnErr, OnOk};
ghost use Rattle.base_device.specs.Devices.{HasWriteCause};
ghost use Rattle.event_text.specs.Events.{events_of};
ghost use Rattle.tab_walk.specs.Pours.{IsHalted, IsPoured, PutsOut};
ghost use Rattle.tab_walk.specs.Walks.{IsReady, StepBy, told_of};

use crate::steps::{Rules, put_told, step_by};
use base_device::{ByteSink, MAX_IDLE_WRITES, WriteFault, write_whole};
use event_text::Events;
use std::alloc::{AllocError, Global};
use tab_call::Registry;
use tab_step::{Event, MachineState, Stepped};

/// How many octets wait to be written out together.
const PIECE: usize = 65_536;

/// Why no more events are stepped.
#[derive(Clone, Copy)]
pub(crate) enum Halt {
    NoMemory,
    WriteFault,
}

impl From<WriteFault> for Halt {
    ghost use Rattle.tab_walk.specs.declared.pour.Halt.TheVariants.{WriteFault};

    ghost from_gives = { λ _ halt. halt ≡ WriteFault };

    fn from(_fault: WriteFault) -> Halt {
        Halt::WriteFault
    }
}

/// What a machine is stepped by, and how its steps are printed.
#[derive(Clone, Copy)]
pub(crate) struct Stepping<'a> {
    pub rules: Rules<'a>,
    pub registry: &'a Registry,
    pub why: bool,
}

/// Puts what is printed of a step behind what waits, whole or not at all.
fn put_whole(
    out: &mut Vec<u8>,
    text: &mut Vec<u8>,
    by: Stepping<'_>,
    machine: &MachineState,
    event: &Event,
    step: &Stepped,
) -> Result<(), AllocError>
    requires { IsReady by.registry.now.book by.rules }
    ensures put { OnOk result (out.new.items ≡ out.old.items
        ++ told_of by.entry.why by.entry.registry.now.book by.entry.rules machine.now event.now step.now) }
    ensures err { OnErr result (out.new.items ≡ out.old.items) }
{
    text.clear();
    put_told(
        text,
        by.rules,
        by.registry.laws(),
        by.why,
        machine,
        event,
        step,
    )?;
    out.extend_from_slice(text)
}

/// Writes out what waits, once it is enough.
fn write_enough<O: ByteSink>(out: &mut Vec<u8>, sink: &mut O) -> Result<(), WriteFault>
    requires idle { O.idle sink.old ≡ 0 }
    requires failures { O.failures sink.old < 2 ^ 64 - 1 }
    ensures put { OnOk result (PutsOut O.contents O.failures O.idle sink.old sink.new out.old.items out.new.items) }
    ensures cause { OnErr result (HasWriteCause O.failures O.idle sink.old sink.new) }
    ensures row { O.most_idle sink.new ≤ max (O.most_idle sink.old) MAX_IDLE_WRITES }
{
    if out.len() < PIECE {
        return Ok(());
    }
    write_whole(sink, out)?;
    out.clear();
    Ok(())
}

/// Writes out what waits, once memory ran out.
fn write_rest<O: ByteSink>(out: &[u8], sink: &mut O) -> Halt
    requires idle { O.idle sink.old ≡ 0 }
    requires failures { O.failures sink.old < 2 ^ 64 - 1 }
    ensures halted { IsHalted O.contents O.failures O.idle sink.old sink.new out.now result }
    ensures row { O.most_idle sink.new ≤ max (O.most_idle sink.old) MAX_IDLE_WRITES }
{
    match write_whole(sink, out) {
        Ok(()) => Halt::NoMemory,
        Err(fault) => Halt::from(fault),
    }
}

/// Steps a machine over the events of a text, and writes out what each step prints.
/// Room for one step is enough, and of the events none is kept.
pub(crate) fn pour<O: ByteSink>(
    alloc: Global,
    by: Stepping<'_>,
    start: &MachineState,
    events: &[u8],
    sink: &mut O,
) -> Result<(), Halt>
    requires ready { IsReady by.registry.now.book by.rules }
    requires idle { O.idle sink.old ≡ 0 }
    requires failures { O.failures sink.old < 2 ^ 64 - 1 }
    ensures poured { IsPoured O.contents O.failures O.idle
        (StepBy by.entry.registry.now.book by.entry.rules)
        (told_of by.entry.why by.entry.registry.now.book by.entry.rules) start.now
        (events_of by.entry.registry.now.book events.now) sink.old sink.new result }
    ensures row { O.most_idle sink.new ≤ max (O.most_idle sink.old) MAX_IDLE_WRITES }
{
    let mut out = Vec::new(alloc);
    let mut text = Vec::new(alloc);
    let mut room = Stepped::new();
    let mut machine = *start;
    let mut left = Events::new(events);
    while let Some(event) = left.next(by.registry.laws()) {
        step_by(by.rules, by.registry, &machine, &event, &mut room);
        match put_whole(&mut out, &mut text, by, &machine, &event, &room) {
            Ok(()) => {}
            Err(AllocError) => return Err(write_rest(&out, sink)),
        }
        machine = room.after;
        write_enough(&mut out, sink)?;
    }
    write_whole(sink, &out)?;
    Ok(())
}
