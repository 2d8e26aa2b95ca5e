//! The log, its text, and scripts.

use acct_totals::Outcome;
use base_list::Octets;
use bench_item::{
    Entry, Handled, Item, KeptEvent, Key, MAX_ENTRIES, MachineItem, Moved, Role, Series, Source,
    Step,
};
use bench_log::{Log, LogError};
use log_text::{NameBook, put_entry};
use peer_rules::peer_laws;
use script_text::{ScriptStep, read_script};
use std::alloc::Global;
use std::test::Fail;
use step_text::{Machines, read_step, write_step};
use tab_law::{Deed, LawBook, PLACES};
use tab_step::{Event, MachineState};

/// An entry of a step alone.
fn plain(step: Step) -> Entry {
    Entry {
        step,
        item: None,
        handled: None,
    }
}

fn key(alloc: Global) -> Result<Key, Fail> {
    Ok(Key {
        role: Role::Peer,
        name: Octets::from_slice(alloc, b"c.example")?,
    })
}

fn event() -> Event {
    let mut facts = [0; PLACES];
    facts[1] = 9;
    facts[63] = u64::MAX;
    Event { kind: 0, facts }
}

fn deed(code: u16, first: u64) -> Deed {
    let mut deed = Deed {
        code,
        a: [0; PLACES],
    };
    deed.a[0] = first;
    deed
}

/// A Work entry of the peer's machine.
fn worked(alloc: Global, handled: Handled) -> Result<Entry, Fail> {
    let item = MachineItem {
        key: key(alloc)?,
        event: KeptEvent::keep(alloc, &event())?,
        condition: None,
        session: Octets::new(Vec::new(alloc)),
    };
    Ok(Entry {
        step: Step::Work(0),
        item: Some(Item::ToMachine(item)),
        handled: Some(handled),
    })
}

/// A move with a deed that has no name, one of the account book that is done, and one that is refused.
fn moved(alloc: Global) -> Result<Handled, Fail> {
    let state = |state: u8| MachineState {
        state,
        regs: [5; PLACES],
    };
    let deeds = Vec::from_slice(alloc, &[deed(99, 1), deed(20, 60), deed(24, 7)])?;
    let outcomes = Vec::from_slice(
        alloc,
        &[
            Outcome::Done {
                amount: 60,
                unpaid: 0,
            },
            Outcome::Refused,
        ],
    )?;
    let chain = Vec::from_slice(alloc, &[[5; PLACES]])?;
    Ok(Handled::Move(Moved {
        machine: 4097,
        event: event(),
        before: state(0),
        after: state(1),
        row: Some(2),
        chain: Series::new(chain),
        deeds: Series::new(deeds),
        outcomes: Series::new(outcomes),
    }))
}

/// An entry of each kind.
fn entries(alloc: Global) -> Result<Vec<Entry>, Fail> {
    let mut all = Vec::new(alloc);
    all.push(plain(Step::Joined))?;
    all.push(plain(Step::Dialled(1)))?;
    let piece = Octets::from_slice(alloc, &[1, 0xab])?;
    all.push(plain(Step::Came { line: 1, piece }))?;
    let piece = Octets::new(Vec::new(alloc));
    all.push(plain(Step::Came { line: 2, piece }))?;
    all.push(plain(Step::Lost(1)))?;
    all.push(plain(Step::Told {
        desk: 3,
        key: key(alloc)?,
        event: event(),
    }))?;
    all.push(plain(Step::Fired {
        machine: 4097,
        generation: 8,
    }))?;
    all.push(plain(Step::Lift(Source::Line(1))))?;
    all.push(plain(Step::Drop(Source::Shard(2))))?;
    all.push(plain(Step::Lift(Source::Desk(3))))?;
    all.push(plain(Step::Drop(Source::Clock)))?;
    all.push(worked(alloc, moved(alloc)?)?)?;
    all.push(worked(alloc, Handled::Stale(1))?)?;
    all.push(worked(alloc, Handled::TooBusy)?)?;
    Ok(all)
}

pub(crate) const TEXT: &str = "\
join
dialled 1
came 1 01ab
came 2
lost 1
told 3 p:c.example Start 1=9 63=18446744073709551615
fired p:c.example 8
lift line 1
drop shard 2
lift desk 3
drop clock
work 0
  p:c.example Start Closed 1 row 2
    99 1
    Reserve 60 = 60 0
    Refund 7 refused
work 0
  p:c.example Start 1 1 stale
work 0
  busy
";

/// The text of a log.
pub(crate) fn text_of(alloc: Global, names: &NameBook<'_>, log: &Log) -> Result<Vec<u8>, Fail> {
    let mut text = Vec::new(alloc);
    for place in 0..log.len() {
        if let Some(entry) = log.entry(place, alloc)? {
            put_entry(&mut text, names, &entry)?;
        }
    }
    Ok(text)
}

/// The text of a log that keeps these entries.
fn printed(alloc: Global, laws: &LawBook, machines: &Machines) -> Result<Vec<u8>, Fail> {
    let closed = [Octets::from_slice(alloc, b"Closed")?];
    let names = NameBook {
        laws,
        machines,
        peer_states: &closed,
        client_states: &[],
        server_states: &[],
    };
    let mut log = Log::new(alloc);
    for entry in &entries(alloc)? {
        log.push(alloc, entry)?;
    }
    text_of(alloc, &names, &log)
}

/// Whether what a script asks for is the step of this line, read by itself.
fn is_asked(
    alloc: Global,
    laws: &LawBook,
    machines: &Machines,
    asked: &ScriptStep,
    line: &str,
) -> Result<bool, Fail> {
    let mut text = Vec::new(alloc);
    match asked {
        ScriptStep::Step(step) => write_step(&mut text, laws, machines, step)?,
        ScriptStep::Fired { key, generation } => {
            let is_peer = key.name.as_slice() == b"c.example".as_slice();
            let machine = if is_peer { 4097 } else { 0 };
            let generation = *generation;
            let step = Step::Fired {
                machine,
                generation,
            };
            write_step(&mut text, laws, machines, &step)?;
        }
    }
    let step = read_step(alloc, laws, machines, line.as_bytes());
    Ok(step.is_ok() && text.as_slice() == line.as_bytes())
}

/// The place of the first step that a script with this text doesn't ask for;
/// the count of steps where it asks for more or fewer.
fn wrong_step(
    alloc: Global,
    laws: &LawBook,
    machines: &Machines,
    text: &str,
) -> Result<Option<usize>, Fail> {
    let Ok(script) = read_script(alloc, laws, text.as_bytes()) else {
        return Ok(Some(0));
    };
    let mut place = 0usize;
    for line in text.split('\n') {
        if line.is_empty() || line.starts_with(' ') {
            continue;
        }
        match script.get(place) {
            Some(asked) => {
                if !is_asked(alloc, laws, machines, asked, line)? {
                    return Ok(Some(place));
                }
            }
            None => return Ok(Some(place)),
        }
        place = place.saturating_add(1);
    }
    if script.len() == place {
        Ok(None)
    } else {
        Ok(Some(place))
    }
}

/// The machines of the node.
pub(crate) fn machines(alloc: Global) -> Result<Machines, Fail> {
    let mut machines = Machines::new(alloc);
    machines.add(&key(alloc)?, 4097)?;
    Ok(machines)
}

#[test]
fn a_log_is_printed_and_its_steps_are_asked_for(rt: HostRuntime) -> Result<(), Fail> {
    let alloc = rt.alloc();
    let laws = peer_laws(alloc)?;
    let machines = machines(alloc)?;
    let text = printed(alloc, &laws, &machines)?;
    assert!(rt; text.as_slice() == TEXT.as_bytes());
    let wrong = wrong_step(alloc, &laws, &machines, TEXT)?;
    assert!(rt; wrong.is_none(), "{wrong:?}");
    Ok(())
}

/// Scripts with a bad line, and its number.
const BAD: &[(&str, usize)] = &[
    ("joined\n", 1),
    ("join\n\n  left out\nlost\n", 4),
    ("came 1 0\n", 1),
    ("came 4294967296\n", 1),
    ("told 0 x:c Start\n", 1),
    ("told 0 p:c Start 64=1\n", 1),
    ("fired p:%4 1\n", 1),
    ("lift clock 1\n", 1),
    ("work 0 0\n", 1),
];

/// The place of the first script whose bad line isn't told.
fn wrong_script(alloc: Global, laws: &LawBook) -> Option<usize> {
    for (place, (text, line)) in BAD.iter().enumerate() {
        match read_script(alloc, laws, text.as_bytes()) {
            Err(event_text::LinesError::BadLine(bad)) if bad == *line => {}
            _ => return Some(place),
        }
    }
    None
}

#[test]
fn bad_lines_are_told(rt: HostRuntime) -> Result<(), Fail> {
    let laws = peer_laws(rt.alloc())?;
    let wrong = wrong_script(rt.alloc(), &laws);
    assert!(rt; wrong.is_none(), "{wrong:?}");
    Ok(())
}

/// Whether a log takes as many entries as it may, and no more, and gives the places of a machine.
fn is_filled(alloc: Global) -> Result<bool, Fail> {
    let mut log = Log::new(alloc);
    let entry = plain(Step::Joined);
    for _ in 1..MAX_ENTRIES {
        log.push(alloc, &entry)?;
    }
    log.push(alloc, &worked(alloc, moved(alloc)?)?)?;
    let full = log.push(alloc, &entry);
    let places = log.of_machine(4097, alloc)?;
    let is_full = full == Err(LogError::Full) && log.len() == MAX_ENTRIES;
    log.truncate(1);
    Ok(is_full && places.as_slice() == [MAX_ENTRIES - 1].as_slice() && log.len() == 1)
}

#[test]
fn a_full_log_takes_no_more(rt: HostRuntime) -> Result<(), Fail> {
    let holds = is_filled(rt.alloc())?;
    assert!(rt; holds);
    Ok(())
}
