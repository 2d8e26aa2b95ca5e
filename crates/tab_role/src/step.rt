//! What an action does, as data.

ghost use Rattle.std.specs.Prelude.{◌≡◌, ◌≤◌, ◌++◌, ◌-◌, IfOk, OnOk, length, map, take};
ghost use Rattle.std.specs.List.{flat_map, range_with_len};
ghost use Rattle.tab_law.specs.declared.law.Term.TheVariants.{Just};
ghost use Rattle.tab_law.specs.declared.limits.TheConstants.{PLACES};
ghost use Rattle.tab_role.specs.Entries.{services_argument, argument, changes_of, kept};
ghost use Rattle.tab_role.specs.declared.step.TheConstants.{COUNT, KEPT, ARGUMENTS};

use base_codes::{DeedCode, session_fact, slot};
use std::alloc::{AllocError, Global};
use tab_law::{ActLaw, Atom, Change, PLACES, Term, Terms};

/// Where the services of a message stand, with their count before them: in facts, in registers and in arguments alike
/// (Multiple-Services-Credit-Control, RFC 8506 section 8.16).
const COUNT: u8 = session_fact::SERVICES as u8;

/// How many arguments a message has, those of its services too.
const ARGUMENTS: u8 = (slot::FIRST + slot::MAX_SLOTS * slot::SIZE) as u8;

/// How many places services have, with their count.
const KEPT: u8 = (1 + slot::MAX_SLOTS * slot::SIZE) as u8;

const FIRST: u8 = slot::FIRST as u8;

const SIZE: u8 = slot::SIZE as u8;

const WANT: u8 = slot::WANT as u8;

/// Whose services a message has.
#[derive(Clone, Copy)]
pub enum Services {
    /// Those of the event.
    OfEvent,
    /// Those of the event, with no units wanted.
    OfEventUnwanted,
    /// Those that the machine keeps.
    OfMachine,
}

/// One thing that an action does.
#[derive(Clone, Copy)]
pub enum ActionStep {
    /// The register becomes that.
    Set(u8, Atom),
    /// The register becomes one more.
    Next(u8),
    /// The register becomes any number up to the second, from the lesser of both on.
    Pick(u8, Atom, Atom),
    /// The machine keeps the services of the event.
    KeepServices,
    /// A deed with these arguments.
    Do(DeedCode, &'static [Atom]),
    /// A deed with these arguments, only where the atom isn't 0.
    DoWhere(Atom, DeedCode, &'static [Atom]),
    /// A message with these arguments, zeros behind them, and services from their place on.
    Send(DeedCode, &'static [Atom], Services),
}

/// The argument of a message at a place of its services.
fn services_argument(services: Services, n: u8) -> Atom
    ensures { result ≡ services_argument services n }
{
    match services {
        Services::OfEvent => Atom::Fact(n),
        Services::OfEventUnwanted if n.saturating_sub(FIRST) % SIZE == WANT => Atom::Constant(0),
        Services::OfEventUnwanted => Atom::Fact(n),
        Services::OfMachine => Atom::Register(n),
    }
}

/// The argument of a message at a place.
fn argument(head: &[Atom], services: Services, n: u8) -> Atom
    ensures { result ≡ argument head.now services n }
{
    if n >= COUNT {
        services_argument(services, n)
    } else if (n as usize) < head.len() {
        head[n as usize]
    } else {
        Atom::Constant(0)
    }
}

/// The arguments of a message.
fn message_terms(alloc: Global, head: &[Atom], services: Services) -> Result<Terms, AllocError>
    ensures { IfOk result (λ terms. terms ≡ map Just (map (argument head.now services) (range_with_len 0 ARGUMENTS))) }
{
    let mut terms = Vec::with_capacity(alloc, ARGUMENTS as usize)?;
    for n in 0..ARGUMENTS {
        terms.push(Term::Just(argument(head, services, n)))?;
    }
    Ok(Terms::new(terms))
}

/// The first arguments, as many as a deed has room for.
fn front(arguments: &[Atom]) -> &[Atom]
    ensures front { result.now ≡ take PLACES arguments.now }
    ensures few { length result.now ≤ PLACES }
{
    if arguments.len() <= PLACES {
        arguments
    } else {
        &arguments[..PLACES]
    }
}

/// The arguments of a deed.
fn deed_terms(alloc: Global, arguments: &[Atom]) -> Result<Terms, AllocError>
    ensures { IfOk result (λ terms. terms ≡ map Just (take PLACES arguments.now)) }
{
    let arguments = front(arguments);
    let mut terms = Vec::with_capacity(alloc, arguments.len())?;
    for atom in arguments {
        terms.push(Term::Just(*atom))?;
    }
    Ok(Terms::new(terms))
}

/// The registers of services become what the event says of them.
fn keep_services(changes: &mut Vec<Change>) -> Result<(), AllocError>
    ensures { OnOk result (changes.new.items ≡ changes.old.items ++ map kept (range_with_len COUNT KEPT)) }
{
    for i in 0..KEPT {
        let n = COUNT + i;
        changes.push(Change::Set(n, Term::Just(Atom::Fact(n))))?;
    }
    Ok(())
}

/// Appends what a step is as changes of a law.
fn put(alloc: Global, changes: &mut Vec<Change>, step: ActionStep) -> Result<(), AllocError>
    ensures { OnOk result (changes.new.items ≡ changes.old.items ++ changes_of step) }
{
    let change = match step {
        ActionStep::Set(register, atom) => Change::Set(register, Term::Just(atom)),
        ActionStep::Next(register) => {
            let more = Term::Sum(Atom::Register(register), Atom::Constant(1));
            Change::Set(register, more)
        }
        ActionStep::Pick(register, low, high) => {
            Change::Pick(register, Term::Just(low), Term::Just(high))
        }
        ActionStep::KeepServices => return keep_services(changes),
        ActionStep::Do(code, arguments) => Change::Emit(
            code.number(),
            deed_terms(alloc, arguments)?,
        ),
        ActionStep::DoWhere(atom, code, arguments) => {
            Change::EmitIf(atom, code.number(), deed_terms(alloc, arguments)?)
        }
        ActionStep::Send(code, head, services) => {
            Change::Emit(code.number(), message_terms(alloc, head, services)?)
        }
    };
    changes.push(change)?;
    Ok(())
}

/// The law of an action that takes these steps.
pub(crate) fn act_law(alloc: Global, steps: &[ActionStep]) -> Result<ActLaw, AllocError>
    ensures { IfOk result (λ law. law ≡ flat_map changes_of steps.now) }
{
    let mut changes = Vec::new(alloc);
    for step in steps {
        put(alloc, &mut changes, *step)?;
    }
    Ok(ActLaw::new(changes))
}
