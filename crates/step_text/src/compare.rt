//! A line that is compared with that of a step: each call compares what its namesake in `write` puts.
#![tactic(auto, using(crate::proofs::MatchingLemmas::comparing))]

ghost use Rattle.std.specs.Prelude.{◌≡◌, ◌∷◌, [], decimal};
ghost use Rattle.std.specs.Str.{bytes_eq};
ghost use Rattle.hex.specs.Hex.{encode_lower};
ghost use Rattle.step_text.specs.Commands.{which};
ghost use Rattle.step_text.specs.Guess.{unshown};
ghost use Rattle.step_text.specs.Lines.{behind, fact_words, line_of, others_of, piece_words, source_words};
ghost use Rattle.step_text.specs.Matching.{left_of, without};
ghost use Rattle.step_text.specs.Names.{key_name, kind_word, machine_word, names_of, shown, shown_octet};
ghost use Rattle.step_text.specs.Shown.{key_shown, octets_in, step_shown};

use crate::command::Command;
use crate::machines::Machines;
use crate::matcher::Matcher;
use crate::name::{is_plain, prefix_of};
use crate::shown::{ShownKey, ShownStep};
use crate::words::{first_octet, nibble};
use bench_item::Source;
use tab_law::{LawBook, PLACES};
use tab_step::Event;

/// An octet in hexadecimal.
fn compare_hex(matcher: &mut Matcher<'_>, octet: u8)
    ensures { left_of matcher.new ≡ without (encode_lower (octet ∷ [])) (left_of matcher.old) }
{
    let mut digits = [0u8; 2];
    let _ = hex::encode_to_slice(&[octet], &mut digits);
    matcher.put(&digits);
}

/// An octet as it is printed.
fn compare_octet(matcher: &mut Matcher<'_>, c: u8)
    ensures { left_of matcher.new ≡ without (shown_octet c) (left_of matcher.old) }
{
    if is_plain(c) {
        matcher.put(&[c]);
    } else {
        matcher.put(b"%");
        compare_hex(matcher, c);
    }
}

/// A name as it is printed.
fn compare_name(matcher: &mut Matcher<'_>, name: &[u8])
    ensures { left_of matcher.new ≡ without (shown name.now) (left_of matcher.old) }
{
    for c in name {
        compare_octet(matcher, *c);
    }
}

/// A word behind a blank.
fn compare_word(matcher: &mut Matcher<'_>, name: &[u8])
    ensures { left_of matcher.new ≡ without (behind (shown name.now ∷ [])) (left_of matcher.old) }
{
    matcher.put(b" ");
    compare_name(matcher, name);
}

/// The name that a word shows, as it is printed.
fn compare_shown(matcher: &mut Matcher<'_>, word: &[u8])
    ensures { left_of matcher.new ≡ without (shown (unshown word.now)) (left_of matcher.old) }
{
    let mut left = word;
    while let Some(taken) = first_octet(left) {
        compare_octet(matcher, taken.octet);
        left = taken.behind;
    }
}

/// A key behind a blank.
pub fn compare_key(matcher: &mut Matcher<'_>, key: &ShownKey<'_>)
    ensures { left_of matcher.new ≡ without (behind (shown (key_name (key_shown key.now)) ∷ [])) (left_of matcher.old) }
{
    matcher.put(b" ");
    matcher.put(prefix_of(key.role));
    compare_shown(matcher, key.name);
}

/// The name of a kind of events behind a blank, `-` where the book has none at that place.
pub fn compare_kind(matcher: &mut Matcher<'_>, laws: &LawBook, machines: &Machines, kind: u8)
    ensures { let word = kind_word (names_of laws.now machines.now) kind in
        left_of matcher.new ≡ without (behind (word ∷ [])) (left_of matcher.old) }
{
    match laws.kinds().as_slice().get(usize::from(kind)) {
        Some(entry) => compare_word(matcher, entry.name.as_slice()),
        None => matcher.put(b" -"),
    }
}

/// A machine's key behind a blank, `-` where none has that number.
fn compare_machine(matcher: &mut Matcher<'_>, laws: &LawBook, machines: &Machines, machine: u64)
    ensures { let word = machine_word (names_of laws.now machines.now) machine in
        left_of matcher.new ≡ without (behind (word ∷ [])) (left_of matcher.old) }
{
    for entry in machines.numbers.as_slice() {
        if entry.value == machine {
            return compare_word(matcher, entry.name.as_slice());
        }
    }
    matcher.put(b" -");
}

/// The facts that are not 0.
fn compare_facts(matcher: &mut Matcher<'_>, facts: &[u64; PLACES])
    ensures { left_of matcher.new ≡ without (behind (fact_words 0 facts.now)) (left_of matcher.old) }
{
    for (number, value) in facts.iter().enumerate() {
        if *value != 0 {
            matcher.put_number(b" ", number as u64);
            matcher.put_number(b"=", *value);
        }
    }
}

/// Who puts items out.
fn compare_source(matcher: &mut Matcher<'_>, source: Source)
    ensures { left_of matcher.new ≡ without (behind (source_words source)) (left_of matcher.old) }
{
    match source {
        Source::Line(line) => matcher.put_number(b" line ", u64::from(line)),
        Source::Shard(shard) => matcher.put_number(b" shard ", u64::from(shard)),
        Source::Desk(desk) => matcher.put_number(b" desk ", u64::from(desk)),
        Source::Clock => matcher.put(b" clock"),
    }
}

/// The octets of pairs of digits.
fn compare_octets(matcher: &mut Matcher<'_>, digits: &[u8])
    ensures { left_of matcher.new ≡ without (encode_lower (octets_in digits.now)) (left_of matcher.old) }
{
    let mut left = digits;
    'pairs: while let [high, low, behind @ ..] = left {
        compare_hex(matcher, nibble(*high) * 16 + nibble(*low));
        left = behind;
    }
}

/// What a connection was handed.
fn compare_came(matcher: &mut Matcher<'_>, line: u32, digits: &[u8])
    ensures { left_of matcher.new
        ≡ without (behind (decimal line ∷ piece_words (octets_in digits.now))) (left_of matcher.old) }
{
    matcher.put_number(b" ", u64::from(line));
    if digits.len() > 1 {
        matcher.put(b" ");
        compare_octets(matcher, digits);
    }
}

/// What a desk tells.
fn compare_told(
    matcher: &mut Matcher<'_>,
    laws: &LawBook,
    machines: &Machines,
    desk: u32,
    key: &ShownKey<'_>,
    event: &Event,
)
    ensures { let names = names_of laws.now machines.now in
        let words = decimal desk ∷ shown (key_name (key_shown key.now))
        ∷ kind_word names event.now.kind ∷ fact_words 0 event.now.facts in
        left_of matcher.new ≡ without (behind words) (left_of matcher.old) }
{
    matcher.put_number(b" ", u64::from(desk));
    compare_key(matcher, key);
    compare_kind(matcher, laws, machines, event.kind);
    compare_facts(matcher, &event.facts);
}

/// Which timer fires.
fn compare_fired(
    matcher: &mut Matcher<'_>,
    laws: &LawBook,
    machines: &Machines,
    machine: u64,
    generation: u64,
)
    ensures { let words = machine_word (names_of laws.now machines.now) machine ∷ decimal generation ∷ [] in
        left_of matcher.new ≡ without (behind words) (left_of matcher.old) }
{
    compare_machine(matcher, laws, machines, machine);
    matcher.put_number(b" ", generation);
}

/// The words behind the command.
fn compare_others(
    matcher: &mut Matcher<'_>,
    laws: &LawBook,
    machines: &Machines,
    step: &ShownStep<'_>,
)
    ensures { let words = others_of (names_of laws.now machines.now) (step_shown step.now) in
        left_of matcher.new ≡ without (behind words) (left_of matcher.old) }
{
    match step {
        ShownStep::Joined => {}
        ShownStep::Dialled(number) | ShownStep::Lost(number) | ShownStep::Work(number) => {
            matcher.put_number(b" ", u64::from(*number));
        }
        ShownStep::Came { line, piece } => compare_came(matcher, *line, piece),
        ShownStep::Told { desk, key, event } => {
            compare_told(matcher, laws, machines, *desk, key, event);
        }
        ShownStep::Fired {
            machine,
            generation,
        } => compare_fired(matcher, laws, machines, *machine, *generation),
        ShownStep::Lift(source) | ShownStep::Drop(source) => compare_source(matcher, *source),
    }
}

/// Which command a step has.
fn which(step: &ShownStep<'_>) -> Command
    ensures { result ≡ which (step_shown step.now) }
{
    match step {
        ShownStep::Joined => Command::Join,
        ShownStep::Dialled(_) => Command::Dialled,
        ShownStep::Came { .. } => Command::Came,
        ShownStep::Lost(_) => Command::Lost,
        ShownStep::Told { .. } => Command::Told,
        ShownStep::Fired { .. } => Command::Fired,
        ShownStep::Lift(_) => Command::Lift,
        ShownStep::Drop(_) => Command::Drop,
        ShownStep::Work(_) => Command::Work,
    }
}

/// Whether a step has that line. Takes no memory.
pub(crate) fn has_line(
    laws: &LawBook,
    machines: &Machines,
    step: &ShownStep<'_>,
    line: &[u8],
) -> bool
    ensures { result ≡ bytes_eq (line_of (names_of laws.now machines.now) (step_shown step.now)) line.now }
{
    let mut matcher = Matcher::new(line);
    matcher.put(which(step).name());
    compare_others(&mut matcher, laws, machines, step);
    matcher.is_done()
}
