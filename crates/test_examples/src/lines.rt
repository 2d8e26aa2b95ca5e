//! What `read_lines` prints: each line by itself, and what is told of a bad one.
//! The expected texts are written by hand.
use crate::messages::Wrong;
use crate::streams::filled;
use base_device::{Counting, Status};
use dia_show::Glossary;
use msg_text::{Style, read_lines};
use std::alloc::{AllocError, Global};

/// A message whose command isn't read, which makes one line in each style.
const SHORT: &str = "0100001480000119000000000000000100000001";

/// Lines, what is printed of them plainly, and the status.
const PLAIN: &[(&str, &str, Status)] = &[
    ("", "", Status::Done),
    ("\n \r\n\t\n", "", Status::Done),
    ("*", "fault 3001\n", Status::Refused),
    ("*\n*\n", "fault 3001\nfault 3001\n", Status::Refused),
    ("zz\n*\n", "line 1: bad hex\nfault 3001\n", Status::Refused),
    (
        "\n*0\n*",
        "fault 3001\nline 2: bad hex\nfault 3001\n",
        Status::Refused,
    ),
    (
        "02 *\n*x",
        "line 1: frame fault 1\nfault 3001\nline 2: bad hex\n",
        Status::Refused,
    ),
    (
        "0100\n01000010 zz\n\n7",
        "fault 5015\nline 2: frame fault 2\nline 4: bad hex\n",
        Status::Refused,
    ),
];

/// Whether this is printed of lines, and this is the status.
fn prints(alloc: Global, style: Style, input: &str, wanted: &str, status: Status) -> bool {
    let Ok(glossary) = Glossary::base(alloc) else {
        return false;
    };
    let mut source = Counting::new(input.as_bytes());
    let mut sink = Counting::new(Vec::new(alloc));
    read_lines(style, alloc, &glossary, &mut source, &mut sink) == status
        && sink.device.as_slice() == wanted.as_bytes()
}

/// A bad line, two messages in a line and one in the next, in names: each has its own number, and its line.
const NAMED: &str = "\
line 1: bad hex at character 3: each octet wants two hexadecimal digits, and between digits only blanks may stand
message 1 at octet 0 of line 2: unknown command R---, version 1, length 20, command 281, application 0, hop-by-hop 1, \
    end-to-end 1
fault 3001 DIAMETER_COMMAND_UNSUPPORTED in message 1 at octet 0 of line 2: no command with this code and flag R is \
    read here
message 2 at octet 20 of line 2: unknown command R---, version 1, length 20, command 281, application 0, hop-by-hop 1, \
    end-to-end 1
fault 3001 DIAMETER_COMMAND_UNSUPPORTED in message 2 at octet 20 of line 2: \
    no command with this code and flag R is read here
message 3 at octet 0 of line 3: unknown command R---, version 1, length 20, command 281, application 0, hop-by-hop 1, \
    end-to-end 1
fault 3001 DIAMETER_COMMAND_UNSUPPORTED in message 3 at octet 0 of line 3: no command with this code and flag R is \
    read here
";

/// The first lines of which something else is printed.
fn wrong_plain(alloc: Global) -> Result<Wrong<'static>, AllocError> {
    for (place, (lines, wanted, status)) in PLAIN.iter().enumerate() {
        let input = filled(alloc, lines, SHORT, 1)?;
        if !prints(alloc, Style::Plain, input.as_str(), wanted, *status) {
            return Ok(Some((lines, place)));
        }
    }
    Ok(None)
}

/// Whether each message has its own number and its line.
fn is_named(alloc: Global) -> Result<bool, AllocError> {
    let input = format!(in alloc; "01 x\n{SHORT} {SHORT}\n{SHORT}\n")?;
    Ok(prints(
        alloc,
        Style::Explained,
        input.as_str(),
        NAMED,
        Status::Refused,
    ))
}

/// The first lines that aren't printed by themselves.
pub(crate) fn wrong_lines(alloc: Global) -> Result<Wrong<'static>, AllocError> {
    if !is_named(alloc)? {
        return Ok(Some(("the numbers of messages", 2)));
    }
    wrong_plain(alloc)
}
