//! Readers and writers in memory, and what `read_on` prints of a text.
use base_device::{Counting, Status};
use dia_show::Glossary;
use msg_text::{Style, read_on};
use std::alloc::{AllocError, Global};
use std::io;
use std::io::{ErrorKind, Read, Write};

/// Gives its octets in pieces, and then fails with this error, or ends.
#[derive(Drop)]
pub(crate) struct Pieces<'a> {
    pub(crate) octets: &'a [u8],
    pub(crate) size: usize,
    pub(crate) error: Option<ErrorKind>,
}

impl Read for Pieces<'_> {
    fn read(&mut self, buffer: &mut [u8]) -> io::Result<usize> {
        let count = self.size.min(buffer.len()).min(self.octets.len());
        if count == 0 {
            return match self.error {
                Some(kind) => Err(io::Error::from(kind)),
                None => Ok(0),
            };
        }
        let (front, rest) = self.octets.split_at(count);
        buffer[..count].copy_from_slice(front);
        self.octets = rest;
        Ok(count)
    }
}

/// Takes so many octets, a few at a time, and then fails or takes nothing more.
#[derive(Drop)]
pub(crate) struct Narrow {
    pub(crate) taken: Vec<u8>,
    pub(crate) room: usize,
    pub(crate) error: Option<ErrorKind>,
}

impl Write for Narrow {
    fn write(&mut self, octets: &[u8]) -> io::Result<usize> {
        let count = 7.min(self.room).min(octets.len());
        if count == 0 {
            return match self.error {
                Some(kind) => Err(io::Error::from(kind)),
                None => Ok(0),
            };
        }
        self.taken.extend_from_slice(&octets[..count])?;
        self.room -= count;
        Ok(count)
    }

    fn flush(&mut self) -> io::Result<()> {
        Ok(())
    }
}

/// What is printed of a reader's text, and the status.
pub(crate) fn read_from(alloc: Global, reader: Pieces<'_>) -> (u8, Vec<u8>) {
    let Ok(glossary) = Glossary::base(alloc) else {
        return (Status::NoMemory.code(), Vec::new(alloc));
    };
    let mut source = Counting::new(reader);
    let mut sink = Counting::new(Vec::new(alloc));
    let status = read_on(Style::Plain, alloc, &glossary, &mut source, &mut sink);
    (status.code(), sink.device)
}

/// The same of a text in pieces of a few characters.
pub(crate) fn read(alloc: Global, input: &str) -> (u8, Vec<u8>) {
    let octets = input.as_bytes();
    read_from(
        alloc,
        Pieces {
            octets,
            size: 4095,
            error: None,
        },
    )
}

/// Whether this text is printed of the reader's, and this is the status.
pub(crate) fn prints_from(alloc: Global, reader: Pieces<'_>, wanted: &str, code: u8) -> bool {
    let (status, text) = read_from(alloc, reader);
    text.as_slice() == wanted.as_bytes() && status == code
}

/// The same of a text in pieces of a few characters.
pub(crate) fn prints(alloc: Global, input: &str, wanted: &str, code: u8) -> bool {
    let (status, text) = read(alloc, input);
    text.as_slice() == wanted.as_bytes() && status == code
}

/// A text with a `*` for so many of a part.
pub(crate) fn filled(
    alloc: Global,
    text: &str,
    part: &str,
    count: usize,
) -> Result<String, AllocError> {
    let mut all = String::new(alloc);
    for (place, piece) in text.split('*').enumerate() {
        if place > 0 {
            for _ in 0..count {
                all.push_str(part)?;
            }
        }
        all.push_str(piece)?;
    }
    Ok(all)
}

/// Whether this is printed of a text, where a `*` in each stands for a part of its own.
pub(crate) fn prints_filled(
    alloc: Global,
    (input, part): (&str, &str),
    (wanted, lines): (&str, &str),
    code: u8,
) -> Result<bool, AllocError> {
    let input = filled(alloc, input, part, 1)?;
    let wanted = filled(alloc, wanted, lines, 1)?;
    Ok(prints(alloc, input.as_str(), wanted.as_str(), code))
}
