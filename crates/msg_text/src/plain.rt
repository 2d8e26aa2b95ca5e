//! Messages as plain lines: a header, AVPs and the encoding, or a fault.
ghost use Rattle.std.specs.Prelude.{◌≡◌, ◌++◌, List, ℕ, IfOk, OnOk};
ghost use Rattle.msg_text.specs.Printed.{CommandText, FaultText, Prints};
ghost use Rattle.msg_text.specs.Styles.{IsPlain, plain_end, plain_line};

use crate::line_ends::put_line_words;
use crate::show::{put_fault, put_message};
use dia_avp::{WriteError, write_avp};
use dia_dict::Dictionary;
use dia_msg::{Command, MsgError, MsgFault, read_message, write_message};
use dia_show::Glossary;
use msg_input::{End, EndWords, Place, Printer, unplaced};
use std::alloc::{AllocError, Global};

/// Prints the lines of a message, header, AVPs and encoding, or the line of its fault.
#[derive(Drop)]
pub struct Plain {
    alloc: Global,
    /// The encoding of the message that is being printed.
    encoding: Vec<u8>,
}

impl Plain {
    fn read(
        &mut self,
        definitions: &Dictionary,
        out: &mut Vec<u8>,
        octets: &[u8],
    ) -> Result<bool, AllocError>
        ensures { IfOk result (λ refused. (text : List ℕ) × Prints definitions.now octets.now text refused
            × (out.new.items ≡ out.old.items ++ text)) }
    {
        match read_message(self.alloc, definitions, octets) {
            Ok(command) => {
                self.command(out, &command)?;
                Ok(false)
            }
            Err(MsgError::NoMemory) => Err(AllocError),
            Err(MsgError::Fault(fault)) => {
                self.fault(out, &fault)?;
                Ok(true)
            }
        }
    }

    fn command(&mut self, out: &mut Vec<u8>, command: &Command) -> Result<(), AllocError>
        ensures { OnOk result ((text : List ℕ) × CommandText command.now text
            × (out.new.items ≡ out.old.items ++ text)) }
    {
        self.encoding.clear();
        match write_message(command, &mut self.encoding) {
            Err(WriteError::NoMemory) => Err(AllocError),
            // Octets of at most 4,096 give no command so long that it has no encoding.
            Ok(()) | Err(WriteError::LengthOver24Bits) => {
                put_message(out, command.header(), &self.encoding)
            }
        }
    }

    fn fault(&mut self, out: &mut Vec<u8>, fault: &MsgFault) -> Result<(), AllocError>
        ensures { OnOk result ((text : List ℕ) × FaultText fault.now text × (out.new.items ≡ out.old.items ++ text)) }
    {
        self.encoding.clear();
        if let Some(avp) = &fault.failed {
            if write_avp(&avp.view(), &mut self.encoding) == Err(WriteError::NoMemory) {
                return Err(AllocError);
            }
        }
        put_fault(out, fault.result.number(), &self.encoding)
    }
}

impl Printer for Plain {
    ghost Says = { IsPlain };

    ghost end_text = { plain_end };

    ghost line_text = { plain_line };

    fn new(alloc: Global) -> Result<Plain, AllocError> {
        Ok(Plain {
            alloc,
            encoding: Vec::new(alloc),
        })
    }

    fn put(
        &mut self,
        glossary: &Glossary,
        _line: Option<u64>,
        out: &mut Vec<u8>,
        _number: u64,
        _offset: u64,
        octets: &[u8],
    ) -> Result<bool, AllocError> {
        self.read(glossary.definitions(), out, octets)
    }

    fn end_words(end: End, _place: Place) -> EndWords {
        unplaced(end.text())
    }

    fn put_line_end(
        out: &mut Vec<u8>,
        number: u64,
        end: End,
        place: Place,
    ) -> Result<(), AllocError> {
        put_line_words(out, number, end, &Plain::end_words(end, place))
    }
}
