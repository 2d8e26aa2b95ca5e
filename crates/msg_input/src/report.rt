//! What is printed of messages, kept until it is written out.
ghost use Rattle.std.specs.Prelude.{◌≡◌, ◌+◌, ℕ, List, [], ◌∷◌, false, Bool, IfOk, OnOk, OnErr};

use crate::printer::Printer;
use dia_show::Glossary;
use std::alloc::{AllocError, Global};

/// Reads messages and keeps what is printed of them.
#[derive(Drop)]
pub struct Report<M> {
    printer: M,
    /// The lines of the message that is being printed.
    lines: Vec<u8>,
    /// What is to be written out.
    out: Vec<u8>,
    /// A fault was printed.
    refused: bool,
    /// How many messages there were, and their octets.
    messages: u64,
    octets: u64,
}

// A count and so many more. Of no input that is read the counts need more than 64 bits.
pub(crate) fn counted(count: u64, more: usize) -> Result<u64, AllocError>
    ensures { IfOk result (λ sum. sum ≡ count + more) }
{
    match count.checked_add(more as u64) {
        Some(sum) => Ok(sum),
        None => Err(AllocError),
    }
}

impl<M: Printer> Report<M> {
    ghost use Rattle.msg_input.specs.Reports.{Gains, Stays};

    /// A report without text.
    pub fn new(alloc: Global) -> Result<Report<M>, AllocError>
        ensures start { IfOk result (λ r. (r.out.items ≡ []) × (r.refused ≡ false)) }
        ensures counts { IfOk result (λ r. (r.messages ≡ 0) × (r.octets ≡ 0)) }
    {
        Ok(Report {
            printer: M::new(alloc)?,
            lines: Vec::new(alloc),
            out: Vec::new(alloc),
            refused: false,
            messages: 0,
            octets: 0,
        })
    }

    /// What is to be written out.
    pub fn text(&self) -> &[u8]
        ensures { result.now ≡ self.now.out.items }
    {
        self.out.as_slice()
    }

    /// Forgets what was written out.
    pub fn clear(&mut self)
        ensures out { self.new.out.items ≡ [] }
        ensures refused { self.new.refused ≡ self.old.refused }
        ensures counts { (self.new.messages ≡ self.old.messages) × (self.new.octets ≡ self.old.octets) }
    {
        self.out.clear();
    }

    /// Begins anew behind so many messages.
    pub(crate) fn restart(&mut self, messages: u64)
        ensures out { self.new.out.items ≡ [] }
        ensures refused { self.new.refused ≡ false }
        ensures counts { (self.new.messages ≡ messages) × (self.new.octets ≡ 0) }
    {
        self.out.clear();
        self.refused = false;
        self.messages = messages;
        self.octets = 0;
    }

    /// Whether a fault was printed.
    pub fn has_refused(&self) -> bool
        ensures { result ≡ self.now.refused }
    {
        self.refused
    }

    /// How many messages there were.
    pub(crate) fn messages(&self) -> u64
        ensures { result ≡ self.now.messages }
    {
        self.messages
    }

    /// How many octets the messages had.
    pub(crate) fn octets(&self) -> u64
        ensures { result ≡ self.now.octets }
    {
        self.octets
    }

    /// Reads the octets of the next message, which stands in this line where lines are read,
    /// and keeps what is printed of it. Without memory nothing of it is kept.
    pub fn message(
        &mut self,
        glossary: &Glossary,
        line: Option<u64>,
        octets: &[u8],
    ) -> Result<(), AllocError>
        ensures ok { OnOk result ((text : List ℕ) × (refused : Bool)
            × M.Says glossary.now line (self.old.messages + 1) self.old.octets octets.now text refused
            × Gains self.old self.new (octets.now ∷ []) text refused) }
        ensures err { OnErr result (Stays self.old self.new) }
    {
        let number = counted(self.messages, 1)?;
        let end = counted(self.octets, octets.len())?;
        self.lines.clear();
        let refused = self.printer.put(
            glossary,
            line,
            &mut self.lines,
            number,
            self.octets,
            octets,
        )?;
        self.out.extend_from_slice(&self.lines)?;
        self.refused = self.refused | refused;
        self.messages = number;
        self.octets = end;
        Ok(())
    }
}
