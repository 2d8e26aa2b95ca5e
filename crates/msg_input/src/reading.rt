//! What is known of an input while it is read: its octets, its messages, and what they print.
ghost use Rattle.std.specs.Prelude.{◌≡◌, ◌++◌, ◌<◌, ◌≤◌, ◌+◌, ◌^◌, ℕ, List, Option, length, [], None};
ghost use Rattle.std.specs.Prelude.{IfOk, OnOk, OnErr};
ghost use Rattle.std.specs.Option.{ForSome};
ghost use Rattle.msg_input.specs.Ends.{IsLast};

use crate::ends::{End, Place, Refusal};
use crate::printer::Printer;
use crate::report::Report;
use base_text::{Stop, decode};
use dia_frame::Framer;
use dia_show::Glossary;
use std::alloc::{AllocError, Global};

/// How many octets go to the Framer at once, and how long a message may be.
const PIECE: usize = 4096;

/// What is known of the input so far.
#[derive(Drop)]
pub(crate) struct Reading<M> {
    framer: Framer,
    report: Report<M>,
    /// How many characters were read.
    characters: u64,
    /// The digit of an octet whose second digit hasn't come.
    half: Option<u8>,
    ghost half_fits: { ForSome half (λ digit. digit < 16) },
}

impl<M: Printer> Reading<M> {
    ghost use Rattle.msg_input.specs.Readings.{Finishes, Halts, PrintsFront, PrintsWaiting, SoFar, Stands};
    ghost use Rattle.msg_input.specs.Readings.{TakesPiece, TakesText, place_of};
    ghost use Rattle.msg_input.specs.Inputs.{IsPrintedOf};
    ghost use Rattle.dia_show.specs.Glossary.{Meanings};

    /// Nothing is read yet.
    pub(crate) fn new(alloc: Global) -> Result<Reading<M>, AllocError>
        ensures start { IfOk result (λ reading. (g : Meanings) (line : Option ℕ)
            → SoFar (M.Says g line) 0 reading [] [] None) }
        ensures characters { IfOk result (λ reading. reading.characters ≡ 0) }
    {
        Ok(Reading {
            framer: Framer::new(alloc, PIECE),
            report: Report::new(alloc)?,
            characters: 0,
            half: None,
        })
    }

    /// Begins anew behind so many messages.
    pub(crate) fn restart(&mut self, alloc: Global, messages: u64)
        ensures start { (g : Meanings) (line : Option ℕ) → SoFar (M.Says g line) messages self.new [] [] None }
        ensures characters { self.new.characters ≡ 0 }
    {
        self.framer = Framer::new(alloc, PIECE);
        self.report.restart(messages);
        self.characters = 0;
        self.half = None;
    }

    /// What is to be written out.
    pub(crate) fn text(&self) -> &[u8]
        ensures { result.now ≡ self.now.report.out.items }
    {
        self.report.text()
    }

    /// Whether a fault was printed.
    pub(crate) fn has_refused(&self) -> bool
        ensures { result ≡ self.now.report.refused }
    {
        self.report.has_refused()
    }

    /// The number of the last message.
    pub(crate) fn messages(&self) -> u64
        ensures { result ≡ self.now.report.messages }
    {
        self.report.messages()
    }

    /// How far the input was read.
    pub(crate) fn place(&self) -> Place
        ensures { result ≡ place_of self.now }
    {
        Place {
            messages: self.report.messages(),
            octets: self.report.octets(),
            characters: self.characters,
        }
    }

    /// Forgets what was written out.
    pub(crate) fn clear(&mut self)
        ensures characters { self.new.characters ≡ self.old.characters }
        ensures so_far { (g : Meanings) (line : Option ℕ) (first : ℕ) (text written : List ℕ)
            → SoFar (M.Says g line) first self.old text written None
            → SoFar (M.Says g line) first self.new text (written ++ self.old.report.out.items) None }
    {
        self.report.clear();
    }

    // Prints the messages that wait, oldest first.
    fn print_waiting(&mut self, glossary: &Glossary, line: Option<u64>) -> Result<(), AllocError>
        ensures kept { (self.new.half ≡ self.old.half) × (self.new.characters ≡ self.old.characters) }
        ensures printed { OnOk result (PrintsWaiting (M.Says glossary.now line) self.old.framer self.new.framer
            self.old.report self.new.report) }
        ensures halted { OnErr result (PrintsFront (M.Says glossary.now line) self.old.framer
            self.old.report self.new.report) }
    {
        while let Some(frame) = self.framer.next_frame() {
            self.report.message(glossary, line, frame.as_slice())?;
        }
        Ok(())
    }

    // The messages that a piece completes are printed, also where the octets behind them show a fault.
    fn take_piece(
        &mut self,
        glossary: &Glossary,
        line: Option<u64>,
        piece: &[u8],
    ) -> Result<(), Refusal>
        ensures kept { (self.new.half ≡ self.old.half) × (self.new.characters ≡ self.old.characters) }
        ensures stands { (first : ℕ) (octets written : List ℕ)
            (before : Stands (M.Says glossary.now line) first self.old.framer self.old.report octets written None)
            → TakesPiece result
            (Stands (M.Says glossary.now line) first self.new.framer self.new.report (octets ++ piece.now) written)
            (Halts (M.Says glossary.now line) first before.messages self.new.report (octets ++ piece.now) written) }
    {
        let fed = self.framer.feed(piece);
        self.print_waiting(glossary, line)?;
        match fed {
            Ok(_) => Ok(()),
            Err(error) => Err(Refusal::from(error)),
        }
    }

    /// Takes the next characters, which are part of this line where lines are read,
    /// and prints the messages that they complete.
    pub(crate) fn take_text(
        &mut self,
        glossary: &Glossary,
        line: Option<u64>,
        text: &[u8],
    ) -> Result<(), Refusal>
        requires room { self.old.characters + length text.now < 2 ^ 64 }
        ensures characters { self.new.characters ≤ self.old.characters + length text.now }
        ensures taken { (first : ℕ) (before written : List ℕ)
            → SoFar (M.Says glossary.now line) first self.old before written None
            → TakesText (M.Says glossary.now line) first result self.new before text.now written }
    {
        let mut rest = text;
        'pieces: while !rest.is_empty() {
            let mut piece = [0u8; PIECE];
            let decoded = decode(self.half, rest, &mut piece);
            self.half = decoded.half;
            self.characters += decoded.used as u64;
            self.take_piece(glossary, line, &piece[..decoded.made])?;
            if let Stop::BadCharacter = decoded.stop {
                return Err(Refusal::BadHex);
            }
            rest = &rest[decoded.used..];
        }
        Ok(())
    }

    /// Ends with the input: a digit that is left over is bad, and octets that are left over are a message.
    pub(crate) fn end(&mut self, glossary: &Glossary, line: Option<u64>) -> End
        ensures last { IsLast result }
        ensures printed { (first : ℕ) (text written : List ℕ)
            → SoFar (M.Says glossary.now line) first self.old text written None
            → IsPrintedOf (M.Says glossary.now line) first (Unit {0}) text (written ++ self.new.report.out.items)
            result self.new.report.refused (place_of self.new) }
    {
        match self.finish(glossary, line) {
            Ok(()) => End::Whole,
            Err(refusal) => End::Refused(refusal),
        }
    }

    fn finish(&mut self, glossary: &Glossary, line: Option<u64>) -> Result<(), Refusal>
        ensures { (first : ℕ) (text written : List ℕ)
            → SoFar (M.Says glossary.now line) first self.old text written None
            → Finishes (M.Says glossary.now line) first result self.new text written }
    {
        if self.half.is_some() {
            return Err(Refusal::BadHex);
        }
        let rest = self.framer.rest();
        if !rest.is_empty() {
            self.report.message(glossary, line, rest)?;
        }
        Ok(())
    }
}
