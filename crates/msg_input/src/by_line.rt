//! What is known of an input whose lines are each an input by itself.
ghost use Rattle.std.specs.Prelude.{◌≡◌, ◌++◌, ◌<◌, ◌≤◌, ◌+◌, ◌^◌, ℕ, List, [], length, take, get_or, Some};
ghost use Rattle.std.specs.Prelude.{IfOk, OnOk, OnErr};
ghost use Rattle.msg_input.specs.ByLine.{IsJudged, IsLine};
ghost use Rattle.msg_input.specs.Ends.{IsLast};

use crate::ends::{End, Place, Refusal};
use crate::printer::Printer;
use crate::reading::Reading;
use crate::report::counted;
use dia_show::Glossary;
use std::alloc::{AllocError, Global};

// How many characters the line at the front has, without its newline.
fn line_len(text: &[u8]) -> usize
    ensures within { result ≤ length text.now }
    ensures line { IsLine (take result text.now) }
    ensures newline { result < length text.now → get_or text.now result 0 ≡ 10 }
{
    let mut len = 0;
    'characters: while len < text.len() && text[len] != b'\n' {
        len += 1;
    }
    len
}

// Whether a line that ended so tells a fault, unless memory ran out.
fn judged(end: End, faulty: bool) -> Result<bool, AllocError>
    ensures { IfOk result (λ refused. IsJudged end faulty refused) }
{
    match end {
        End::Whole => Ok(faulty),
        End::Refused(Refusal::BadHex) | End::Refused(Refusal::Frame(_)) => Ok(true),
        End::Refused(Refusal::NoMemory) | End::ReadFailed | End::TooManyReads => Err(AllocError),
    }
}

/// What is known of the lines of an input so far.
#[derive(Drop)]
pub(crate) struct ByLine<M> {
    alloc: Global,
    /// The line that is being read.
    reading: Reading<M>,
    /// Why it is read no further.
    stopped: Option<Refusal>,
    /// How many lines came before it, and how many messages in them.
    before: u64,
    messages: u64,
    /// The text of the line that ended last.
    text: Vec<u8>,
    /// What is to be written out.
    out: Vec<u8>,
    /// A fault was printed.
    refused: bool,
}

impl<M: Printer> ByLine<M> {
    ghost use Rattle.msg_input.specs.ByLine.{PrintsLine, says_by};
    ghost use Rattle.msg_input.specs.ByLineSoFar.{IsAlong, KeepsTexts, LinesSoFar, Ended};
    ghost use Rattle.msg_input.specs.ByLineSoFar.{MayStop, TakesLines, AreFinished};
    ghost use Rattle.msg_input.specs.Inputs.{IsPrintedOf};
    ghost use Rattle.msg_input.specs.Readings.{place_of};
    ghost use Rattle.dia_show.specs.Glossary.{Meanings};

    /// Nothing is read yet.
    pub(crate) fn new(alloc: Global) -> Result<ByLine<M>, AllocError>
        ensures start { IfOk result (λ lines. (g : Meanings)
            → LinesSoFar (says_by (M.Says g)) M.line_text lines [] []) }
        ensures begun { IfOk result (λ lines. lines.reading.characters ≡ 0) }
    {
        Ok(ByLine {
            alloc,
            reading: Reading::new(alloc)?,
            stopped: None,
            before: 0,
            messages: 0,
            text: Vec::new(alloc),
            out: Vec::new(alloc),
            refused: false,
        })
    }

    /// What is to be written out.
    pub(crate) fn text(&self) -> &[u8]
        ensures { result.now ≡ self.now.out.items }
    {
        self.out.as_slice()
    }

    /// Whether a fault was printed.
    pub(crate) fn has_refused(&self) -> bool
        ensures { result ≡ self.now.refused }
    {
        self.refused
    }

    /// How far the last line was read.
    pub(crate) fn place(&self) -> Place
        ensures { result ≡ place_of self.now.reading }
    {
        self.reading.place()
    }

    /// Forgets what was written out.
    pub(crate) fn clear(&mut self)
        ensures characters { self.new.reading.characters ≡ self.old.reading.characters }
        ensures so_far { (g : Meanings) (text written : List ℕ)
            → LinesSoFar (says_by (M.Says g)) M.line_text self.old text written
            → LinesSoFar (says_by (M.Says g)) M.line_text self.new text (written ++ self.old.out.items) }
    {
        self.out.clear();
    }

    // Reads the line no further, unless memory ran out.
    fn stop(&mut self, refusal: Refusal) -> Result<(), AllocError>
        ensures kept { KeepsTexts self.old self.new }
        ensures reading { self.new.reading ≡ self.old.reading }
        ensures stopped { OnOk result (MayStop refusal × (self.new.stopped ≡ Some refusal)) }
    {
        match refusal {
            Refusal::NoMemory => Err(AllocError),
            Refusal::BadHex | Refusal::Frame(_) => {
                self.stopped = Some(refusal);
                Ok(())
            }
        }
    }

    // Takes more of the line.
    fn take_part(&mut self, glossary: &Glossary, part: &[u8]) -> Result<(), AllocError>
        requires room { self.old.reading.characters + length part.now < 2 ^ 64 }
        ensures characters { self.new.reading.characters ≤ self.old.reading.characters + length part.now }
        ensures kept { KeepsTexts self.old self.new }
        ensures along { OnOk result ((first : ℕ) (line : List ℕ)
            → IsAlong (M.Says glossary.now (Some (self.old.before + 1))) first self.old.reading line self.old.stopped
            → IsAlong (M.Says glossary.now (Some (self.old.before + 1))) first self.new.reading
            (line ++ part.now) self.new.stopped) }
    {
        if self.stopped.is_some() {
            return Ok(());
        }
        let line = counted(self.before, 1)?;
        match self.reading.take_text(glossary, Some(line), part) {
            Ok(()) => Ok(()),
            Err(refusal) => self.stop(refusal),
        }
    }

    // How the line of this number ended.
    fn end_of_line(&mut self, glossary: &Glossary, number: u64) -> End
        ensures last { IsLast result }
        ensures kept { KeepsTexts self.old self.new }
        ensures printed { (first : ℕ) (line : List ℕ)
            → IsAlong (M.Says glossary.now (Some number)) first self.old.reading line self.old.stopped
            → IsPrintedOf (M.Says glossary.now (Some number)) first (Unit {0}) line self.new.reading.report.out.items
            result self.new.reading.report.refused (place_of self.new.reading) }
    {
        match self.stopped {
            Some(refusal) => End::Refused(refusal),
            None => self.reading.end(glossary, Some(number)),
        }
    }

    // Makes the text of the line, and says whether it tells a fault.
    fn make_text(&mut self, glossary: &Glossary) -> Result<bool, AllocError>
        ensures kept { KeepsTexts self.old self.new }
        ensures made { IfOk result (λ refused. (first : ℕ) (line : List ℕ)
            → IsAlong (M.Says glossary.now (Some (self.old.before + 1))) first self.old.reading line self.old.stopped
            → PrintsLine (says_by (M.Says glossary.now)) M.line_text self.old.before first line self.new.text.items
            refused self.new.reading.report.messages) }
    {
        let number = counted(self.before, 1)?;
        let end = self.end_of_line(glossary, number);
        self.text.clear();
        self.text.extend_from_slice(self.reading.text())?;
        M::put_line_end(&mut self.text, number, end, self.reading.place())?;
        judged(end, self.reading.has_refused())
    }

    // Ends the line, and begins the next.
    fn end_line(&mut self, glossary: &Glossary) -> Result<(), AllocError>
        ensures ended { OnOk result ((line : List ℕ) → IsAlong (M.Says glossary.now (Some (self.old.before + 1)))
            self.old.messages self.old.reading line self.old.stopped
            → Ended (says_by (M.Says glossary.now)) M.line_text self.old self.new line) }
        ensures begun { OnOk result (self.new.reading.characters ≡ 0) }
        ensures err { OnErr result (KeepsTexts self.old self.new) }
    {
        let refused = self.make_text(glossary)?;
        let before = counted(self.before, 1)?;
        let messages = self.reading.messages();
        self.out.extend_from_slice(&self.text)?;
        self.refused = self.refused | refused;
        self.before = before;
        self.messages = messages;
        self.stopped = None;
        self.reading.restart(self.alloc, messages);
        Ok(())
    }

    /// Takes the next characters, and prints the lines that they complete.
    pub(crate) fn take_text(&mut self, glossary: &Glossary, text: &[u8]) -> Result<(), AllocError>
        requires room { self.old.reading.characters + length text.now < 2 ^ 64 }
        ensures characters { OnOk result (self.new.reading.characters ≤ self.old.reading.characters + length text.now) }
        ensures taken { (before written : List ℕ)
            → LinesSoFar (says_by (M.Says glossary.now)) M.line_text self.old before written
            → TakesLines (says_by (M.Says glossary.now)) M.line_text result self.new before text.now written }
    {
        let mut rest = text;
        'lines: while !rest.is_empty() {
            let len = line_len(rest);
            self.take_part(glossary, &rest[..len])?;
            if len == rest.len() {
                return Ok(());
            }
            self.end_line(glossary)?;
            rest = &rest[len + 1..];
        }
        Ok(())
    }

    /// Ends with the input, and with it the last line.
    pub(crate) fn end(&mut self, glossary: &Glossary) -> Result<(), AllocError>
        ensures { (text written : List ℕ) → LinesSoFar (says_by (M.Says glossary.now)) M.line_text self.old text written
            → AreFinished (says_by (M.Says glossary.now)) M.line_text result self.new text written }
    {
        self.end_line(glossary)
    }
}
