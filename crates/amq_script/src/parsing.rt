ghost use Rattle.std.specs.Prelude.{◌≡◌, ◌++◌, ◌∷◌, [], List, IfOk, IfErr, OnOk};
ghost use Rattle.amq_model.specs.declared.script.Said.{Said};
ghost use Rattle.amq_model.specs.Script.{line_says, producers_of, script_of};
ghost use Rattle.amq_script.specs.Faults.{IsRefused, Reads};
ghost use Rattle.amq_script.specs.Reading.{HasRead, HasReadLine};

use crate::faults::{LineFault, ScriptFault};
use crate::labels::Labels;
use crate::lines::words_say;
use crate::words::split_words;
use amq_model::{Items, Line, Mode, NoMemory, Said};
use std::alloc::Global;
use std::mem;

/// A script: the lines of each producer, in order. A replay has one producer, a run has one a section.
#[derive(Clone, Debug, Drop, PartialEq, Eq)]
pub struct Script {
    pub producers: Items<Items<Line>>,
}

/// What was read of a script: the sections that ended, the lines of the one that is read, and the
/// labels that it named. Lines before the first section stand in the first of them.
#[derive(Drop)]
pub struct Reader {
    pub sections: Vec<Items<Line>>,
    pub current: Vec<Line>,
    pub labels: Labels,
}

/// Reads a script: its lines, or the first one outside the grammar with its cause.
///
/// Near linear in the bytes.
pub fn parse(alloc: Global, bytes: &[u8], mode: Mode) -> Result<Script, ScriptFault>
    ensures ok { IfOk result (λ script. script_of mode bytes.now ≡ Ok script.producers) }
    ensures err { IfErr result (λ fault. IsRefused fault (script_of mode bytes.now)) }
{
    let mut reader = Reader::new(alloc);
    let mut words = Vec::new(alloc);
    let mut number = 1;
    for line in bytes.split(|byte| *byte == b'\n') {
        match reader.read_line(alloc, mode, &mut words, line) {
            Ok(()) => number += 1,
            Err(fault) => return Err(fault.at(number)),
        }
    }
    match reader.finish(mode) {
        Ok(script) => Ok(script),
        Err(_) => Err(ScriptFault::NoMemory),
    }
}

impl Reader {
    /// Nothing read.
    fn new(alloc: Global) -> Reader
        ensures { HasRead [] result }
    {
        Reader {
            sections: Vec::new(alloc),
            current: Vec::new(alloc),
            labels: Labels::new(alloc),
        }
    }

    /// Reads a line; `words` lends its memory.
    fn read_line<'a>(
        &mut self,
        alloc: Global,
        mode: Mode,
        words: &mut Vec<&'a [u8]>,
        line: &'a [u8],
    ) -> Result<(), LineFault>
        ensures { (saids : List Said)
            → HasRead saids self.old
            → HasReadLine mode saids line.now result self.new }
    {
        match self.line_says(alloc, mode, words, line)? {
            Some(said) => {
                self.take(alloc, said)?;
                Ok(())
            }
            None => Ok(()),
        }
    }

    /// What a line says behind those that were read; `words` lends its memory.
    fn line_says<'a>(
        &self,
        alloc: Global,
        mode: Mode,
        words: &mut Vec<&'a [u8]>,
        line: &'a [u8],
    ) -> Result<Option<Said>, LineFault>
        ensures { (saids : List Said)
            → HasRead saids self.now
            → Reads result (line_says mode saids line.now) }
    {
        split_words(words, line)?;
        words_say(
            alloc,
            mode,
            self.sections.len(),
            &self.labels,
            words.as_slice(),
        )
    }

    /// Takes what a line says.
    fn take(&mut self, alloc: Global, said: Said) -> Result<(), NoMemory>
        ensures { OnOk result
            ((saids : List Said) → HasRead saids self.old → HasRead (saids ++ said ∷ []) self.new) }
    {
        match said {
            Said::Section => self.end_section(alloc),
            Said::Says(line) => self.push_line(line),
        }
    }

    /// Ends the section that is read.
    fn end_section(&mut self, alloc: Global) -> Result<(), NoMemory>
        ensures { OnOk result
            ((saids : List Said) → HasRead saids self.old → HasRead (saids ++ Said.Section ∷ []) self.new) }
    {
        let lines = mem::replace(&mut self.current, Vec::new(alloc));
        self.labels = Labels::new(alloc);
        match self.sections.push(Items::of(lines)) {
            Ok(()) => Ok(()),
            Err(_) => Err(NoMemory),
        }
    }

    /// One line more of the section that is read.
    fn push_line(&mut self, line: Line) -> Result<(), NoMemory>
        ensures { OnOk result
            ((saids : List Said) → HasRead saids self.old → HasRead (saids ++ Said.Says line ∷ []) self.new) }
    {
        self.labels.note(&line)?;
        match self.current.push(line) {
            Ok(()) => Ok(()),
            Err(_) => Err(NoMemory),
        }
    }

    /// The script that was read.
    fn finish(self, mode: Mode) -> Result<Script, NoMemory>
        ensures { IfOk result
            (λ script. (saids : List Said) → HasRead saids self → script.producers ≡ producers_of mode saids) }
    {
        let Reader {
            mut sections,
            current,
            labels: _,
        } = self;
        if let Err(_) = sections.push(Items::of(current)) {
            return Err(NoMemory);
        }
        match mode {
            Mode::Replay => {}
            Mode::Run => {
                sections.remove(0);
            }
        }
        Ok(Script {
            producers: Items::of(sections),
        })
    }
}
