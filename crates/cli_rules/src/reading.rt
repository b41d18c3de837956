//! Reads a file of rules, line by line.

use crate::fault::{RuleFault, RuleWrong};
use crate::kind::RuleKind;
use crate::names::Names;
use crate::words::{Word, words_of};
use cli_requests::{MAX_LONGEST, MAX_STATES, RoutineTicks, Rules};
use oil_reader::OilFile;
use osek_base::MAX_TICKS;
use std::alloc::{AllocError, Global};
use view_figure_texts::Limit;

/// What a file of rules says, or all that is wrong with it.
#[derive(Drop)]
pub enum RuleReading<'t> {
    Read(Rules<'t>),
    /// By place.
    Refused(Vec<RuleFault<'t>>),
}

/// A rule that stands in the lines before: its first word, and of what it is.
#[derive(Clone, Copy)]
struct Said<'t> {
    kind: &'static str,
    name: &'t str,
    place: usize,
}

/// What has been read of a file.
#[derive(Drop)]
struct Reader<'n, 'o, 't> {
    names: &'n Names<'o>,
    rules: Rules<'t>,
    said: Vec<Said<'t>>,
    faults: Vec<RuleFault<'t>>,
}

impl<'t> Reader<'_, '_, 't> {
    fn refuse(&mut self, word: Word<'t>, wrong: RuleWrong) -> Result<(), AllocError> {
        self.faults.push(RuleFault {
            place: word.place,
            word: word.text,
            wrong,
        })?;
        Ok(())
    }

    /// Where a rule of a kind, of a thing of that name, stands in the lines before.
    fn place_of(&self, kind: RuleKind, name: &str) -> Option<usize> {
        for said in &self.said {
            if said.kind == kind.word() && said.name == name {
                return Some(said.place);
            }
        }
        None
    }

    /// Takes down that a rule of a kind is said at a word, of a thing of a name, empty where it is
    /// of none.
    fn say(&mut self, kind: RuleKind, name: &'t str, word: Word<'t>) -> Result<(), AllocError> {
        if let Some(first) = self.place_of(kind, name) {
            return self.refuse(word, RuleWrong::Twice(first));
        }
        self.said.push(Said {
            kind: kind.word(),
            name,
            place: word.place,
        })?;
        Ok(())
    }

    /// The number that a word is; where it is none from the least to the greatest, the least.
    fn number(&mut self, word: Word<'t>, least: u32, most: u32) -> Result<u32, AllocError> {
        match word.text.parse::<u32>() {
            Ok(number) if least <= number && number <= most => Ok(number),
            _ => {
                self.refuse(word, RuleWrong::Number(least, most))?;
                Ok(least)
            }
        }
    }

    /// Takes down that a rule of a kind is said of a routine.
    fn routine(&mut self, kind: RuleKind, routine: Word<'t>) -> Result<(), AllocError> {
        if self.names.has_routine(routine.text) {
            self.say(kind, routine.text, routine)
        } else {
            self.refuse(routine, RuleWrong::NoRoutine)
        }
    }

    /// Reads how interrupts of a routine come: ticks from the least on.
    fn arriving(
        &mut self,
        kind: RuleKind,
        routine: Word<'t>,
        ticks: Word<'t>,
        least: u32,
    ) -> Result<(), AllocError> {
        self.routine(kind, routine)?;
        let said = RoutineTicks {
            routine: routine.text,
            ticks: self.number(ticks, least, MAX_TICKS)?,
        };
        match kind {
            RuleKind::Jitter => self.rules.jitter.push(said)?,
            RuleKind::Least => self.rules.least.push(said)?,
            _ => self.rules.apart.push(said)?,
        }
        Ok(())
    }

    /// Reads that no interrupt of a routine comes.
    fn never(&mut self, routine: Word<'t>) -> Result<(), AllocError> {
        self.routine(RuleKind::Never, routine)?;
        self.rules.never.push(RoutineTicks {
            routine: routine.text,
            ticks: 0,
        })?;
        Ok(())
    }

    /// The figure that a limit on a thing is on; None where no single thing has the name, which is
    /// told.
    fn figure_of(&mut self, thing: Word<'t>) -> Result<Option<&'static str>, AllocError> {
        let is_task = self.names.has_task(thing.text);
        let is_routine = self.names.has_routine(thing.text);
        match (is_task, is_routine) {
            (true, false) => Ok(Some("greatest")),
            (false, true) => Ok(Some("latency")),
            (true, true) => {
                self.refuse(thing, RuleWrong::TwoThings)?;
                Ok(None)
            }
            (false, false) => {
                self.refuse(thing, RuleWrong::NoThing)?;
                Ok(None)
            }
        }
    }

    fn limit(
        &mut self,
        thing: Word<'t>,
        figure: Word<'t>,
        ticks: Word<'t>,
    ) -> Result<(), AllocError> {
        if let Some(wanted) = self.figure_of(thing)? {
            self.say(RuleKind::Limit, thing.text, thing)?;
            if figure.text != wanted {
                self.refuse(figure, RuleWrong::OtherFigure(wanted))?;
            }
        }
        let ticks = self.number(ticks, 0, MAX_TICKS)?;
        self.rules.times.push(Limit {
            name: thing.text,
            ticks,
        })?;
        Ok(())
    }

    /// Tells that a line of a kind has too few words, or too many.
    fn refuse_length(&mut self, kind: RuleKind, words: &[Word<'t>]) -> Result<(), AllocError> {
        if let Some(word) = words.get(kind.len()) {
            return self.refuse(*word, RuleWrong::Long(kind.form()));
        }
        match words.last() {
            Some(word) => {
                let end = Word {
                    place: word.end(),
                    text: "",
                };
                self.refuse(end, RuleWrong::Short(kind.form()))
            }
            None => Ok(()),
        }
    }

    /// Reads a rule of which the line is as long as it has to be.
    fn rule(
        &mut self,
        kind: RuleKind,
        first: Word<'t>,
        rest: &[Word<'t>],
    ) -> Result<(), AllocError> {
        match (kind, rest) {
            (RuleKind::Apart | RuleKind::Least, [routine, ticks]) => {
                return self.arriving(kind, *routine, *ticks, 1);
            }
            (RuleKind::Jitter, [routine, ticks]) => {
                return self.arriving(kind, *routine, *ticks, 0);
            }
            (RuleKind::Never, [routine]) => return self.never(*routine),
            (RuleKind::Limit, [thing, figure, ticks]) => {
                return self.limit(*thing, *figure, *ticks);
            }
            (RuleKind::Longest, [ticks]) => {
                self.rules.longest = Some(self.number(*ticks, 1, MAX_LONGEST)?);
            }
            (RuleKind::States, [count]) => {
                self.rules.states = Some(self.number(*count, 1, MAX_STATES)?);
            }
            (RuleKind::NoLoss, _) => self.rules.no_loss = true,
            (RuleKind::NoRefusal, _) => self.rules.no_refusal = true,
            _ => {}
        }
        self.say(kind, "", first)
    }

    /// Reads the words of a line.
    fn line(&mut self, words: &[Word<'t>]) -> Result<(), AllocError> {
        let Some((first, rest)) = words.split_first() else {
            return Ok(());
        };
        match RuleKind::of(first.text) {
            None => self.refuse(*first, RuleWrong::NoRule),
            Some(kind) if words.len() != kind.len() => self.refuse_length(kind, words),
            Some(kind) => self.rule(kind, *first, rest),
        }
    }
}

/// Reads a file of rules for the system of an OIL file. An error is want of memory.
pub fn read_rules<'t>(
    alloc: Global,
    file: &OilFile,
    text: &'t [u8],
) -> Result<RuleReading<'t>, AllocError> {
    let names = Names::of(alloc, file)?;
    let mut reader = Reader {
        names: &names,
        rules: Rules::none(alloc),
        said: Vec::new(alloc),
        faults: Vec::new(alloc),
    };
    let mut place: usize = 0;
    for line in text.split(|byte| *byte == b'\n') {
        reader.line(&words_of(alloc, line, place)?)?;
        place = place.saturating_add(line.len()).saturating_add(1);
    }
    let Reader { rules, faults, .. } = reader;
    if faults.is_empty() {
        Ok(RuleReading::Read(rules))
    } else {
        Ok(RuleReading::Refused(faults))
    }
}
