//! OIL of AUTOSAR: schedule tables, each with its counter, its duration and how it starts. An alarm
//! stands for each action of its points.

use crate::braces::inside;
use crate::counters::CounterLimits;
use crate::earlier::EarlierAttributes;
use crate::items::{Item, Written};
use crate::messages::{Messages, Subject, Verdict};
use crate::objects::{depth_of, is_action, subject_of};
use crate::priorities::number;
use crate::reasons;
use crate::settings::Importer;
use crate::sources::Place;
use oil_reader::{AttributeName, Kind};
use std::alloc::{AllocError, Global};
use std::mem;

/// A table. Times are counts of its counter. What is refused of it is no limit of its points.
#[derive(Drop)]
pub(crate) struct Table<'a> {
    pub name: &'a str,
    pub counter: &'a str,
    /// The longest time of an alarm of its counter.
    pub most: u32,
    /// How long a round of it takes.
    pub duration: u32,
    pub is_repeating: bool,
    pub start: Option<TableStart<'a>>,
    /// The offsets of the actions so far.
    pub offsets: Vec<u32>,
}

/// How a table starts by itself.
#[derive(Drop)]
pub(crate) struct TableStart<'a> {
    /// The count at which it does.
    pub count: u32,
    pub modes: Vec<&'a str>,
}

/// What an attribute of a table says.
#[derive(Clone, Copy)]
pub(crate) enum TablePart {
    Counter,
    Duration,
    Repeating,
    Autostart,
    Point,
    /// Of older standards: its offset stands among its parts.
    Action,
}

impl TablePart {
    /// What an attribute of that word says, in the spellings of several tools.
    pub(crate) fn of(word: &str) -> Option<TablePart> {
        match word {
            "COUNTER" => Some(TablePart::Counter),
            "DURATION" | "LENGTH" => Some(TablePart::Duration),
            "REPEATING" | "PERIODIC" => Some(TablePart::Repeating),
            "AUTOSTART" => Some(TablePart::Autostart),
            "EXPIRY_POINT" | "EXPIRYPOINT" | "EXPIRE_POINT" => Some(TablePart::Point),
            "ACTION" => Some(TablePart::Action),
            _ => None,
        }
    }
}

/// Whether objects of a kind that isn't known are schedule tables.
pub(crate) fn is_table(word: &str) -> bool {
    matches!(word, "SCHEDULETABLE" | "SCHEDULE_TABLE")
}

/// Whether an attribute says that services adjust a table to a time that is told.
fn is_adjusting(item: &Item<'_>) -> bool {
    match (item.word, item.written) {
        ("LOCAL_TO_GLOBAL_TIME_SYNCHRONIZATION", Written::Word("TRUE")) => true,
        (_, Written::Word("EXPLICIT")) => true,
        _ => false,
    }
}

impl<'a> Importer<'a> {
    /// A schedule table. What is told of it is told in the order of its places.
    pub(crate) fn table(
        &mut self,
        alloc: Global,
        item: &Item<'a>,
        attributes: &[Item<'a>],
    ) -> Result<(), AllocError> {
        let before = mem::replace(&mut self.messages, Messages::new(alloc));
        self.take_table(alloc, item, attributes)?;
        let of_table = mem::replace(&mut self.messages, before);
        self.messages.append(of_table)
    }

    fn take_table(
        &mut self,
        alloc: Global,
        item: &Item<'a>,
        attributes: &[Item<'a>],
    ) -> Result<(), AllocError> {
        if self.refuse_form(item)? {
            return Ok(());
        }
        let Written::Name(name) = item.written else {
            let subject = Subject::Word(item.word);
            return self.messages.refuse(item.place, subject, reasons::NO_NAME);
        };
        let is_idle = attributes.iter().all(|attribute| attribute.word != "ACTION"
            && !self.is_load(attribute));
        if is_idle {
            return self.leave_out(item, reasons::NO_EXPIRIES);
        }
        let mut table = self.read_table(alloc, name, item, attributes)?;
        self.points(alloc, &mut table, attributes)
    }

    /// What a table says beside its points.
    fn read_table(
        &mut self,
        alloc: Global,
        name: &'a str,
        table: &Item<'a>,
        attributes: &[Item<'a>],
    ) -> Result<Table<'a>, AllocError> {
        let end = table.end;
        let counter = match self.wanted(attributes, TablePart::Counter, "COUNTER", end)? {
            Some(item) => {
                let mut seen = EarlierAttributes::new(alloc);
                self.taken(AttributeName::AlarmCounter, &item, &mut seen)?
            }
            None => None,
        };
        let said = self.wanted(attributes, TablePart::Duration, "DURATION", end)?;
        let duration = match said {
            Some(item) => self.count(&item)?,
            None => None,
        };
        let is_repeating = match self.wanted(attributes, TablePart::Repeating, "REPEATING", end)? {
            Some(item) => self.switch(&item)? == Some(true),
            None => false,
        };
        let start = self.table_start(alloc, table, attributes)?;
        let limits = self.counters.of(counter.unwrap_or(""));
        if let (true, true, Some(item)) = (is_repeating, start.is_some(), said) {
            self.refuse_cycle(&item, duration, limits)?;
        }
        Ok(Table {
            name,
            counter: counter.unwrap_or(""),
            most: limits.map_or(u32::MAX, |limits| limits.most),
            duration: duration.unwrap_or(u32::MAX),
            is_repeating,
            start,
            offsets: Vec::new(alloc),
        })
    }

    /// Refuses a duration that no alarm of a counter can have as its cycle.
    fn refuse_cycle(
        &mut self,
        item: &Item<'a>,
        duration: Option<u32>,
        limits: Option<CounterLimits<'a>>,
    ) -> Result<(), AllocError> {
        let (Some(cycle), Some(limits)) = (duration, limits) else {
            return Ok(());
        };
        if limits.least_cycle <= cycle && cycle <= limits.most {
            return Ok(());
        }
        let (place, subject) = (item.written_place, subject_of(item));
        self.messages.refuse(place, subject, reasons::CYCLE)
    }

    /// How a table starts, where it does by itself.
    fn table_start(
        &mut self,
        alloc: Global,
        table: &Item<'a>,
        attributes: &[Item<'a>],
    ) -> Result<Option<TableStart<'a>>, AllocError> {
        let Some(at) = self.only(attributes, TablePart::Autostart)? else {
            self.tell_not_started(table)?;
            return Ok(None);
        };
        let Some(item) = attributes.get(at) else {
            return Ok(None);
        };
        match item.written {
            Written::Word("TRUE" | "ABSOLUTE" | "RELATIVE") => {
                let block = inside(attributes, at, item.depth);
                Ok(Some(self.started(alloc, item, block)?))
            }
            _ => {
                if self.switch(item)? == Some(false) {
                    self.tell_not_started(item)?;
                }
                Ok(None)
            }
        }
    }

    /// Tells that nothing starts a table, by the item that says so.
    fn tell_not_started(&mut self, item: &Item<'a>) -> Result<(), AllocError> {
        let (subject, reason) = (subject_of(item), reasons::NOT_STARTED);
        self.messages
            .tell(item.place, Verdict::Kept, subject, reason)
    }

    /// The start that stands in the braces of an AUTOSTART: its only number, and modes.
    fn started(
        &mut self,
        alloc: Global,
        item: &Item<'a>,
        block: &[Item<'a>],
    ) -> Result<TableStart<'a>, AllocError> {
        let mut seen = EarlierAttributes::new(alloc);
        let mut modes = Vec::new(alloc);
        let mut count = None;
        for part in block {
            if part.word == "APPMODE" {
                if let Some(mode) = self.taken(AttributeName::StartMode, part, &mut seen)? {
                    modes.push(mode)?;
                }
            } else {
                count = self.start_count(part, count)?;
            }
        }
        if !seen.has(AttributeName::StartMode) {
            if let Some(mode) = self.taken_missing(AttributeName::StartMode, item.end)? {
                modes.push(mode)?;
            }
        }
        if count.is_none() {
            let subject = Subject::Word(item.word);
            self.messages
                .refuse(item.end, subject, reasons::START_WANTED)?;
        }
        Ok(TableStart {
            count: count.unwrap_or(1),
            modes,
        })
    }

    /// The count at which a table starts, after another part of its AUTOSTART.
    fn start_count(
        &mut self,
        part: &Item<'a>,
        before: Option<u32>,
    ) -> Result<Option<u32>, AllocError> {
        let said = match part.written {
            Written::Word(value) => number(value),
            _ => None,
        };
        match (part.word, part.written, said) {
            (_, _, Some(_)) if before.is_some() => {
                let reason = reasons::START_TWICE;
                self.messages.refuse(part.place, subject_of(part), reason)?;
            }
            (_, _, Some(count)) => return Ok(Some(count)),
            ("TYPE", Written::Word("ABSOLUTE" | "RELATIVE"), _) => {}
            ("TYPE", _, _) => {
                let (place, subject) = (part.written_place, subject_of(part));
                self.messages.refuse(place, subject, reasons::START_TYPES)?;
            }
            _ => self.leave_out(part, reasons::UNKNOWN_ATTRIBUTE)?,
        }
        Ok(before)
    }

    /// The place among attributes of the one that says something, where one does. A second one is
    /// refused.
    fn only(
        &mut self,
        attributes: &[Item<'a>],
        part: TablePart,
    ) -> Result<Option<usize>, AllocError> {
        let depth = depth_of(attributes);
        let mut found = None;
        for (at, item) in attributes.iter().enumerate() {
            let is_said = TablePart::of(item.word).is_some_and(|said| said == part);
            if item.depth == depth && is_said {
                if found.is_some() {
                    let subject = Subject::Word(item.word);
                    self.messages.refuse(item.place, subject, reasons::TWICE)?;
                } else {
                    found = Some(at);
                }
            }
        }
        Ok(found)
    }

    /// The attribute that says something. It is refused that none does.
    fn wanted(
        &mut self,
        attributes: &[Item<'a>],
        part: TablePart,
        word: &'a str,
        end: Place,
    ) -> Result<Option<Item<'a>>, AllocError> {
        match self.only(attributes, part)? {
            Some(at) => Ok(attributes.get(at).copied()),
            None => {
                let subject = Subject::Word(word);
                self.messages.refuse(end, subject, reasons::MISSING)?;
                Ok(None)
            }
        }
    }

    /// The number that an attribute is.
    pub(crate) fn count(&mut self, item: &Item<'a>) -> Result<Option<u32>, AllocError> {
        if self.refuse_form(item)? {
            return Ok(None);
        }
        let count = match item.written {
            Written::Word(value) => number(value),
            _ => None,
        };
        if count.is_none() {
            let (place, subject) = (item.written_place, subject_of(item));
            self.messages.refuse(place, subject, reasons::NUMBERS)?;
        }
        Ok(count)
    }

    /// Whether an attribute is TRUE.
    fn switch(&mut self, item: &Item<'a>) -> Result<Option<bool>, AllocError> {
        if self.refuse_form(item)? {
            return Ok(None);
        }
        match item.written {
            Written::Word("TRUE") => Ok(Some(true)),
            Written::Word("FALSE") => Ok(Some(false)),
            _ => {
                let (place, subject) = (item.written_place, subject_of(item));
                self.messages.refuse(place, subject, reasons::SWITCH)?;
                Ok(None)
            }
        }
    }

    /// Whether something may activate a task or set an event.
    fn is_load(&self, item: &Item<'_>) -> bool {
        match item.written {
            Written::Word(value) | Written::Name(value) => {
                is_action(value) || self.objects.find(Kind::Task, value).is_some()
            }
            Written::Nothing | Written::Text(_) => false,
        }
    }

    /// Refuses what may be load, and answers whether it did.
    fn refuse_load(&mut self, item: &Item<'a>) -> Result<bool, AllocError> {
        if !self.is_load(item) {
            return Ok(false);
        }
        let (subject, reason) = (subject_of(item), reasons::LOAD);
        self.messages.refuse(item.place, subject, reason)?;
        Ok(true)
    }

    /// An attribute of a table or of a point that isn't known, with what stands in its braces.
    pub(crate) fn other_of_table(
        &mut self,
        item: &Item<'a>,
        block: &[Item<'a>],
    ) -> Result<(), AllocError> {
        if self.refuse_load(item)? {
            return Ok(());
        }
        for part in block {
            if self.refuse_load(part)? {
                return Ok(());
            }
        }
        if !is_adjusting(item) && !block.iter().any(is_adjusting) {
            return self.leave_out(item, reasons::UNKNOWN_ATTRIBUTE);
        }
        let (verdict, reason) = if self.bends.are_asked {
            (Verdict::Kept, reasons::BENT_SYNCHRONIZED)
        } else {
            (Verdict::Refused, reasons::SYNCHRONIZED)
        };
        self.messages
            .tell(item.place, verdict, subject_of(item), reason)
    }
}
