//! OIL of AUTOSAR: the expiry points of schedule tables, and the alarms that stand for their
//! actions.

use crate::braces::inside;
use crate::earlier::EarlierAttributes;
use crate::expiries::ExpiryName;
use crate::items::{Item, Written};
use crate::messages::{Subject, Verdict};
use crate::objects::{block_of, depth_of, subject_of};
use crate::reasons;
use crate::settings::Importer;
use crate::tables::{Table, TablePart};
use oil_reader::{AttributeName, Kind};
use std::alloc::{AllocError, Global};

/// The word of an attribute that tells when a point comes.
const OFFSET: &str = "OFFSET";

/// When the actions of a point come, in counts.
#[derive(Clone, Copy)]
struct PointTime {
    /// From the table's start.
    offset: u32,
    /// The ALARMTIME of its alarms, where they start by themselves.
    first: u32,
}

/// Whether an action activates a task.
fn is_activation(item: &Item<'_>) -> bool {
    match item.written {
        Written::Word(value) => value == "ACTIVATETASK",
        _ => false,
    }
}

/// How many of some offsets are one.
fn count_of(offsets: &[u32], offset: u32) -> usize {
    offsets.iter().filter(|other| **other == offset).count()
}

/// Items without those that tell when a point comes.
fn without_offset<'a>(alloc: Global, items: &[Item<'a>]) -> Result<Vec<Item<'a>>, AllocError> {
    let mut others = Vec::new(alloc);
    for item in items {
        if item.word != OFFSET {
            others.push(*item)?;
        }
    }
    Ok(others)
}

impl<'a> Importer<'a> {
    /// The points of a table, and what else stands in its braces.
    pub(crate) fn points(
        &mut self,
        alloc: Global,
        table: &mut Table<'a>,
        attributes: &[Item<'a>],
    ) -> Result<(), AllocError> {
        let depth = depth_of(attributes);
        for (at, item) in attributes.iter().enumerate() {
            if item.depth == depth {
                let block = inside(attributes, at, depth);
                match TablePart::of(item.word) {
                    Some(TablePart::Point) => self.point(alloc, table, item, block)?,
                    Some(TablePart::Action) => self.lone_action(alloc, table, item, block)?,
                    Some(_) => {}
                    None => self.other_of_table(item, block)?,
                }
            }
        }
        Ok(())
    }

    /// A point with its actions: those that activate tasks come first.
    fn point(
        &mut self,
        alloc: Global,
        table: &mut Table<'a>,
        item: &Item<'a>,
        block: &[Item<'a>],
    ) -> Result<(), AllocError> {
        if self.refuse_form(item)? {
            return Ok(());
        }
        let depth = depth_of(block);
        let mut is_idle = true;
        for (at, part) in block.iter().enumerate() {
            if part.depth == depth && part.word == "ACTION" {
                is_idle = false;
            } else if part.depth == depth && part.word != OFFSET {
                self.other_of_table(part, inside(block, at, depth))?;
            }
        }
        if is_idle {
            return self.leave_out(item, reasons::NO_EXPIRIES);
        }
        let Some(time) = self.point_time(table, item, block)? else {
            return Ok(());
        };
        for is_first in [true, false] {
            for (at, part) in block.iter().enumerate() {
                let is_action = part.depth == depth && part.word == "ACTION";
                if is_action && is_activation(part) == is_first {
                    self.expiry(alloc, table, time, part, inside(block, at, depth))?;
                }
            }
        }
        Ok(())
    }

    /// An action that stands in a table by itself, with its offset among its parts.
    fn lone_action(
        &mut self,
        alloc: Global,
        table: &mut Table<'a>,
        item: &Item<'a>,
        block: &[Item<'a>],
    ) -> Result<(), AllocError> {
        if self.refuse_form(item)? {
            return Ok(());
        }
        let Some(time) = self.point_time(table, item, block)? else {
            return Ok(());
        };
        let parts = without_offset(alloc, block)?;
        self.expiry(alloc, table, time, item, &parts)
    }

    /// When a point comes, by the offset in its braces.
    fn point_time(
        &mut self,
        table: &Table<'a>,
        point: &Item<'a>,
        block: &[Item<'a>],
    ) -> Result<Option<PointTime>, AllocError> {
        let depth = depth_of(block);
        let mut offset = None;
        for item in block {
            if item.depth == depth && item.word == OFFSET {
                if offset.is_some() {
                    let subject = Subject::Word(item.word);
                    self.messages.refuse(item.place, subject, reasons::TWICE)?;
                } else {
                    offset = Some(*item);
                }
            }
        }
        match offset {
            Some(item) => self.time_of(table, &item),
            None => {
                let subject = Subject::Word(OFFSET);
                self.messages.refuse(point.end, subject, reasons::MISSING)?;
                Ok(None)
            }
        }
    }

    /// When a point of that offset comes, where its table has room for it.
    fn time_of(
        &mut self,
        table: &Table<'a>,
        item: &Item<'a>,
    ) -> Result<Option<PointTime>, AllocError> {
        let Some(offset) = self.count(item)? else {
            return Ok(None);
        };
        if offset > table.duration || table.is_repeating && offset == table.duration {
            return self.refuse_time(item, reasons::BEYOND_TABLE);
        }
        let Some(start) = &table.start else {
            return Ok(Some(PointTime { offset, first: 0 }));
        };
        let first = start.count.saturating_add(offset);
        if first > table.most {
            return self.refuse_time(item, reasons::BEYOND_COUNTER);
        }
        if first > 0 {
            return Ok(Some(PointTime { offset, first }));
        }
        if !table.is_repeating {
            return self.refuse_time(item, reasons::NEVER);
        }
        let reason = reasons::IN_TICK_ZERO;
        self.messages
            .tell(item.place, Verdict::Kept, subject_of(item), reason)?;
        let first = table.duration;
        Ok(Some(PointTime { offset, first }))
    }

    fn refuse_time(
        &mut self,
        item: &Item<'a>,
        reason: &'static str,
    ) -> Result<Option<PointTime>, AllocError> {
        let (place, subject) = (item.written_place, subject_of(item));
        self.messages.refuse(place, subject, reason)?;
        Ok(None)
    }

    /// Has an alarm stand for an action.
    fn expiry(
        &mut self,
        alloc: Global,
        table: &mut Table<'a>,
        time: PointTime,
        action: &Item<'a>,
        block: &[Item<'a>],
    ) -> Result<(), AllocError> {
        let mut seen = EarlierAttributes::new(alloc);
        let Some(value) = self.taken(AttributeName::AlarmAction, action, &mut seen)? else {
            return Ok(());
        };
        let number = count_of(&table.offsets, time.offset).saturating_add(1);
        table.offsets.push(time.offset)?;
        let Some(name) = ExpiryName::new(table.name, time.offset, number) else {
            let subject = subject_of(action);
            return self
                .messages
                .refuse(action.place, subject, reasons::EXPIRY_UNNAMED);
        };
        let text = format!(in alloc; "{name}")?;
        let subject = Subject::Expiry(value, name);
        if let Some(reason) = self.against_alarm(text.as_str()) {
            return self.messages.refuse(action.place, subject, reason);
        }
        self.messages
            .tell(action.place, Verdict::Kept, subject, reasons::EXPIRY)?;
        self.draft.open_object("ALARM", text.as_str())?;
        self.objects.make(text)?;
        self.draft.setting("COUNTER", table.counter)?;
        self.draft.open_setting("ACTION", value)?;
        self.draft.open_block()?;
        let scope = block_of(AttributeName::AlarmAction, value);
        self.block(alloc, scope, action.end, block)?;
        self.draft.close_block()?;
        self.draft.close_setting()?;
        self.start_alarm(table, time)?;
        self.draft.close_object()
    }

    /// Why no alarm of that name can stand for an action.
    fn against_alarm(&self, name: &str) -> Option<&'static str> {
        if self.objects.has(Kind::Alarm, name) {
            return Some(reasons::EXPIRY_NAMED);
        }
        self.objects.refusal(Kind::Alarm, name)
    }

    /// The AUTOSTART of an alarm of a table.
    fn start_alarm(&mut self, table: &Table<'a>, time: PointTime) -> Result<(), AllocError> {
        let Some(start) = &table.start else {
            return self.draft.setting("AUTOSTART", "FALSE");
        };
        self.draft.open_setting("AUTOSTART", "TRUE")?;
        self.draft.open_block()?;
        self.draft.number("ALARMTIME", time.first)?;
        let cycle = if table.is_repeating {
            table.duration
        } else {
            0
        };
        self.draft.number("CYCLETIME", cycle)?;
        for mode in &start.modes {
            self.draft.setting("APPMODE", mode)?;
        }
        self.draft.close_block()?;
        self.draft.close_setting()
    }
}
