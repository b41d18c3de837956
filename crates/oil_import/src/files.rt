//! OIL: grammar. A whole file: its version, its CPU and what else stands beside it.

use crate::attributes::{is_cpu, is_cpu_name};
use crate::bends::Bends;
use crate::braces::inside;
use crate::budgets::Budgets;
use crate::counters::Counters;
use crate::declared::{DEFAULT_MODE, DeclaredObjects};
use crate::defaults::Defaults;
use crate::draft::Draft;
use crate::items::{Item, Written};
use crate::links::Links;
use crate::long_names::reason_against_name;
use crate::messages::{Messages, Subject, Verdict};
use crate::objects::depth_of;
use crate::priorities::Priorities;
use crate::reasons;
use crate::settings::Importer;
use crate::sources::Place;
use oil_reader::Kind;
use std::alloc::{AllocError, Global};

/// What a file has besides comments.
const VERSION: &str = "OIL_VERSION";

const CPU: &str = "CPU";

/// The number of the first CPU outside all braces.
fn first_cpu(items: &[Item<'_>]) -> Option<usize> {
    items
        .iter()
        .position(|item| item.depth == 0 && is_cpu(item.word))
}

/// Whether a version stands outside all braces.
fn has_version(items: &[Item<'_>]) -> bool {
    items
        .iter()
        .any(|item| item.depth == 0 && item.word == VERSION)
}

/// What stands in the braces of the item of that number.
fn of_cpu<'t, 'a>(items: &'t [Item<'a>], cpu: Option<usize>) -> &'t [Item<'a>] {
    match cpu {
        Some(number) => inside(items, number, 0),
        None => &[],
    }
}

impl<'a> Importer<'a> {
    /// Nothing so far, of a CPU that has such objects.
    pub(crate) fn new(
        alloc: Global,
        objects: &[Item<'a>],
        defaults: Defaults<'a>,
        messages: Messages<'a>,
        is_bending: bool,
    ) -> Result<Self, AllocError> {
        let depth = depth_of(objects);
        Ok(Importer {
            objects: DeclaredObjects::new(alloc, objects, depth)?,
            priorities: Priorities::new(alloc, objects, depth, &defaults, is_bending)?,
            links: Links::new(alloc, objects, depth)?,
            counters: Counters::new(alloc, objects, depth, &defaults)?,
            bends: Bends::new(alloc, objects, depth, is_bending)?,
            defaults,
            messages,
            draft: Draft::new(alloc),
            budgets: Budgets::new(alloc),
            needs_default_mode: false,
        })
    }

    /// What stands outside all braces; of the first CPU with what stands in its braces.
    fn outer(
        &mut self,
        alloc: Global,
        item: &Item<'a>,
        cpu: Option<&[Item<'a>]>,
    ) -> Result<(), AllocError> {
        if self.refuse_form(item)? {
            return Ok(());
        }
        let subject = Subject::Word(item.word);
        match item.word {
            VERSION => self.version(item),
            word if is_cpu(word) => match cpu {
                Some(objects) => self.cpu(alloc, item, objects),
                None => self
                    .messages
                    .refuse(item.place, subject, reasons::SECOND_CPU),
            },
            "IMPLEMENTATION" => {
                let reason = reasons::IMPLEMENTATION;
                self.messages.leave_out(item.place, subject, reason)
            }
            _ => self
                .messages
                .leave_out(item.place, subject, reasons::OUTSIDE),
        }
    }

    fn version(&mut self, item: &Item<'a>) -> Result<(), AllocError> {
        let subject = Subject::Word(VERSION);
        match item.written {
            Written::Text(b"2.5") => Ok(()),
            Written::Text(_) => {
                let reason = reasons::OTHER_VERSION;
                self.messages
                    .tell(item.written_place, Verdict::Set, subject, reason)
            }
            _ => self.messages.refuse(item.place, subject, reasons::NO_VALUE),
        }
    }

    /// The CPU and its objects.
    fn cpu(
        &mut self,
        alloc: Global,
        item: &Item<'a>,
        objects: &[Item<'a>],
    ) -> Result<(), AllocError> {
        let subject = Subject::Word(CPU);
        let Written::Name(name) = item.written else {
            return self.messages.refuse(item.place, subject, reasons::NO_NAME);
        };
        if !is_cpu_name(name) {
            let subject = Subject::Object(CPU, name);
            let place = item.written_place;
            self.messages
                .refuse(place, subject, reason_against_name(name))?;
        }
        self.draft.open_file(name)?;
        let depth = depth_of(objects);
        for (number, object) in objects.iter().enumerate() {
            if object.depth == depth {
                let attributes = inside(objects, number, depth);
                self.object(alloc, number, object, attributes)?;
            }
        }
        self.end_cpu(item.end)
    }

    /// Adds what a CPU needs, and closes it.
    fn end_cpu(&mut self, end: Place) -> Result<(), AllocError> {
        if self.objects.count(Kind::Os) == 0 {
            let subject = Subject::Word("OS");
            self.messages.refuse(end, subject, reasons::MISSING)?;
        }
        if self.lacks_default_mode() {
            self.add_default_mode(end)?;
        }
        self.draft.close_file()
    }

    /// Whether the mode is wanted that is there without being declared.
    fn lacks_default_mode(&self) -> bool {
        let is_wanted = self.needs_default_mode || self.objects.count(Kind::AppMode) == 0;
        is_wanted && self.objects.find(Kind::AppMode, DEFAULT_MODE).is_none()
    }

    fn add_default_mode(&mut self, end: Place) -> Result<(), AllocError> {
        let subject = Subject::Object("APPMODE", DEFAULT_MODE);
        self.messages
            .tell(end, Verdict::Set, subject, reasons::DEFAULT_MODE)?;
        self.draft.open_object("APPMODE", DEFAULT_MODE)?;
        self.draft.close_object()
    }

    /// Takes all items up to the end of a file, of which one is its CPU.
    fn items(
        &mut self,
        alloc: Global,
        items: &[Item<'a>],
        cpu: Option<usize>,
        end: Place,
    ) -> Result<(), AllocError> {
        for (number, item) in items.iter().enumerate() {
            if item.depth == 0 {
                let objects = if cpu == Some(number) {
                    Some(inside(items, number, 0))
                } else {
                    None
                };
                self.outer(alloc, item, objects)?;
            }
        }
        if !has_version(items) {
            let subject = Subject::Word(VERSION);
            let place = Place::first(0);
            self.messages
                .tell(place, Verdict::Set, subject, reasons::NO_VERSION)?;
        }
        if cpu.is_none() {
            let subject = Subject::Word(CPU);
            self.messages.refuse(end, subject, reasons::NO_CPU)?;
        }
        Ok(())
    }
}

/// What items become.
pub(crate) fn import_items<'a>(
    alloc: Global,
    items: &[Item<'a>],
    defaults: Defaults<'a>,
    end: Place,
    messages: Messages<'a>,
    is_bending: bool,
) -> Result<Importer<'a>, AllocError> {
    let cpu = first_cpu(items);
    let mut importer = Importer::new(alloc, of_cpu(items, cpu), defaults, messages, is_bending)?;
    importer.items(alloc, items, cpu, end)?;
    Ok(importer)
}
