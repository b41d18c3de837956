//! OIL: standard objects. Routines that are read with another meaning where that is asked for:
//! those of category 1 and 3, and those that list resources.

use crate::braces::inside;
use crate::declared::is_scheduler;
use crate::defaults::Defaults;
use crate::earlier::EarlierAttributes;
use crate::items::{Item, Written, value_in};
use crate::messages::{Message, Subject, Verdict};
use crate::objects::depth_of;
use crate::priorities::number;
use crate::reasons;
use crate::settings::Importer;
use crate::sources::Place;
use crate::taken::{Taken, bent, untaken};
use oil_reader::{AttributeName, Kind};
use std::alloc::{AllocError, Global};

/// What routines of category 1 and 3 are taken as.
const CATEGORY: &str = "2";

/// Which bends are asked for, and what they go by.
#[derive(Drop)]
pub(crate) struct Bends<'a> {
    /// Whether all are.
    pub are_asked: bool,
    /// The resources that tasks list.
    listed: Vec<&'a str>,
}

/// Whether a value is a category of routines that there is elsewhere: those that interrupt the
/// kernel, and those of older standards that enter it by a call of their own.
pub(crate) fn is_other_category(attribute: AttributeName, value: &str) -> bool {
    attribute == AttributeName::Category && matches!(number(value), Some(1 | 3))
}

/// Whether attributes, which lie at that depth, are those of a routine of category 1 or 3.
pub(crate) fn is_bent_routine(
    attributes: &[Item<'_>],
    depth: usize,
    defaults: &Defaults<'_>,
) -> bool {
    let category = AttributeName::Category;
    match value_in(attributes, depth, category.word()).or(defaults.of(category)) {
        Some(value) => is_other_category(category, value),
        None => false,
    }
}

impl<'a> Bends<'a> {
    /// Those of the objects among items, which lie at that depth.
    pub(crate) fn new(
        alloc: Global,
        items: &[Item<'a>],
        depth: usize,
        are_asked: bool,
    ) -> Result<Self, AllocError> {
        let mut listed = Vec::new(alloc);
        let own = depth.saturating_add(1);
        for (at, item) in items.iter().enumerate() {
            if item.depth == depth && item.word == "TASK" {
                for attribute in inside(items, at, depth) {
                    if let ("RESOURCE", Written::Word(name)) = (attribute.word, attribute.written) {
                        if attribute.depth == own {
                            listed.push(name)?;
                        }
                    }
                }
            }
        }
        Ok(Bends { are_asked, listed })
    }
}

/// What stands for a category that is missing, where its default is one of those.
pub(crate) fn default_category<'a>(value: &'a str, end: Place) -> Taken<'a> {
    Taken {
        value: Some(CATEGORY),
        message: Some(Message {
            place: end,
            verdict: Verdict::Kept,
            subject: Subject::Setting(AttributeName::Category.word(), value),
            reason: reasons::BENT_CATEGORY,
        }),
    }
}

impl<'a> Importer<'a> {
    /// What is taken for a category of routines that there is elsewhere.
    pub(crate) fn other_category(&self, item: &Item<'a>, value: &'a str) -> Taken<'a> {
        let subject = Subject::Setting(item.word, value);
        if self.bends.are_asked {
            return bent(item, CATEGORY, subject, reasons::BENT_CATEGORY);
        }
        let reason = reasons::OTHER_CATEGORY;
        untaken(item.written_place, Verdict::Refused, subject, reason)
    }

    /// Sets the priority of a routine of category 1 or 3 that says none.
    pub(crate) fn set_bent_priority(
        &mut self,
        end: Place,
        attributes: &[Item<'a>],
        seen: &mut EarlierAttributes<'a>,
    ) -> Result<(), AllocError> {
        let attribute = AttributeName::IsrPriority;
        let is_said = seen.has(attribute) || self.defaults.of(attribute).is_some();
        let is_bent = is_bent_routine(attributes, depth_of(attributes), &self.defaults);
        if !self.bends.are_asked || !is_bent || is_said {
            return Ok(());
        }
        seen.add(attribute, None)?;
        let priority = self.priorities.of_bent_routine();
        let subject = Subject::Number(attribute.word(), priority);
        self.messages
            .tell(end, Verdict::Set, subject, reasons::BENT_PRIORITY)?;
        self.draft.number(attribute.word(), priority)
    }

    /// Whether a task may hold a resource, or one that is linked to it.
    fn is_of_tasks(&self, name: &str) -> bool {
        if is_scheduler(Kind::Resource, name) {
            return true;
        }
        for listed in &self.bends.listed {
            if *listed == name || self.links.are_linked(listed, name) {
                return true;
            }
        }
        false
    }

    /// A resource that a routine lists.
    pub(crate) fn routines_resource(&mut self, item: &Item<'a>) -> Result<(), AllocError> {
        if self.refuse_form(item)? {
            return Ok(());
        }
        let Written::Word(name) = item.written else {
            let subject = Subject::Word(item.word);
            return self.messages.refuse(item.place, subject, reasons::NO_VALUE);
        };
        let subject = Subject::Setting(item.word, name);
        if self.bends.are_asked && !self.is_resource(name) {
            let (place, reason) = (item.written_place, reasons::UNKNOWN_REFERENCE);
            return self.messages.refuse(place, subject, reason);
        }
        let (verdict, reason) = if !self.bends.are_asked {
            (Verdict::Refused, reasons::ROUTINES_RESOURCE)
        } else if self.is_of_tasks(name) {
            (Verdict::Kept, reasons::SHARED_RESOURCE)
        } else {
            (Verdict::LeftOut, reasons::RESOURCE_OF_ROUTINES)
        };
        self.messages.tell(item.place, verdict, subject, reason)
    }

    /// Whether a resource is declared, or is there without.
    fn is_resource(&self, name: &str) -> bool {
        let kind = Kind::Resource;
        is_scheduler(kind, name) || self.objects.find(kind, name).is_some()
    }
}
