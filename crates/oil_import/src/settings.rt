//! OIL: standard objects and their attributes. The value of an attribute, and what stands where it
//! is missing.

use crate::attributes::{default_of, is_of_hook_code, named_by, reason_against};
use crate::bends::{Bends, default_category, is_other_category};
use crate::budgets::Budgets;
use crate::counters::Counters;
use crate::declared::{DEFAULT_MODE, DeclaredObjects, is_scheduler};
use crate::defaults::Defaults;
use crate::draft::Draft;
use crate::earlier::EarlierAttributes;
use crate::items::{Item, Written};
use crate::links::{LINKED, Links};
use crate::messages::{Messages, Subject, Verdict};
use crate::priorities::Priorities;
use crate::reasons;
use crate::sources::Place;
use crate::taken::{
    NOTHING, Taken, automatic, bent, cut, implemented, is_accepted, is_standard, is_too_far, kept,
    out_of_counts, renumbered, set, untaken, without_hook_code,
};
use oil_reader::{AttributeName, Kind};
use std::alloc::AllocError;

/// An import so far.
#[derive(Drop)]
pub(crate) struct Importer<'a> {
    pub objects: DeclaredObjects<'a>,
    pub priorities: Priorities,
    pub links: Links<'a>,
    pub counters: Counters<'a>,
    pub bends: Bends<'a>,
    pub defaults: Defaults<'a>,
    pub messages: Messages<'a>,
    pub draft: Draft,
    pub budgets: Budgets<'a>,
    /// Whether the mode is named that is there without being declared.
    pub needs_default_mode: bool,
}

impl<'a> Importer<'a> {
    /// What is taken for an attribute.
    fn choice(
        &self,
        attribute: AttributeName,
        item: &Item<'a>,
        seen: &EarlierAttributes<'a>,
    ) -> Taken<'a> {
        let word = Subject::Word(item.word);
        if !attribute.presence().is_list() && seen.has(attribute) {
            return untaken(item.place, Verdict::Refused, word, reasons::TWICE);
        }
        if let Some((place, reason)) = item.fault {
            return untaken(place, Verdict::Refused, word, reason);
        }
        match item.written {
            Written::Word(value) => self.value(attribute, item, value, seen),
            _ => untaken(item.place, Verdict::Refused, word, reasons::NO_VALUE),
        }
    }

    /// What is taken where an attribute has that word as its value.
    fn value(
        &self,
        attribute: AttributeName,
        item: &Item<'a>,
        value: &'a str,
        seen: &EarlierAttributes<'a>,
    ) -> Taken<'a> {
        if is_of_hook_code(attribute) {
            return without_hook_code(item, value);
        }
        if value == "AUTO" && attribute != AttributeName::EventMask {
            return automatic(attribute, item);
        }
        if let Some(becomes) = self.priorities.renumbered(attribute, value) {
            return renumbered(item, value, becomes);
        }
        let subject = Subject::Setting(item.word, value);
        if is_standard(attribute, value) {
            return bent(item, "EXTENDED", subject, reasons::STANDARD_STATUS);
        }
        if attribute == AttributeName::ResourceProperty && value == LINKED {
            return bent(item, "STANDARD", subject, reasons::LINKED);
        }
        if is_other_category(attribute, value) {
            return self.other_category(item, value);
        }
        if is_too_far(attribute, value) {
            return cut(item, value);
        }
        if !is_accepted(attribute, value) {
            let reason = reason_against(attribute);
            return untaken(item.written_place, Verdict::Refused, subject, reason);
        }
        if let Some(reason) = out_of_counts(attribute, value) {
            return untaken(item.written_place, Verdict::Refused, subject, reason);
        }
        let Some(kind) = named_by(attribute) else {
            return kept(attribute, item, value);
        };
        match self.against(attribute, kind, value, seen) {
            Some((verdict, reason)) => { untaken(item.written_place, verdict, subject, reason) }
            None => kept(attribute, item, value),
        }
    }

    /// Why an attribute doesn't name an object.
    fn against(
        &self,
        attribute: AttributeName,
        kind: Kind,
        name: &str,
        seen: &EarlierAttributes<'a>,
    ) -> Option<(Verdict, &'static str)> {
        if is_scheduler(kind, name) {
            return Some((Verdict::LeftOut, reasons::RES_SCHEDULER_IS_OPEN));
        }
        if !self.is_there(kind, name) {
            return Some((Verdict::Refused, reasons::UNKNOWN_REFERENCE));
        }
        if attribute.presence().is_list() && seen.lists(attribute, name) {
            return Some((Verdict::LeftOut, reasons::NAMED_ALREADY));
        }
        None
    }

    /// Whether an object is declared, or is there without.
    fn is_there(&self, kind: Kind, name: &str) -> bool {
        let is_default_mode = kind == Kind::AppMode && name == DEFAULT_MODE;
        is_default_mode || self.objects.find(kind, name).is_some()
    }

    /// What stands for an attribute that is missing, before the end of its object or block.
    fn missing(&self, attribute: AttributeName, end: Place) -> Taken<'a> {
        let word = attribute.word();
        if let Some(value) = self.defaults.of(attribute) {
            if self.priorities.renumbered(attribute, value).is_some() {
                return set(end, word, value, reasons::IMPLEMENTED);
            }
            if self.bends.are_asked && is_other_category(attribute, value) {
                return default_category(value, end);
            }
            return implemented(attribute, value, end);
        }
        if let Some(value) = default_of(attribute) {
            return set(end, word, value, reasons::MISSING);
        }
        if attribute == AttributeName::StartMode {
            return self.missing_mode(word, end);
        }
        if attribute.presence().may_lack() {
            return NOTHING;
        }
        untaken(end, Verdict::Refused, Subject::Word(word), reasons::MISSING)
    }

    /// The mode of an AUTOSTART, where there is only one.
    fn missing_mode(&self, word: &'a str, end: Place) -> Taken<'a> {
        match self.objects.only_mode() {
            Some(mode) => set(end, word, mode, reasons::ONE_MODE),
            None => {
                let subject = Subject::Word(word);
                untaken(end, Verdict::Refused, subject, reasons::MODES_WANTED)
            }
        }
    }

    /// Tells what is told of an attribute, and answers its value.
    fn tell(
        &mut self,
        attribute: AttributeName,
        taken: Taken<'a>,
    ) -> Result<Option<&'a str>, AllocError> {
        if attribute == AttributeName::StartMode && taken.value == Some(DEFAULT_MODE) {
            self.needs_default_mode = true;
        }
        if let Some(message) = taken.message {
            self.messages.add(message)?;
        }
        Ok(taken.value)
    }

    /// The value of an attribute, where it is taken.
    pub(crate) fn taken(
        &mut self,
        attribute: AttributeName,
        item: &Item<'a>,
        seen: &mut EarlierAttributes<'a>,
    ) -> Result<Option<&'a str>, AllocError> {
        let taken = self.choice(attribute, item, seen);
        seen.add(attribute, taken.value)?;
        self.tell(attribute, taken)
    }

    /// The value of an attribute that is missing, before the end of its object or block, where it
    /// has a default.
    pub(crate) fn taken_missing(
        &mut self,
        attribute: AttributeName,
        end: Place,
    ) -> Result<Option<&'a str>, AllocError> {
        let taken = self.missing(attribute, end);
        self.tell(attribute, taken)
    }

    /// Sets an attribute that is missing, before the end of its object or block, where it has a
    /// default.
    pub(crate) fn set_missing(
        &mut self,
        attribute: AttributeName,
        end: Place,
    ) -> Result<(), AllocError> {
        let Some(value) = self.taken_missing(attribute, end)? else {
            return Ok(());
        };
        match self.priorities.renumbered(attribute, value) {
            Some(becomes) => {
                self.draft.open_number(attribute.word(), becomes)?;
                self.draft.close_setting()
            }
            None => self.draft.setting(attribute.word(), value),
        }
    }
}
