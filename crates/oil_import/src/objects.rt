//! OIL: standard objects. An object with its attributes and their blocks.

use crate::attributes::{
    attribute_of, is_of_communication, is_software_counter, kind_of, value_of,
};
use crate::braces::inside;
use crate::declared::is_scheduler;
use crate::earlier::EarlierAttributes;
use crate::items::{Item, Written};
use crate::links::LINKED;
use crate::messages::{Subject, Verdict};
use crate::reasons;
use crate::settings::Importer;
use crate::sources::Place;
use crate::tables::is_table;
use crate::taken::is_one;
use oil_reader::{AttributeName, Kind, attributes_of};
use std::alloc::{AllocError, Global};

/// An object that is imported: its kind and name, and the place of its end.
#[derive(Clone, Copy)]
struct ImportedObject<'a> {
    kind: Kind,
    name: &'a str,
    end: Place,
}

/// Whether an attribute says that a resource is linked.
fn is_linked(attribute: AttributeName, item: &Item<'_>) -> bool {
    match item.written {
        Written::Word(value) => attribute == AttributeName::ResourceProperty && value == LINKED,
        _ => false,
    }
}

/// Whether a value is that of an attribute that activates a task, sets an event or runs code.
pub(crate) fn is_action(value: &str) -> bool {
    matches!(
        value,
        "ACTIVATETASK" | "SETEVENT" | "ALARMCALLBACK" | "COMCALLBACK" | "NMCALLBACK"
    )
}

/// Why an attribute that isn't known is left out.
fn reason_for(kind: Kind, word: &str) -> &'static str {
    match (kind, word) {
        (Kind::Os, "CC") => reasons::CLASS,
        (Kind::Os, "SCHEDULE") => reasons::SCHEDULING,
        (Kind::Task | Kind::Isr, "MESSAGE" | "ACCESSOR") => reasons::COMMUNICATION,
        (Kind::Task | Kind::Isr, "TIMING_PROTECTION") => reasons::BUDGETS,
        _ => reasons::UNKNOWN_ATTRIBUTE,
    }
}

/// What an item says, for a message.
pub(crate) fn subject_of<'a>(item: &Item<'a>) -> Subject<'a> {
    match item.written {
        Written::Nothing | Written::Text(_) => Subject::Word(item.word),
        Written::Name(name) => Subject::Object(item.word, name),
        Written::Word(value) => Subject::Setting(item.word, value),
    }
}

/// The attributes of the block behind a value.
pub(crate) fn block_of(attribute: AttributeName, value: &str) -> &'static [AttributeName] {
    match value_of(value) {
        Some(value) => attribute.block(value),
        None => &[],
    }
}

impl<'a> Importer<'a> {
    /// Refuses an item that isn't of its form, and answers whether it did.
    pub(crate) fn refuse_form(&mut self, item: &Item<'a>) -> Result<bool, AllocError> {
        let Some((place, reason)) = item.fault else {
            return Ok(false);
        };
        self.messages
            .refuse(place, Subject::Word(item.word), reason)?;
        Ok(true)
    }

    /// An item among the objects of a CPU, and what stands in its braces.
    pub(crate) fn object(
        &mut self,
        alloc: Global,
        number: usize,
        item: &Item<'a>,
        attributes: &[Item<'a>],
    ) -> Result<(), AllocError> {
        let Some(kind) = kind_of(item.word) else {
            if is_table(item.word) {
                return self.table(alloc, item, attributes);
            }
            return self.other_object(item, attributes);
        };
        if self.refuse_form(item)? {
            return Ok(());
        }
        let Written::Name(name) = item.written else {
            let subject = Subject::Word(item.word);
            return self.messages.refuse(item.place, subject, reasons::NO_NAME);
        };
        if is_scheduler(kind, name) {
            let reason = reasons::RES_SCHEDULER_IS_THERE;
            return self
                .messages
                .leave_out(item.place, subject_of(item), reason);
        }
        if !self.is_declared(kind, name, number) {
            return self.refuse_name(kind, name, item);
        }
        self.budgets.note(kind, name, attributes)?;
        self.draft.open_object(item.word, name)?;
        let end = item.end;
        self.attributes(alloc, ImportedObject { kind, name, end }, attributes)?;
        self.draft.close_object()
    }

    /// Whether that item is the one that declares an object.
    fn is_declared(&self, kind: Kind, name: &str, number: usize) -> bool {
        match self.objects.find(kind, name) {
            Some(object) => object.number == number,
            None => false,
        }
    }

    fn refuse_name(
        &mut self,
        kind: Kind,
        name: &'a str,
        item: &Item<'a>,
    ) -> Result<(), AllocError> {
        let reason = match self.objects.refusal(kind, name) {
            Some(reason) => reason,
            None => reasons::NOT_READ,
        };
        self.messages
            .refuse(item.written_place, subject_of(item), reason)
    }

    /// Refuses what activates a task, sets an event or runs code, in the braces of an object whose
    /// kind isn't known, and answers whether there is such a thing.
    fn refuse_actions(&mut self, items: &[Item<'a>]) -> Result<bool, AllocError> {
        let mut is_refused = false;
        for item in items {
            if let Written::Word(value) = item.written {
                if is_action(value) {
                    self.messages
                        .refuse(item.place, subject_of(item), reasons::OTHER_ACTION)?;
                    is_refused = true;
                }
            }
        }
        Ok(is_refused)
    }

    /// Something among the objects of a CPU that is none. Nothing is told of it beside what is refused
    /// of it.
    fn other_object(&mut self, item: &Item<'a>, attributes: &[Item<'a>]) -> Result<(), AllocError> {
        if item.fault.is_none() && self.refuse_actions(attributes)? {
            return Ok(());
        }
        let reason = match item.written {
            Written::Name(_) | Written::Nothing if item.fault.is_some() => {
                let _ = self.refuse_form(item)?;
                return Ok(());
            }
            _ if is_of_communication(item.word) => reasons::COMMUNICATION,
            Written::Name(_) | Written::Nothing => reasons::UNKNOWN_KIND,
            Written::Word(_) | Written::Text(_) => reasons::UNKNOWN_ATTRIBUTE,
        };
        self.messages
            .leave_out(item.place, subject_of(item), reason)
    }

    /// The attributes of an object.
    fn attributes(
        &mut self,
        alloc: Global,
        object: ImportedObject<'a>,
        items: &[Item<'a>],
    ) -> Result<(), AllocError> {
        let scope = attributes_of(object.kind);
        let mut seen = EarlierAttributes::new(alloc);
        let depth = depth_of(items);
        for (number, item) in items.iter().enumerate() {
            if item.depth == depth {
                match attribute_of(scope, item.word) {
                    Some(attribute) => {
                        let block = inside(items, number, depth);
                        self.attribute(alloc, object, attribute, item, block, &mut seen)?;
                    }
                    None => self.other_attribute(object.kind, item)?,
                }
            }
        }
        self.list_linked(alloc, object, &seen)?;
        self.refuse_default_activations(object, &seen)?;
        if object.kind == Kind::Isr {
            self.set_bent_priority(object.end, items, &mut seen)?;
        }
        self.set_all_missing(scope, &seen, object.end)
    }

    /// An attribute that isn't known.
    fn other_attribute(&mut self, kind: Kind, item: &Item<'a>) -> Result<(), AllocError> {
        if kind == Kind::Isr && item.word == "RESOURCE" {
            return self.routines_resource(item);
        }
        if is_software_counter(kind, item) {
            let (subject, reason) = (subject_of(item), reasons::COUNTS_TICKS);
            return self
                .messages
                .tell(item.place, Verdict::Kept, subject, reason);
        }
        self.leave_out(item, reason_for(kind, item.word))
    }

    /// Leaves an item out, where it is of its form.
    pub(crate) fn leave_out(
        &mut self,
        item: &Item<'a>,
        reason: &'static str,
    ) -> Result<(), AllocError> {
        if self.refuse_form(item)? {
            return Ok(());
        }
        self.messages
            .leave_out(item.place, subject_of(item), reason)
    }

    /// Refuses several activations of a task that lists an event.
    fn refuse_activations(
        &mut self,
        object: ImportedObject<'a>,
        item: &Item<'a>,
        value: &str,
    ) -> Result<(), AllocError> {
        if is_one(value) || self.objects.is_basic(object.name) {
            return Ok(());
        }
        self.messages.refuse(
            item.written_place,
            subject_of(item),
            reasons::ONE_ACTIVATION,
        )
    }

    /// Refuses a resource that is linked to none that is there, to an internal one, or in a circle.
    fn refuse_link(&mut self, name: &str, item: &Item<'a>) -> Result<(), AllocError> {
        let is_there = match self.links.root(name) {
            Some(root) => self.objects.find(Kind::Resource, root).is_some(),
            None => false,
        };
        if is_there {
            return Ok(());
        }
        self.messages
            .refuse(item.written_place, subject_of(item), reasons::NO_LINK)
    }

    /// Has a task that lists a linked resource list all that are linked to the same one.
    fn list_linked(
        &mut self,
        alloc: Global,
        object: ImportedObject<'a>,
        seen: &EarlierAttributes<'a>,
    ) -> Result<(), AllocError> {
        if object.kind != Kind::Task {
            return Ok(());
        }
        let listed = seen.names(alloc, AttributeName::TaskResource)?;
        for name in self.links.besides(alloc, listed.as_slice())? {
            let subject = Subject::Setting("RESOURCE", name);
            self.messages
                .tell(object.end, Verdict::Set, subject, reasons::ONE_CEILING)?;
            self.draft.setting("RESOURCE", name)?;
        }
        Ok(())
    }

    /// Refuses several activations that a default gives a task that lists an event.
    fn refuse_default_activations(
        &mut self,
        object: ImportedObject<'a>,
        seen: &EarlierAttributes<'a>,
    ) -> Result<(), AllocError> {
        let Some(value) = self.defaults.of(AttributeName::Activation) else {
            return Ok(());
        };
        let is_missing = object.kind == Kind::Task && !seen.has(AttributeName::Activation);
        if !is_missing || is_one(value) || self.objects.is_basic(object.name) {
            return Ok(());
        }
        let subject = Subject::Setting("ACTIVATION", value);
        self.messages
            .refuse(object.end, subject, reasons::ONE_ACTIVATION)
    }

    /// An attribute of an object, and its block.
    fn attribute(
        &mut self,
        alloc: Global,
        object: ImportedObject<'a>,
        attribute: AttributeName,
        item: &Item<'a>,
        block: &[Item<'a>],
        seen: &mut EarlierAttributes<'a>,
    ) -> Result<(), AllocError> {
        let Some(value) = self.taken(attribute, item, seen)? else {
            return Ok(());
        };
        if attribute == AttributeName::Activation {
            self.refuse_activations(object, item, value)?;
        }
        match self.priorities.renumbered(attribute, value) {
            Some(becomes) => self.draft.open_number(item.word, becomes)?,
            None => self.draft.open_setting(item.word, value)?,
        }
        if is_linked(attribute, item) {
            self.refuse_link(object.name, item)?;
            return self.draft.close_setting();
        }
        let scope = block_of(attribute, value);
        if scope.is_empty() {
            self.block(alloc, scope, item.end, block)?;
        } else {
            self.draft.open_block()?;
            self.block(alloc, scope, item.end, block)?;
            self.draft.close_block()?;
        }
        self.draft.close_setting()
    }

    /// The attributes of a block.
    pub(crate) fn block(
        &mut self,
        alloc: Global,
        scope: &[AttributeName],
        end: Place,
        items: &[Item<'a>],
    ) -> Result<(), AllocError> {
        let mut seen = EarlierAttributes::new(alloc);
        let depth = depth_of(items);
        for item in items {
            if item.depth == depth {
                match attribute_of(scope, item.word) {
                    Some(attribute) => self.sub_attribute(scope, attribute, item, &mut seen)?,
                    None => self.leave_out(item, reasons::UNKNOWN_ATTRIBUTE)?,
                }
            }
        }
        self.set_all_missing(scope, &seen, end)
    }

    /// An attribute of a block.
    fn sub_attribute(
        &mut self,
        scope: &[AttributeName],
        attribute: AttributeName,
        item: &Item<'a>,
        seen: &mut EarlierAttributes<'a>,
    ) -> Result<(), AllocError> {
        let Some(value) = self.taken(attribute, item, seen)? else {
            return Ok(());
        };
        let is_of_event = scope.contains(&AttributeName::ActionEvent);
        if attribute == AttributeName::ActionTask && is_of_event && self.objects.is_basic(value) {
            let place = item.written_place;
            self.messages
                .refuse(place, subject_of(item), reasons::BASIC_TASK)?;
        }
        self.draft.setting(item.word, value)
    }

    /// Sets the attributes that are missing at the end of an object or block.
    fn set_all_missing(
        &mut self,
        scope: &[AttributeName],
        seen: &EarlierAttributes<'a>,
        end: Place,
    ) -> Result<(), AllocError> {
        for attribute in scope {
            if !seen.has(*attribute) {
                self.set_missing(*attribute, end)?;
            }
        }
        Ok(())
    }
}

/// The depth of items that stand in one pair of braces.
pub(crate) fn depth_of(items: &[Item<'_>]) -> usize {
    match items.first() {
        Some(item) => item.depth,
        None => 0,
    }
}
