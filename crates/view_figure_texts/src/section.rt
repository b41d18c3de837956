//! The sections of the figures of a run, each with a line an object.

ghost use Rattle.std.specs.Prelude.{◌≡◌, IfOk};
ghost use Rattle.view_figure_texts.specs.Sections.{
  entries_of,
  kind_of,
  object_count,
  object_name,
  section_word,
};

use crate::entry::Entry;
use crate::rows::{
    alarm_entries, job_entries, resource_entries, response_entries, routine_entries, run_entries,
    time_entries,
};
use osek_base::System;
use std::alloc::{AllocError, Global};
use view_figures::Figures;
use view_measures::Kind;

/// A part of the figures: what is told at once of all objects of a kind.
#[derive(Clone, Copy)]
pub enum Section {
    /// The whole run, which is one object.
    Run,
    /// The jobs of tasks.
    Jobs,
    /// The responses of tasks.
    Responses,
    /// The ticks of tasks.
    Times,
    Routines,
    Resources,
    Alarms,
}

/// All of them, in the order in which they stand.
pub const SECTIONS: [Section; 7] = [
    Section::Run,
    Section::Jobs,
    Section::Responses,
    Section::Times,
    Section::Routines,
    Section::Resources,
    Section::Alarms,
];

impl Section {
    /// The kind of its objects; none of the whole run.
    fn kind(self) -> Option<Kind>
        ensures { result ≡ kind_of self }
    {
        match self {
            Section::Run => None,
            Section::Jobs | Section::Responses | Section::Times => Some(Kind::Task),
            Section::Routines => Some(Kind::Routine),
            Section::Resources => Some(Kind::Resource),
            Section::Alarms => Some(Kind::Alarm),
        }
    }

    /// Its word, that of its kind.
    pub fn word(self) -> &'static str
        ensures { result.now ≡ section_word self }
    {
        match self.kind() {
            Some(kind) => kind.word(),
            None => "run",
        }
    }

    /// The name of the object of a number; the whole run has none.
    pub fn name(self, system: &System, number: usize) -> &str
        ensures { result.now ≡ object_name system.now self number }
    {
        match self.kind() {
            Some(kind) => kind.name(system, number),
            None => "",
        }
    }

    /// How many objects it has.
    pub fn count(self, figures: &Figures) -> usize
        ensures { result ≡ object_count figures.now self }
    {
        match self {
            Section::Run => 1,
            Section::Jobs | Section::Responses | Section::Times => figures.tasks().len(),
            Section::Routines => figures.routines().len(),
            Section::Resources => figures.resources().len(),
            Section::Alarms => figures.alarms().len(),
        }
    }

    /// The figures of the object of a number, none where there is no such object.
    pub fn entries(
        self,
        alloc: Global,
        figures: &Figures,
        number: usize,
    ) -> Result<Vec<Entry>, AllocError>
        ensures { IfOk result (λ entries. entries.items ≡ entries_of figures.now self number) }
    {
        match self {
            Section::Run => Vec::from_slice(alloc, &run_entries(figures)),
            Section::Jobs => match figures.tasks().get(number) {
                Some(task) => Vec::from_slice(alloc, &job_entries(task)),
                None => Ok(Vec::new(alloc)),
            },
            Section::Responses => match figures.tasks().get(number) {
                Some(task) => Vec::from_slice(alloc, &response_entries(task, figures.last())),
                None => Ok(Vec::new(alloc)),
            },
            Section::Times => match figures.tasks().get(number) {
                Some(task) => Vec::from_slice(alloc, &time_entries(task, figures.ticks())),
                None => Ok(Vec::new(alloc)),
            },
            Section::Routines => match figures.routines().get(number) {
                Some(routine) => Vec::from_slice(alloc, &routine_entries(routine)),
                None => Ok(Vec::new(alloc)),
            },
            Section::Resources => match figures.resources().get(number) {
                Some(resource) => Vec::from_slice(alloc, &resource_entries(resource)),
                None => Ok(Vec::new(alloc)),
            },
            Section::Alarms => match figures.alarms().get(number) {
                Some(alarm) => Vec::from_slice(alloc, &alarm_entries(alarm)),
                None => Ok(Vec::new(alloc)),
            },
        }
    }
}
