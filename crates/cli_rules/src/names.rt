//! The names that rules may speak of.

use oil_reader::OilFile;
use std::alloc::{AllocError, Global};

/// The names of the tasks and of the routines of an OIL file.
#[derive(Drop)]
pub(crate) struct Names<'o> {
    pub tasks: Vec<&'o str>,
    pub routines: Vec<&'o str>,
}

/// Whether a name is among some.
fn has(names: &[&str], name: &str) -> bool {
    for known in names {
        if *known == name {
            return true;
        }
    }
    false
}

impl<'o> Names<'o> {
    pub(crate) fn of(alloc: Global, file: &'o OilFile) -> Result<Self, AllocError> {
        let mut tasks = Vec::new(alloc);
        for task in file.tasks() {
            tasks.push(task.name.as_str())?;
        }
        let mut routines = Vec::new(alloc);
        for routine in file.routines() {
            routines.push(routine.name.as_str())?;
        }
        Ok(Names { tasks, routines })
    }

    pub(crate) fn has_task(&self, name: &str) -> bool {
        has(self.tasks.as_slice(), name)
    }

    pub(crate) fn has_routine(&self, name: &str) -> bool {
        has(self.routines.as_slice(), name)
    }

    /// All of them, tasks first.
    pub(crate) fn all(&self, alloc: Global) -> Result<Vec<&'o str>, AllocError> {
        let mut all = Vec::new(alloc);
        for name in &self.tasks {
            all.push(*name)?;
        }
        for name in &self.routines {
            all.push(*name)?;
        }
        Ok(all)
    }
}
