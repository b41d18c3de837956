//! Partitions. The names of what is upper.

ghost use Rattle.std.specs.Prelude.{◌≡◌, ◌<◌, ◌≤◌, IfOk, length, map};
ghost use Rattle.osek_base.specs.Names.{name_at};
ghost use Rattle.osek_base.specs.Upper.{is_upper_task, is_upper_alarm};
ghost use Rattle.osek_base.specs.Agree.{kept, is_upper_declared, upper_part};

use crate::upper_part::UpperPart;
use osek_base::{
    AlarmId, MAX_ALARMS, MAX_RESOURCES, MAX_TASKS, Name, Names, ResourceNumber, TaskId,
};
use std::alloc::{AllocError, Global};

impl UpperPart<'_> {
    pub(crate) fn names(&self, alloc: Global) -> Result<Names, AllocError>
        ensures { IfOk result (λ names. names ≡ (upper_part self.now.system self.now.p).names) }
    {
        let all = self.system().names();
        Ok(Names {
            tasks: self.task_names(alloc, all.tasks.as_slice())?,
            routines: copied(alloc, all.routines.as_slice())?,
            resources: self.resource_names(alloc, all.resources.as_slice())?,
            events: copied(alloc, all.events.as_slice())?,
            alarms: self.alarm_names(alloc, all.alarms.as_slice())?,
            modes: copied(alloc, all.modes.as_slice())?,
        })
    }

    #[tactic(auto, using(crate::proofs::KeptSteps::kept_in, crate::proofs::KeptSteps::kept_out))]
    fn task_names(&self, alloc: Global, names: &[Name]) -> Result<Vec<Name>, AllocError>
        requires { length names.now ≤ MAX_TASKS }
        ensures { IfOk result
            (λ r. r.items
            ≡ map (name_at names.now)
            (kept (is_upper_task self.now.system self.now.p) (length names.now))) }
    {
        let mut upper = Vec::new(alloc);
        for number in 0..names.len() {
            if self.has_task(TaskId::new(number as u8)) {
                upper.push(name(names, number)?)?;
            }
        }
        Ok(upper)
    }

    #[tactic(auto, using(crate::proofs::KeptSteps::kept_in, crate::proofs::KeptSteps::kept_out))]
    fn resource_names(&self, alloc: Global, names: &[Name]) -> Result<Vec<Name>, AllocError>
        requires { length names.now ≤ MAX_RESOURCES }
        ensures { IfOk result
            (λ r. r.items
            ≡ map (name_at names.now)
            (kept (is_upper_declared self.now.system self.now.p) (length names.now))) }
    {
        let mut upper = Vec::new(alloc);
        for number in 0..names.len() {
            if self.has_resource(ResourceNumber::new(number as u8)) {
                upper.push(name(names, number)?)?;
            }
        }
        Ok(upper)
    }

    #[tactic(auto, using(crate::proofs::KeptSteps::kept_in, crate::proofs::KeptSteps::kept_out))]
    fn alarm_names(&self, alloc: Global, names: &[Name]) -> Result<Vec<Name>, AllocError>
        requires { length names.now ≤ MAX_ALARMS }
        ensures { IfOk result
            (λ r. r.items
            ≡ map (name_at names.now)
            (kept (is_upper_alarm self.now.system self.now.p) (length names.now))) }
    {
        let mut upper = Vec::new(alloc);
        for number in 0..names.len() {
            if self.has_alarm(AlarmId::new(number as u8)) {
                upper.push(name(names, number)?)?;
            }
        }
        Ok(upper)
    }
}

fn name(names: &[Name], number: usize) -> Result<Name, AllocError>
    requires { number < length names.now }
    ensures { IfOk result (λ r. r ≡ name_at names.now number) }
{
    names[number].clone()
}

fn copied(alloc: Global, names: &[Name]) -> Result<Vec<Name>, AllocError>
    ensures { IfOk result (λ r. r.items ≡ names.now) }
{
    let mut copy = Vec::new(alloc);
    for name in names {
        copy.push(name.clone()?)?;
    }
    Ok(copy)
}
