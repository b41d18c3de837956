//! Partitions. Upper tasks, resources and alarms, and all routines, under their new numbers.

ghost use Rattle.std.specs.Prelude.{◌≡◌, ◌<◌, IfOk, length, map};
ghost use Rattle.osek_base.specs.System.{alarm as alarm_at};
ghost use Rattle.osek_base.specs.Agree.{rank, is_upper_declared, upper_task, upper_part, resource as resource_at};

use crate::upper_part::UpperPart;
use osek_base::{Alarm, AlarmId, AlarmStart, Property, ResourceNumber, Routine, Task, TaskId};
use std::alloc::{AllocError, Global};

impl UpperPart<'_> {
    #[tactic(auto, using(crate::proofs::KeptSteps::kept_in, crate::proofs::KeptSteps::kept_out))]
    pub(crate) fn tasks(&self, alloc: Global) -> Result<Vec<Task>, AllocError>
        ensures { IfOk result
            (λ tasks. tasks.items ≡ (upper_part self.now.system self.now.p).tasks) }
    {
        let mut tasks = Vec::new(alloc);
        for number in 0..self.system().task_count() {
            if self.has_task(TaskId::new(number as u8)) {
                tasks.push(self.task(alloc, number)?)?;
            }
        }
        Ok(tasks)
    }

    fn task(&self, alloc: Global, number: usize) -> Result<Task, AllocError>
        requires { number < length self.now.system.tasks }
        ensures { IfOk result (λ task. task ≡ upper_task self.now.system self.now.p number) }
    {
        let task = &self.system().parts().tasks[number];
        Ok(Task {
            priority: task.priority,
            schedule: task.schedule,
            activation: task.activation,
            autostart: Vec::from_slice(alloc, task.autostart.as_slice())?,
            resources: self.listed(alloc, task.resources.as_slice())?,
            events: Vec::from_slice(alloc, task.events.as_slice())?,
            program: self.program(alloc, task.program.lines())?,
        })
    }

    fn listed(
        &self,
        alloc: Global,
        resources: &[ResourceNumber],
    ) -> Result<Vec<ResourceNumber>, AllocError>
        ensures { IfOk result
            (λ r. r.items
            ≡ map (rank (is_upper_declared self.now.system self.now.p)) resources.now) }
    {
        let mut listed = Vec::new(alloc);
        for resource in resources {
            listed.push(self.resource(*resource))?;
        }
        Ok(listed)
    }

    pub(crate) fn routines(&self, alloc: Global) -> Result<Vec<Routine>, AllocError>
        ensures { IfOk result
            (λ routines. routines.items ≡ (upper_part self.now.system self.now.p).routines) }
    {
        let mut routines = Vec::new(alloc);
        for routine in self.system().parts().routines.as_slice() {
            routines.push(Routine {
                priority: routine.priority,
                program: self.program(alloc, routine.program.lines())?,
            })?;
        }
        Ok(routines)
    }

    #[tactic(auto, using(crate::proofs::KeptSteps::kept_in, crate::proofs::KeptSteps::kept_out))]
    pub(crate) fn resources(&self, alloc: Global) -> Result<Vec<Property>, AllocError>
        ensures { IfOk result
            (λ resources. resources.items ≡ (upper_part self.now.system self.now.p).resources) }
    {
        let mut resources = Vec::new(alloc);
        for number in 0..self.system().resource_count() {
            if self.has_resource(ResourceNumber::new(number as u8)) {
                resources.push(self.property(number))?;
            }
        }
        Ok(resources)
    }

    fn property(&self, number: usize) -> Property
        requires { number < length self.now.system.resources }
        ensures { result ≡ resource_at self.now.system number }
    {
        self.system().parts().resources[number]
    }

    #[tactic(auto, using(crate::proofs::KeptSteps::kept_in, crate::proofs::KeptSteps::kept_out))]
    pub(crate) fn alarms(&self, alloc: Global) -> Result<Vec<Alarm>, AllocError>
        ensures { IfOk result
            (λ alarms. alarms.items ≡ (upper_part self.now.system self.now.p).alarms) }
    {
        let mut alarms = Vec::new(alloc);
        for number in 0..self.system().alarm_count() {
            if self.has_alarm(AlarmId::new(number as u8)) {
                alarms.push(self.copied_alarm(alloc, number)?)?;
            }
        }
        Ok(alarms)
    }

    fn copied_alarm(&self, alloc: Global, number: usize) -> Result<Alarm, AllocError>
        requires { number < length self.now.system.alarms }
        ensures { IfOk result (λ alarm. alarm ≡ alarm_at self.now.system number) }
    {
        let alarm = &self.system().parts().alarms[number];
        Ok(Alarm {
            counter: alarm.counter,
            action: alarm.action,
            autostart: copied_start(alloc, &alarm.autostart)?,
        })
    }
}

fn copied_start(alloc: Global, start: &Option<AlarmStart>) -> Result<Option<AlarmStart>, AllocError>
    ensures { IfOk result (λ r. r ≡ start.now) }
{
    match start {
        None => Ok(None),
        Some(start) => Ok(Some(AlarmStart {
            time: start.time,
            cycle: start.cycle,
            modes: Vec::from_slice(alloc, start.modes.as_slice())?,
        })),
    }
}
