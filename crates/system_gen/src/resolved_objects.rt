//! OIL: standard objects. Objects whose references are numbers.

ghost use Rattle.std.specs.Prelude.{◌≡◌, IfOk, map};
ghost use Rattle.system_gen.specs.DeclaredNames.{number};
ghost use Rattle.std.specs.Option.{option_map};
ghost use Rattle.system_gen.specs.Generated.{
  program_for,
  mask_of,
  resolved_task,
  resolved_routine,
  resolved_action,
  resolved_start,
  resolved_alarm,
};

use crate::program_checks::program_of;
use crate::resolver::Resolver;
use oil_reader::{ActionObject, AlarmObject, AlarmStartObject, IsrObject, TaskObject};
use osek_base::{Action, Alarm, AlarmStart, ModeId, Name, Program, ResourceNumber, Routine, Task};
use std::alloc::{AllocError, Global};
use task_asm::{NamedProgram, ProgramKind};

impl<'d, 'a, 'm> Resolver<'d, 'a, 'm> {
    pub(crate) fn task(
        &self,
        alloc: Global,
        object: &TaskObject,
        programs: &[NamedProgram],
    ) -> Result<Task, AllocError>
        ensures { IfOk result (λ t. t ≡ resolved_task self.now programs.now object.now) }
    {
        Ok(Task {
            priority: object.priority,
            schedule: object.schedule,
            activation: object.activation,
            autostart: self.modes(alloc, object.autostart.as_slice())?,
            resources: self.resources(alloc, object.resources.as_slice())?,
            events: self.masks(alloc, object.events.as_slice())?,
            program: self.program_for(alloc, ProgramKind::Task, &object.name, programs)?,
        })
    }

    pub(crate) fn routine(
        &self,
        alloc: Global,
        object: &IsrObject,
        programs: &[NamedProgram],
    ) -> Result<Routine, AllocError>
        ensures { IfOk result (λ r. r ≡ resolved_routine self.now programs.now object.now) }
    {
        Ok(Routine {
            priority: object.priority,
            program: self.program_for(alloc, ProgramKind::Routine, &object.name, programs)?,
        })
    }

    /// The program of the task or routine of that name, empty where there is none.
    fn program_for(
        &self,
        alloc: Global,
        kind: ProgramKind,
        name: &Name,
        programs: &[NamedProgram],
    ) -> Result<Program, AllocError>
        ensures { IfOk result (λ p. p ≡ program_for self.now kind name.now programs.now) }
    {
        match program_of(kind, name, programs) {
            Some(named) => self.program(alloc, named.lines.as_slice()),
            None => Ok(Program::new(alloc)),
        }
    }

    pub(crate) fn alarm(&self, alloc: Global, object: &AlarmObject) -> Result<Alarm, AllocError>
        ensures { IfOk result (λ a. a ≡ resolved_alarm self.now object.now) }
    {
        Ok(Alarm {
            counter: self.declared().counter(&object.counter),
            action: self.action(&object.action),
            autostart: self.start(alloc, &object.autostart)?,
        })
    }

    fn action(&self, object: &ActionObject) -> Action
        ensures { result ≡ resolved_action self.now object.now }
    {
        match object {
            ActionObject::ActivateTask { task } => Action::ActivateTask(self.declared().task(task)),
            ActionObject::SetEvent { task, event } => Action::SetEvent(
                self.declared().task(task),
                self.mask(event),
            ),
        }
    }

    fn start(
        &self,
        alloc: Global,
        object: &Option<AlarmStartObject>,
    ) -> Result<Option<AlarmStart>, AllocError>
        ensures { IfOk result (λ s. s ≡ option_map (resolved_start self.now) object.now) }
    {
        match object {
            None => Ok(None),
            Some(start) => Ok(Some(AlarmStart {
                time: start.alarm_time,
                cycle: start.cycle_time,
                modes: self.modes(alloc, start.app_modes.as_slice())?,
            })),
        }
    }

    fn modes(&self, alloc: Global, names: &[Name]) -> Result<Vec<ModeId>, AllocError>
        ensures { IfOk result
            (λ modes. modes.items ≡ map (number self.now.declared.modes) names.now) }
    {
        let mut modes = Vec::new(alloc);
        for name in names {
            modes.push(self.declared().mode(name))?;
        }
        Ok(modes)
    }

    fn resources(&self, alloc: Global, names: &[Name]) -> Result<Vec<ResourceNumber>, AllocError>
        ensures { IfOk result
            (λ numbers. numbers.items ≡ map (number self.now.declared.resources) names.now) }
    {
        let mut resources = Vec::new(alloc);
        for name in names {
            resources.push(self.declared().resource(name))?;
        }
        Ok(resources)
    }

    fn masks(&self, alloc: Global, names: &[Name]) -> Result<Vec<u32>, AllocError>
        ensures { IfOk result (λ masks. masks.items ≡ map (mask_of self.now) names.now) }
    {
        let mut masks = Vec::new(alloc);
        for name in names {
            masks.push(self.mask(name))?;
        }
        Ok(masks)
    }
}
