//! OIL: standard objects and their attributes. A configured system, which keeps all that generation checks.

ghost use Rattle.std.specs.Prelude.{◌≡◌, ◌<◌, length};
ghost use Rattle.osek_base.specs.Separable.{IsOwner};
ghost use Rattle.osek_base.specs.System.{
  mode_count,
  priority_of,
  activation_of,
  is_extended,
  lists_resource,
  starts_in,
  program,
  instruction_at,
  task as task_at,
  routine,
  alarm,
  counter_of,
  alarm_start_in,
};
ghost use Rattle.osek_base.specs.Ceiling.{top_priority, declared_ceiling, ceiling, internal_ceiling, is_internal};
ghost use Rattle.osek_base.specs.Proper.{IsProper};

use crate::ceilings::Ceilings;
use crate::ids::{AlarmId, IsrId, ModeId, Owner, Place, ResId, ResourceNumber, TaskId};
use crate::instr::Instr;
use crate::names::Names;
use crate::parts::Parts;
use crate::task::{Action, Counter, Hooks, Schedule};
use std::marker::Model;

/// A system within the limits and as generation checks it. Contracts see its parts.
#[derive(Drop)]
pub struct System {
    parts: Parts,
    ceilings: Ceilings,
}

impl Model for System {
    ghost use Rattle.osek_base.specs.System.{System as Configured};
    ghost use Rattle.osek_base.specs.Proper.{IsProper};
    ghost use Rattle.osek_base.specs.KeptCeilings.{AreCeilings};

    ghost Value = { Configured };

    ghost view = { λ s. s.parts };

    ghost invariant = { λ s. IsProper s.parts × AreCeilings s.parts s.ceilings };
}

impl System {
    /// The system of these parts, which have been shown to be proper. Its ceilings are computed here.
    pub fn new(parts: Parts) -> Self
        requires { IsProper parts }
        ensures { result ≡ parts }
    {
        let ceilings = Ceilings::of(&parts);
        System { parts, ceilings }
    }

    /// Shows that the system is proper, as each is. It does nothing: a look at a field shows what
    /// always holds of it.
    #[inline(always)]
    pub fn shows_proper(&self)
        ensures { IsProper self.now }
    {
        let _parts = &self.parts;
    }

    /// The names of the system's objects.
    pub fn names(&self) -> &Names
        ensures value { result.now ≡ self.now.names }
        ensures proper { IsProper self.now }
    {
        &self.parts.names
    }

    /// The parts of the system.
    pub fn parts(&self) -> &Parts
        ensures value { result.now ≡ self.now }
        ensures proper { IsProper self.now }
    {
        &self.parts
    }

    /// How many tasks there are.
    pub fn task_count(&self) -> usize
        ensures value { result ≡ length self.now.tasks }
        ensures proper { IsProper self.now }
    {
        self.parts.tasks.len()
    }

    /// How many routines there are.
    pub fn routine_count(&self) -> usize
        ensures value { result ≡ length self.now.routines }
        ensures proper { IsProper self.now }
    {
        self.parts.routines.len()
    }

    /// How many declared resources there are.
    pub fn resource_count(&self) -> usize
        ensures value { result ≡ length self.now.resources }
        ensures proper { IsProper self.now }
    {
        self.parts.resources.len()
    }

    /// How many alarms there are.
    pub fn alarm_count(&self) -> usize
        ensures value { result ≡ length self.now.alarms }
        ensures proper { IsProper self.now }
    {
        self.parts.alarms.len()
    }

    /// How many application modes there are.
    pub fn mode_count(&self) -> usize
        ensures value { result ≡ mode_count self.now }
        ensures proper { IsProper self.now }
    {
        self.parts.names.modes.len()
    }

    /// Which hooks are recorded.
    pub fn hooks(&self) -> Hooks
        ensures { result ≡ self.now.hooks }
    {
        self.parts.hooks
    }

    /// Whether RES_SCHEDULER exists.
    pub fn has_res_scheduler(&self) -> bool
        ensures { result ≡ self.now.use_res_scheduler }
    {
        self.parts.use_res_scheduler
    }

    /// The static priority of a task, 0 to [`MAX_TASK_PRIORITY`](crate::MAX_TASK_PRIORITY).
    pub fn priority_of(&self, task: TaskId) -> u8
        requires { task < length self.now.tasks }
        ensures { result ≡ priority_of self.now task }
    {
        let task = &self.parts.tasks[task.number() as usize];
        task.priority
    }

    /// The greatest number of jobs that a task may have at once.
    pub fn activation_of(&self, task: TaskId) -> u8
        requires { task < length self.now.tasks }
        ensures { result ≡ activation_of self.now task }
    {
        let task = &self.parts.tasks[task.number() as usize];
        task.activation
    }

    /// Whether a task is extended: it lists an event.
    pub fn is_extended(&self, task: TaskId) -> bool
        ensures { result ≡ is_extended self.now task }
    {
        self.parts.is_extended(task)
    }

    /// Whether a task starts by itself in a mode.
    pub fn starts_in(&self, mode: ModeId, task: TaskId) -> bool
        requires { task < length self.now.tasks }
        ensures { result ≡ starts_in self.now mode task }
    {
        let task = &self.parts.tasks[task.number() as usize];
        task.starts_in(mode)
    }

    /// Whether a task lists a resource.
    pub fn lists(&self, task: TaskId, resource: ResourceNumber) -> bool
        requires { task < length self.now.tasks }
        ensures { result ≡ lists_resource self.now task resource }
    {
        let task = &self.parts.tasks[task.number() as usize];
        task.lists(resource)
    }

    /// The SCHEDULE of a task.
    pub fn schedule_of(&self, task: TaskId) -> Schedule
        requires { task < length self.now.tasks }
        ensures { result ≡ (task_at self.now task).schedule }
    {
        let task = &self.parts.tasks[task.number() as usize];
        task.schedule
    }

    /// The resources that a task lists, in the order listed.
    pub fn resources_of(&self, task: TaskId) -> &[ResourceNumber]
        requires { task < length self.now.tasks }
        ensures { result.now ≡ (task_at self.now task).resources }
    {
        let task = &self.parts.tasks[task.number() as usize];
        task.resources.as_slice()
    }

    /// Whether a declared resource is internal.
    pub fn is_internal(&self, resource: ResourceNumber) -> bool
        ensures { result ≡ is_internal self.now resource }
    {
        self.parts.is_internal(resource)
    }

    /// The greatest task priority, 0 without tasks.
    pub fn top_priority(&self) -> u8
        ensures { result ≡ top_priority self.now }
    {
        self.ceilings.top
    }

    /// The ceiling of a resource: the greatest priority of the tasks that list it, 0 where none does; of RES_SCHEDULER the
    /// greatest task priority.
    pub fn ceiling(&self, resource: ResId) -> u8
        ensures { result ≡ ceiling self.now resource }
    {
        match resource {
            ResId::Declared(number) => self.ceilings.declared[number.number() as usize],
            ResId::Scheduler => self.ceilings.top,
        }
    }

    /// The internal ceiling of a task, if it has one: of a NON task the greatest task priority, else that of the internal
    /// resource that it lists.
    pub fn internal_ceiling(&self, task: TaskId) -> Option<u8>
        ensures { result ≡ internal_ceiling self.now task }
    {
        self.ceilings.internal[task.number() as usize]
    }

    /// The PRIORITY of a routine, 0 to [`MAX_ROUTINE_PRIORITY`](crate::MAX_ROUTINE_PRIORITY).
    pub fn routine_priority(&self, id: IsrId) -> u8
        requires { id < length self.now.routines }
        ensures { result ≡ (routine self.now id).priority }
    {
        let routine = &self.parts.routines[id.number() as usize];
        routine.priority
    }

    /// How many instructions a task's or routine's program has, 1 to 1,024.
    pub fn program_len(&self, owner: Owner) -> usize
        requires { IsOwner self.now owner }
        ensures { result ≡ length (program self.now owner) }
    {
        match owner {
            Owner::Task(task) => {
                let task = &self.parts.tasks[task.number() as usize];
                task.program.len()
            }
            Owner::Routine(routine) => {
                let routine = &self.parts.routines[routine.number() as usize];
                routine.program.len()
            }
        }
    }

    /// The instruction at a place of a task's or routine's program.
    pub fn instruction_at(&self, owner: Owner, place: Place) -> Instr
        requires owner { IsOwner self.now owner }
        requires place { place < length (program self.now owner) }
        ensures { result ≡ instruction_at self.now owner place }
    {
        match owner {
            Owner::Task(task) => {
                let task = &self.parts.tasks[task.number() as usize];
                task.program.at(place.number() as usize)
            }
            Owner::Routine(routine) => {
                let routine = &self.parts.routines[routine.number() as usize];
                routine.program.at(place.number() as usize)
            }
        }
    }

    /// What an alarm does.
    pub fn action_of(&self, id: AlarmId) -> Action
        requires { id < length self.now.alarms }
        ensures { result ≡ (alarm self.now id).action }
    {
        let alarm = &self.parts.alarms[id.number() as usize];
        alarm.action
    }

    /// The counter of an alarm.
    pub fn counter_of(&self, id: AlarmId) -> Counter
        requires { id < length self.now.alarms }
        ensures { result ≡ counter_of self.now id }
    {
        let alarm = &self.parts.alarms[id.number() as usize];
        self.parts.counter(alarm.counter)
    }

    /// The ALARMTIME and CYCLETIME, in counts, of an alarm that starts by itself in a mode.
    pub fn alarm_start(&self, mode: ModeId, id: AlarmId) -> Option<(u32, u32)>
        requires { id < length self.now.alarms }
        ensures { result ≡ alarm_start_in self.now mode id }
    {
        let alarm = &self.parts.alarms[id.number() as usize];
        match &alarm.autostart {
            None => None,
            Some(start) => start.in_mode(mode),
        }
    }
}
