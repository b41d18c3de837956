//! OSEK/VDX OS: event control. Which events may be set for a task: those that programs and alarms
//! set.

ghost use Rattle.std.specs.Prelude.{◌≡◌};
ghost use Rattle.osek_base.specs.Tick.{action_call};
ghost use Rattle.law_costs.specs.Settable.{by_alarms, by_routines, by_tasks, set_for, settable, settable_in, sets_for};

use osek_base::{Action, Alarm, Instr, Line, Register, Routine, Service, System, Task, TaskId};

/// The events of a task, if it is the one that is meant.
fn where_own(task: TaskId, other: TaskId, mask: u32) -> u32
    ensures { result ≡ set_for task (Service.SetEvent (Some other) mask) }
{
    if other.number() == task.number() {
        mask
    } else {
        0
    }
}

/// What a service sets for a task.
fn set_for(task: TaskId, service: &Service<Register>) -> u32
    ensures { result ≡ set_for task service.now }
{
    match service {
        Service::SetEvent(whose, mask) => match whose {
            None => 0,
            Some(other) => where_own(task, *other, *mask),
        },
        _ => 0,
    }
}

/// What an instruction sets for a task.
fn sets_for(task: TaskId, instr: &Instr) -> u32
    ensures { result ≡ sets_for task instr.now }
{
    match instr {
        Instr::Service(service) => set_for(task, service),
        _ => 0,
    }
}

/// What an alarm's action sets for a task.
fn acts_for(task: TaskId, action: &Action) -> u32
    ensures { result ≡ set_for task (action_call action.now) }
{
    match action {
        Action::ActivateTask(_) => 0,
        Action::SetEvent(other, mask) => where_own(task, *other, *mask),
    }
}

/// All that a program sets for a task.
fn settable_in(task: TaskId, lines: &[Line]) -> u32
    ensures { result ≡ settable_in task lines.now }
{
    let mut all = 0;
    for line in lines {
        all |= sets_for(task, line.instr());
    }
    all
}

/// .. of the programs of tasks.
fn by_tasks(task: TaskId, tasks: &[Task]) -> u32
    ensures { result ≡ by_tasks task tasks.now }
{
    let mut all = 0;
    for other in tasks {
        all |= settable_in(task, other.program.lines());
    }
    all
}

/// .. of routines.
fn by_routines(task: TaskId, routines: &[Routine]) -> u32
    ensures { result ≡ by_routines task routines.now }
{
    let mut all = 0;
    for routine in routines {
        all |= settable_in(task, routine.program.lines());
    }
    all
}

/// All that alarms set for a task.
fn by_alarms(task: TaskId, alarms: &[Alarm]) -> u32
    ensures { result ≡ by_alarms task alarms.now }
{
    let mut all = 0;
    for alarm in alarms {
        all |= acts_for(task, &alarm.action);
    }
    all
}

/// The events that may be set for a task.
#[tactic(auto, unfolding(law_costs::specs::Settable::settable))]
pub(crate) fn settable(system: &System, task: TaskId) -> u32
    ensures { result ≡ settable system.now task }
{
    let parts = system.parts();
    let tasks = by_tasks(task, &parts.tasks);
    let routines = by_routines(task, &parts.routines);
    let alarms = by_alarms(task, &parts.alarms);
    (tasks | routines) | alarms
}
