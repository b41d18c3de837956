//! OSEK/VDX OS: task management, ActivateTask; alarms. Who activates a task.

ghost use Rattle.std.specs.Prelude.{◌≡◌, ◌||◌, ◌==◌, ◌<◌, IsTrue, length, min, nat_lt, not, true};
ghost use Rattle.std.specs.List.{list_all};
ghost use Rattle.osek_base.specs.Lists.{below};
ghost use Rattle.osek_base.specs.declared.instr.Instr.{Instr};
ghost use Rattle.osek_base.specs.System.{Routine, Task, alarm, routine};
ghost use Rattle.seen_ticks.specs.Observed.{activates, is_activation, is_number};
ghost use Rattle.law_analysis.specs.Refusing.{
  activates_alone,
  alarm_activates,
  is_activated_by_none,
  leaves_task,
  no_alarm_activates,
};
ghost use Rattle.law_analysis.specs.RefusingByRoutine.{
  activates_once,
  is_activated_at,
  is_once,
  leads_on,
};

use osek_base::{Action, Instr, Line, Place, Plain, Register, Service, System, TaskId};

/// Whether it is the task of that number.
fn is_task(task: usize, other: TaskId) -> bool
    ensures { result ≡ (other == task) }
{
    other.number() as usize == task
}

/// Whether a service activates a task.
fn service_activates(task: usize, service: &Service<Register>) -> bool
    ensures { result ≡ is_number task (activates (Instr.Service service.now)) }
{
    match service {
        Service::ActivateTask(operand) => match operand {
            None => false,
            Some(other) => is_task(task, *other),
        },
        Service::ChainTask(operand) => match operand {
            None => false,
            Some(other) => is_task(task, *other),
        },
        _ => false,
    }
}

/// Whether an instruction activates a task.
fn activates(task: usize, instr: &Instr) -> bool
    ensures { result ≡ is_number task (activates instr.now) }
{
    match instr {
        Instr::Service(service) => service_activates(task, service),
        _ => false,
    }
}

/// Whether no instruction of a program activates a task.
fn leaves_task(task: usize, lines: &[Line]) -> bool
    ensures { result ≡ leaves_task task lines.now }
{
    lines.iter().all(|line| !activates(task, line.instr()))
}

/// Whether no task's program activates a task.
fn tasks_leave(system: &System, task: usize) -> bool
    ensures { result ≡ list_all (λ (t : Task). leaves_task task t.program) system.now.tasks }
{
    let tasks = &system.parts().tasks;
    tasks
        .iter()
        .all(|other| leaves_task(task, other.program.lines()))
}

/// Whether no routine's program activates a task.
fn routines_leave(system: &System, task: usize) -> bool
    ensures { result
        ≡ list_all (λ (r : Routine). leaves_task task r.program) system.now.routines }
{
    let routines = &system.parts().routines;
    routines
        .iter()
        .all(|routine| leaves_task(task, routine.program.lines()))
}

/// Whether no program activates a task.
pub(crate) fn is_activated_by_none(system: &System, task: usize) -> bool
    ensures { result ≡ is_activated_by_none system.now task }
{
    let by_tasks = tasks_leave(system, task);
    let by_routines = routines_leave(system, task);
    by_tasks && by_routines
}

/// Whether an action activates a task.
fn is_activation(task: usize, action: &Action) -> bool
    ensures { result ≡ is_activation task action.now }
{
    match action {
        Action::ActivateTask(other) => is_task(task, *other),
        Action::SetEvent(_, _) => false,
    }
}

/// Whether an alarm activates a task.
pub(crate) fn alarm_activates(system: &System, task: usize, alarm: usize) -> bool
    requires { alarm < length system.now.alarms }
    ensures { result ≡ alarm_activates system.now task alarm }
{
    let own = &system.parts().alarms[alarm];
    is_activation(task, &own.action)
}

/// Whether no alarm activates a task; at true none does.
pub(crate) fn no_alarm_activates(system: &System, task: usize) -> bool
    ensures { IsTrue result → no_alarm_activates system.now task ≡ true }
{
    for alarm in 0..system.alarm_count() {
        if alarm_activates(system, task, alarm) {
            return false;
        }
    }
    true
}

/// Whether an alarm is that of a number, or doesn't activate a task.
fn alarm_may_stay(system: &System, alarm: usize, task: usize, other: usize) -> bool
    requires { other < length system.now.alarms }
    ensures { result ≡ (other == alarm || not (alarm_activates system.now task other)) }
{
    let activates = alarm_activates(system, task, other);
    other == alarm || !activates
}

/// Whether no alarm but one activates a task; at true none does.
fn others_leave(system: &System, alarm: usize, task: usize) -> bool
    ensures { IsTrue result
        → list_all (λ b. b == alarm || not (alarm_activates system.now task b))
        (below (length system.now.alarms)) ≡ true }
{
    for other in 0..system.alarm_count() {
        if !alarm_may_stay(system, alarm, task, other) {
            return false;
        }
    }
    true
}

/// Whether an alarm activates a task, and no other one; at true it is so.
pub(crate) fn activates_alone(system: &System, alarm: usize, task: usize) -> bool
    requires { alarm < length system.now.alarms }
    ensures { IsTrue result → activates_alone system.now alarm task ≡ true }
{
    alarm_activates(system, task, alarm) && others_leave(system, alarm, task)
}

/// Whether a jump from one place to another leads on: behind the first, and behind `place` where it
/// is from there or behind it.
fn jump_leads_on(place: usize, from: usize, to: Place) -> bool
    ensures { result ≡ nat_lt (min from place) to }
{
    from.min(place) < to.number() as usize
}

/// Whether a plain instruction at a place leads on.
fn plain_leads_on(place: usize, from: usize, plain: &Plain) -> bool
    ensures { result ≡ leads_on place from (Instr.Plain plain.now) }
{
    match plain {
        Plain::Jmp(to) => jump_leads_on(place, from, *to),
        Plain::JumpIf(_, _, _, to) => jump_leads_on(place, from, *to),
        _ => true,
    }
}

/// Whether the instruction at a place leads on.
fn leads_on(place: usize, from: usize, instr: &Instr) -> bool
    ensures { result ≡ leads_on place from instr.now }
{
    match instr {
        Instr::Plain(plain) => plain_leads_on(place, from, plain),
        _ => true,
    }
}

/// Whether the instruction at a place leads on, and may activate a task at `place` alone.
fn is_once(task: usize, place: usize, from: usize, instr: &Instr) -> bool
    ensures { result ≡ is_once task place from instr.now }
{
    let may_activate = from == place || !activates(task, instr);
    let leads_on = leads_on(place, from, instr);
    may_activate && leads_on
}

/// Whether a program may activate a task at a place alone, to which it comes once at most; at true
/// it is so.
fn activates_once(task: usize, place: usize, lines: &[Line]) -> bool
    ensures { IsTrue result → activates_once task place lines.now ≡ true }
{
    for from in 0..lines.len() {
        let line = &lines[from];
        if !is_once(task, place, from, line.instr()) {
            return false;
        }
    }
    true
}

/// The program of a routine.
fn lines_of(system: &System, number: usize) -> &[Line]
    requires { number < length system.now.routines }
    ensures { result.now ≡ (routine system.now number).program }
{
    let own = &system.parts().routines[number];
    own.program.lines()
}

/// Whether a routine is that of a number, or has no instruction that activates a task.
fn routine_may_stay(system: &System, number: usize, task: usize, other: usize) -> bool
    requires { other < length system.now.routines }
    ensures { result
        ≡ (other == number || leaves_task task (routine system.now other).program) }
{
    let leaves = leaves_task(task, lines_of(system, other));
    other == number || leaves
}

/// Whether no routine but one has an instruction that activates a task; at true none has.
fn other_routines_leave(system: &System, number: usize, task: usize) -> bool
    ensures { IsTrue result
        → list_all (λ r. r == number || leaves_task task (routine system.now r).program)
        (below (length system.now.routines)) ≡ true }
{
    for other in 0..system.routine_count() {
        if !routine_may_stay(system, number, task, other) {
            return false;
        }
    }
    true
}

/// The first place at which a routine activates a task.
pub(crate) fn place_in(system: &System, routine: usize, task: usize) -> Option<usize>
    requires { routine < length system.now.routines }
{
    let lines = lines_of(system, routine);
    for place in 0..lines.len() {
        let line = &lines[place];
        if activates(task, line.instr()) {
            return Some(place);
        }
    }
    None
}

/// Whether of all programs that of a routine alone may activate a task, at a place alone to which
/// it comes once at most; at true it is so.
pub(crate) fn is_activated_at(system: &System, routine: usize, place: usize, task: usize) -> bool
    requires { routine < length system.now.routines }
    ensures { IsTrue result → is_activated_at system.now routine place task ≡ true }
{
    if !tasks_leave(system, task) || !other_routines_leave(system, routine, task) {
        return false;
    }
    activates_once(task, place, lines_of(system, routine))
}
