//! Value change dumps: variables and their identifier codes.

ghost use Rattle.std.specs.Prelude.{◌≡◌, ◌+◌, ◌-◌, ◌<◌, ◌≤◌, ◌*◌, ◌++◌, length};
ghost use Rattle.view_dumps.specs.Codes.{code, code_of, number_of};

use crate::dump_text::{DumpText, TEXT_SIZE};
use osek_base::{AlarmId, IsrId, MAX_ROUTINES, MAX_TASKS, ResId, TaskId};
use seen_ticks::MAX_HELD;

/// How many characters identifier codes are made of: the printable ones of ASCII but the space.
pub(crate) const DIGITS: u16 = 94;

/// How many variables there are of each task and of each routine.
const OF_TASK: u16 = 3;

const OF_ROUTINE: u16 = 3;

/// The number of the first variable of the tasks, routines, resources and alarms.
const TASKS: u16 = 1;

const ROUTINES: u16 = TASKS + OF_TASK * MAX_TASKS as u16;

const RESOURCES: u16 = ROUTINES + OF_ROUTINE * MAX_ROUTINES as u16;

const ALARMS: u16 = RESOURCES + MAX_HELD as u16;

/// A variable of a dump. It is written as its identifier code, one or two printable characters.
#[derive(Clone, Copy)]
pub enum Variable {
    /// Who executes: the name of the task, or that of the routine behind `ISR.`.
    Executor,
    /// The state of a task.
    State(TaskId),
    /// The dynamic priority of a task's oldest job.
    Priority(TaskId),
    /// How many jobs a task has.
    Jobs(TaskId),
    /// Whether a routine is pending.
    Pending(IsrId),
    /// Whether a routine is active: it executes.
    Active(IsrId),
    /// The event that an interrupt of a routine is lost.
    Lost(IsrId),
    /// The name of the task that holds a resource.
    Holder(ResId),
    /// The event that an alarm expires.
    Expiry(AlarmId),
}

#[inline(always)]
fn of_task(task: TaskId, which: u16) -> u16
    requires { which < OF_TASK }
    ensures value { result ≡ 1 + 3 * task + which }
    ensures within { result < ROUTINES }
{
    TASKS + OF_TASK * u16::from(task.number()) + which
}

#[inline(always)]
fn of_routine(routine: IsrId, which: u16) -> u16
    requires { which < OF_ROUTINE }
    ensures value { result ≡ 193 + 3 * routine + which }
    ensures within { result < RESOURCES }
{
    ROUTINES + OF_ROUTINE * u16::from(routine.number()) + which
}

#[inline(always)]
fn of_resource(resource: &ResId) -> u16
    ensures value { result ≡ number_of (Variable.Holder resource.now) }
    ensures within { result < ALARMS }
{
    match resource {
        ResId::Declared(number) => RESOURCES + u16::from(number.number()),
        ResId::Scheduler => ALARMS - 1,
    }
}

#[inline(always)]
pub(crate) fn digit(value: u16) -> u8
    requires { value < DIGITS }
    ensures { result ≡ 33 + value }
{
    b'!' + value as u8
}

/// Appends a number in digits, the lowest first.
#[inline(always)]
fn push_code_of(number: u16, text: &mut DumpText)
    requires small { number < DIGITS * DIGITS }
    requires room { length text.old + 2 ≤ TEXT_SIZE }
    ensures same { text.new ≡ text.old ++ code_of number }
    ensures short { length text.new ≤ length text.old + 2 }
{
    if number < DIGITS {
        text.push(digit(number));
    } else {
        text.push(digit(number % DIGITS));
        text.push(digit(number / DIGITS - 1));
    }
}

impl Variable {
    /// The number of the variable, the same in every dump.
    #[inline(always)]
    pub(crate) fn number(&self) -> u16
        ensures value { result ≡ number_of self.now }
        ensures within { result < DIGITS * DIGITS }
    {
        match self {
            Variable::Executor => 0,
            Variable::State(task) => of_task(*task, 0),
            Variable::Priority(task) => of_task(*task, 1),
            Variable::Jobs(task) => of_task(*task, 2),
            Variable::Pending(routine) => of_routine(*routine, 0),
            Variable::Active(routine) => of_routine(*routine, 1),
            Variable::Lost(routine) => of_routine(*routine, 2),
            Variable::Holder(resource) => of_resource(resource),
            Variable::Expiry(alarm) => ALARMS + u16::from(alarm.number()),
        }
    }

    /// Appends the identifier code: the number in digits, the lowest first; a second digit counts
    /// from 1.
    #[inline(always)]
    pub(crate) fn push_code(&self, text: &mut DumpText)
        requires { length text.old + 2 ≤ TEXT_SIZE }
        ensures same { text.new ≡ text.old ++ code self.now }
        ensures short { length text.new ≤ length text.old + 2 }
    {
        push_code_of(self.number(), text);
    }
}
