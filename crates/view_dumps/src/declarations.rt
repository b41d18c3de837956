//! Value change dumps: the declarations, which say what is dumped under which identifier code.

ghost use Rattle.std.specs.Prelude.{◌≡◌, ◌+◌, ◌*◌, ◌<◌, ◌≤◌, ◌++◌, length};
ghost use Rattle.osek_base.specs.declared.ids.ResId.{ResId};
ghost use Rattle.osek_base.specs.Names.{resource_name};
ghost use Rattle.view_dumps.specs.Declarations.{
  alarm_line,
  alarms_scope,
  declarations,
  each_below,
  resource_line,
  resources_scope,
  routine_scope,
  routines_scope,
  header,
  objects,
  scheduler_line,
  scope_end,
  scope_line,
  system_scope,
  task_scope,
  tasks_scope,
  trailer,
  var_line,
};

use crate::dump_text::{DumpText, TEXT_SIZE};
use crate::names::name_at;
use crate::variable::Variable;
use osek_base::{
    AlarmId, IsrId, MAX_ALARMS, MAX_RESOURCES, MAX_ROUTINES, MAX_TASKS, Names, ResId,
    ResourceNumber, System, TaskId,
};
use seen_ticks::MAX_HELD;

/// Appends a variable: its type and width in bits, its identifier code and its name.
#[tactic(auto, unfolding(crate::specs::Declarations::var_line))]
fn push_variable(kind: &str, variable: Variable, name: &str, text: &mut DumpText)
    requires kind { length kind.now ≤ 8 }
    requires name { length name.now ≤ 32 }
    requires room { length text.old + 55 ≤ TEXT_SIZE }
    ensures same { text.new ≡ text.old ++ var_line kind.now variable name.now }
    ensures short { length text.new ≤ length text.old + 55 }
{
    text.push_bytes(b"$var ");
    text.push_bytes(kind.as_bytes());
    text.push(b' ');
    variable.push_code(text);
    text.push(b' ');
    text.push_bytes(name.as_bytes());
    text.push_bytes(b" $end\n");
}

/// Appends the beginning of a scope.
fn open_scope(name: &str, text: &mut DumpText)
    requires name { length name.now ≤ 32 }
    requires room { length text.old + 52 ≤ TEXT_SIZE }
    ensures same { text.new ≡ text.old ++ scope_line name.now }
    ensures short { length text.new ≤ length text.old + 52 }
{
    text.push_bytes(b"$scope module ");
    text.push_bytes(name.as_bytes());
    text.push_bytes(b" $end\n");
}

/// Appends the end of a scope.
#[tactic(auto, unfolding(crate::specs::Declarations::scope_end))]
fn close_scope(text: &mut DumpText)
    requires { length text.old + 14 ≤ TEXT_SIZE }
    ensures same { text.new ≡ text.old ++ scope_end }
    ensures short { length text.new ≤ length text.old + 14 }
{
    text.push_bytes(b"$upscope $end\n");
}

/// Appends the scope of a task.
#[tactic(auto, unfolding(crate::specs::Declarations::task_scope))]
fn push_task(system: &System, number: u8, text: &mut DumpText)
    requires number { number < MAX_TASKS }
    requires room { length text.old + 231 ≤ TEXT_SIZE }
    ensures same { text.new ≡ text.old ++ task_scope system.now.names number }
    ensures short { length text.new ≤ length text.old + 231 }
{
    let task = TaskId::new(number);
    let names = system.names();
    open_scope(name_at(names.tasks.as_slice(), number), text);
    push_variable("wire 2", Variable::State(task), "state", text);
    push_variable("wire 6", Variable::Priority(task), "priority", text);
    push_variable("wire 4", Variable::Jobs(task), "jobs", text);
    close_scope(text);
}

fn push_each_task(system: &System, text: &mut DumpText)
    requires { length text.old + 231 * MAX_TASKS ≤ TEXT_SIZE }
    ensures same { text.new
        ≡ text.old ++ each_below (task_scope system.now.names) (length system.now.tasks) }
    ensures short { length text.new ≤ length text.old + 231 * MAX_TASKS }
{
    for number in 0..system.task_count() {
        push_task(system, number as u8, text);
    }
}

#[tactic(auto, unfolding(crate::specs::Declarations::tasks_scope))]
fn push_tasks(system: &System, text: &mut DumpText)
    requires { length text.old + 231 * MAX_TASKS + 66 ≤ TEXT_SIZE }
    ensures same { text.new ≡ text.old ++ tasks_scope system.now }
    ensures short { length text.new ≤ length text.old + 231 * MAX_TASKS + 66 }
{
    open_scope("tasks", text);
    push_each_task(system, text);
    close_scope(text);
}

/// Appends the scope of a routine.
#[tactic(auto, unfolding(crate::specs::Declarations::routine_scope))]
fn push_routine(system: &System, number: u8, text: &mut DumpText)
    requires number { number < MAX_ROUTINES }
    requires room { length text.old + 231 ≤ TEXT_SIZE }
    ensures same { text.new ≡ text.old ++ routine_scope system.now.names number }
    ensures short { length text.new ≤ length text.old + 231 }
{
    let routine = IsrId::new(number);
    let names = system.names();
    open_scope(name_at(names.routines.as_slice(), number), text);
    push_variable("wire 1", Variable::Pending(routine), "pending", text);
    push_variable("wire 1", Variable::Active(routine), "active", text);
    push_variable("event 1", Variable::Lost(routine), "lost", text);
    close_scope(text);
}

fn push_each_routine(system: &System, text: &mut DumpText)
    requires { length text.old + 231 * MAX_ROUTINES ≤ TEXT_SIZE }
    ensures same { text.new
        ≡ text.old ++ each_below (routine_scope system.now.names) (length system.now.routines) }
    ensures short { length text.new ≤ length text.old + 231 * MAX_ROUTINES }
{
    for number in 0..system.routine_count() {
        push_routine(system, number as u8, text);
    }
}

#[tactic(auto, unfolding(crate::specs::Declarations::routines_scope))]
fn push_routines(system: &System, text: &mut DumpText)
    requires { length text.old + 231 * MAX_ROUTINES + 66 ≤ TEXT_SIZE }
    ensures same { text.new ≡ text.old ++ routines_scope system.now }
    ensures short { length text.new ≤ length text.old + 231 * MAX_ROUTINES + 66 }
{
    open_scope("routines", text);
    push_each_routine(system, text);
    close_scope(text);
}

/// The name of a resource, empty where there is none.
fn name_of<'n>(names: &'n Names, resource: &ResId) -> &'n str
    ensures same { result.now ≡ resource_name names.now resource.now }
    ensures short { length result.now ≤ 32 }
{
    match resource {
        ResId::Declared(number) => name_at(names.resources.as_slice(), number.number()),
        ResId::Scheduler => "RES_SCHEDULER",
    }
}

/// Appends a resource.
#[tactic(auto, unfolding(crate::specs::Declarations::resource_line))]
fn push_resource(names: &Names, resource: &ResId, text: &mut DumpText)
    requires { length text.old + 55 ≤ TEXT_SIZE }
    ensures same { text.new ≡ text.old ++ resource_line names.now resource.now }
    ensures short { length text.new ≤ length text.old + 55 }
{
    let name = name_of(names, resource);
    push_variable("string 1", Variable::Holder(*resource), name, text);
}

fn push_declared(system: &System, number: u8, text: &mut DumpText)
    requires number { number < MAX_RESOURCES }
    requires room { length text.old + 55 ≤ TEXT_SIZE }
    ensures same { text.new
        ≡ text.old ++ resource_line system.now.names (ResId.Declared number) }
    ensures short { length text.new ≤ length text.old + 55 }
{
    let resource = ResId::Declared(ResourceNumber::new(number));
    push_resource(system.names(), &resource, text);
}

fn push_each_resource(system: &System, text: &mut DumpText)
    requires { length text.old + 55 * MAX_RESOURCES ≤ TEXT_SIZE }
    ensures same { text.new
        ≡ text.old
        ++ each_below (λ r. resource_line system.now.names (ResId.Declared r))
        (length system.now.resources) }
    ensures short { length text.new ≤ length text.old + 55 * MAX_RESOURCES }
{
    for number in 0..system.resource_count() {
        push_declared(system, number as u8, text);
    }
}

/// Appends RES_SCHEDULER, where the system has it.
#[tactic(auto, unfolding(crate::specs::Declarations::scheduler_line))]
fn push_scheduler(system: &System, text: &mut DumpText)
    requires { length text.old + 55 ≤ TEXT_SIZE }
    ensures same { text.new ≡ text.old ++ scheduler_line system.now }
    ensures short { length text.new ≤ length text.old + 55 }
{
    if system.has_res_scheduler() {
        push_resource(system.names(), &ResId::Scheduler, text);
    }
}

#[tactic(auto, unfolding(crate::specs::Declarations::resources_scope))]
fn push_resources(system: &System, text: &mut DumpText)
    requires { length text.old + 55 * MAX_HELD + 66 ≤ TEXT_SIZE }
    ensures same { text.new ≡ text.old ++ resources_scope system.now }
    ensures short { length text.new ≤ length text.old + 55 * MAX_HELD + 66 }
{
    open_scope("resources", text);
    push_each_resource(system, text);
    push_scheduler(system, text);
    close_scope(text);
}

/// Appends an alarm.
#[tactic(auto, unfolding(crate::specs::Declarations::alarm_line))]
fn push_alarm(system: &System, number: u8, text: &mut DumpText)
    requires number { number < MAX_ALARMS }
    requires room { length text.old + 55 ≤ TEXT_SIZE }
    ensures same { text.new ≡ text.old ++ alarm_line system.now.names number }
    ensures short { length text.new ≤ length text.old + 55 }
{
    let names = system.names();
    let name = name_at(names.alarms.as_slice(), number);
    push_variable(
        "event 1",
        Variable::Expiry(AlarmId::new(number)),
        name,
        text,
    );
}

fn push_each_alarm(system: &System, text: &mut DumpText)
    requires { length text.old + 55 * MAX_ALARMS ≤ TEXT_SIZE }
    ensures same { text.new
        ≡ text.old ++ each_below (alarm_line system.now.names) (length system.now.alarms) }
    ensures short { length text.new ≤ length text.old + 55 * MAX_ALARMS }
{
    for number in 0..system.alarm_count() {
        push_alarm(system, number as u8, text);
    }
}

#[tactic(auto, unfolding(crate::specs::Declarations::alarms_scope))]
fn push_alarms(system: &System, text: &mut DumpText)
    requires { length text.old + 55 * MAX_ALARMS + 66 ≤ TEXT_SIZE }
    ensures same { text.new ≡ text.old ++ alarms_scope system.now }
    ensures short { length text.new ≤ length text.old + 55 * MAX_ALARMS + 66 }
{
    open_scope("alarms", text);
    push_each_alarm(system, text);
    close_scope(text);
}

/// Appends what stands before the scopes. A dump has to name a unit of time; this one stands for a
/// tick.
#[tactic(auto, unfolding(crate::specs::Declarations::header))]
fn push_header(text: &mut DumpText)
    requires { length text.old + 92 ≤ TEXT_SIZE }
    ensures same { text.new ≡ text.old ++ header }
    ensures short { length text.new ≤ length text.old + 92 }
{
    text.push_bytes(
        b"$comment One unit of time is one tick. $end
$version Paddlelychee $end
$timescale 1 us $end
",
    );
}

#[tactic(auto, unfolding(crate::specs::Declarations::trailer))]
fn push_trailer(text: &mut DumpText)
    requires { length text.old + 21 ≤ TEXT_SIZE }
    ensures { text.new ≡ text.old ++ trailer }
{
    text.push_bytes(b"$enddefinitions $end\n");
}

/// Appends the scopes of all objects.
#[tactic(auto, unfolding(crate::specs::Declarations::objects))]
fn push_objects(system: &System, text: &mut DumpText)
    requires { length text.old + 24079 ≤ TEXT_SIZE }
    ensures same { text.new ≡ text.old ++ objects system.now }
    ensures short { length text.new ≤ length text.old + 24079 }
{
    push_tasks(system, text);
    push_routines(system, text);
    push_resources(system, text);
    push_alarms(system, text);
}

/// Appends the scope in which all variables are.
#[tactic(auto, unfolding(crate::specs::Declarations::system_scope))]
fn push_system(system: &System, text: &mut DumpText)
    requires { length text.old + 24200 ≤ TEXT_SIZE }
    ensures same { text.new ≡ text.old ++ system_scope system.now }
    ensures short { length text.new ≤ length text.old + 24200 }
{
    open_scope("system", text);
    push_variable("string 1", Variable::Executor, "executor", text);
    push_objects(system, text);
    close_scope(text);
}

/// Puts together all that stands before the first tick.
#[tactic(auto, unfolding(crate::specs::Declarations::declarations))]
pub(crate) fn push_declarations(system: &System, text: &mut DumpText)
    ensures { text.new ≡ declarations system.now }
{
    text.clear();
    push_header(text);
    push_system(system, text);
    push_trailer(text);
}
