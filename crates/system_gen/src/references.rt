//! OIL: references between objects; the modelled processor: operands. Each name must stand for a
//! declared object.

ghost use Rattle.std.specs.Prelude.{◌≡◌, OnOk, None, IsTrue};
ghost use Rattle.system_gen.specs.Checks.{Answers};
ghost use Rattle.system_gen.specs.References.{
  first_of,
  unknown,
  unknown_in,
  unknown_operand,
  task_reference,
  action_reference,
  start_reference,
  alarm_reference,
  may_be_got,
  resource_reference,
  service_reference,
  instruction_reference,
  owner_reference,
  program_reference,
  reference_fault,
};
ghost use Rattle.std.specs.List.{list_all};
ghost use Rattle.osek_base.specs.Proper.{is_register, is_word};
ghost use Rattle.system_gen.specs.Typed.{
  is_typed_plain,
  is_typed_service,
  is_typed_control,
  is_typed,
  are_typed,
};

use crate::declared_names::{Declared, is_res_scheduler};
use crate::fault::GenFault;
use crate::object_checks::is_internal;
use crate::table::NameTable;
use oil_reader::{ActionObject, AlarmObject, AlarmStartObject, OilFile, TaskObject};
use osek_base::{Control, Name, Plain, REGISTERS, Register, Service};
use task_asm::{NamedInstr, NamedLine, NamedProgram, NamedService, ProgramKind};

/// Looks each name up: those of the tasks, of the alarms, and of the programs.
pub(crate) fn check_references(
    declared: &Declared,
    file: &OilFile,
    programs: &[NamedProgram],
) -> Result<(), GenFault>
    ensures answers { Answers (reference_fault file.now declared.now programs.now) result }
    ensures typed { OnOk result (IsTrue (are_typed programs.now)) }
{
    check_tasks(declared, file.tasks())?;
    check_alarms(declared, file.alarms())?;
    check_programs(declared, file, programs)
}

fn check_tasks(declared: &Declared, tasks: &[TaskObject]) -> Result<(), GenFault>
    ensures { Answers (first_of (task_reference declared.now) tasks.now) result }
{
    for task in tasks {
        check_task(declared, task)?;
    }
    Ok(())
}

/// A task names its modes, then its resources, then its events.
fn check_task(declared: &Declared, task: &TaskObject) -> Result<(), GenFault>
    ensures { Answers (task_reference declared.now task.now) result }
{
    check_names(&declared.modes, task.autostart.as_slice())?;
    check_names(&declared.resources, task.resources.as_slice())?;
    check_names(&declared.events, task.events.as_slice())
}

fn check_alarms(declared: &Declared, alarms: &[AlarmObject]) -> Result<(), GenFault>
    ensures { Answers (first_of (alarm_reference declared.now) alarms.now) result }
{
    for alarm in alarms {
        check_alarm(declared, alarm)?;
    }
    Ok(())
}

/// An alarm names its counter, then the task and the event of its action, then its modes.
fn check_alarm(declared: &Declared, alarm: &AlarmObject) -> Result<(), GenFault>
    ensures { Answers (alarm_reference declared.now alarm.now) result }
{
    check_name(&declared.counters, &alarm.counter)?;
    check_action(declared, &alarm.action)?;
    check_start(declared, &alarm.autostart)
}

fn check_action(declared: &Declared, action: &ActionObject) -> Result<(), GenFault>
    ensures { Answers (action_reference declared.now action.now) result }
{
    match action {
        ActionObject::ActivateTask { task } => check_name(&declared.tasks, task),
        ActionObject::SetEvent { task, event } => {
            check_name(&declared.tasks, task)?;
            check_name(&declared.events, event)
        }
    }
}

fn check_start(declared: &Declared, start: &Option<AlarmStartObject>) -> Result<(), GenFault>
    ensures { Answers (start_reference declared.now start.now) result }
{
    match start {
        None => Ok(()),
        Some(start) => check_names(&declared.modes, start.app_modes.as_slice()),
    }
}

fn check_programs(
    declared: &Declared,
    file: &OilFile,
    programs: &[NamedProgram],
) -> Result<(), GenFault>
    ensures answers { Answers (first_of (program_reference file.now declared.now) programs.now)
        result }
    ensures typed { OnOk result (IsTrue (are_typed programs.now)) }
{
    for program in programs {
        check_program(declared, file, program)?;
    }
    Ok(())
}

/// A program has the name of a task or routine, and its operands name objects.
fn check_program(
    declared: &Declared,
    file: &OilFile,
    program: &NamedProgram,
) -> Result<(), GenFault>
    ensures answers { Answers (program_reference file.now declared.now program.now) result }
    ensures typed { OnOk result (IsTrue (list_all is_typed program.now.instructions)) }
{
    check_owner(declared, program.kind, &program.name)?;
    check_lines(declared, file, program.lines.as_slice())
}

fn check_owner(declared: &Declared, kind: ProgramKind, name: &Name) -> Result<(), GenFault>
    ensures { Answers (owner_reference declared.now kind name.now) result }
{
    match kind {
        ProgramKind::Task => check_name(&declared.tasks, name),
        ProgramKind::Routine => check_name(&declared.routines, name),
    }
}

fn check_lines(declared: &Declared, file: &OilFile, lines: &[NamedLine]) -> Result<(), GenFault>
    ensures answers { Answers (first_of (instruction_reference file.now declared.now) lines.now)
        result }
    ensures typed { OnOk result (IsTrue (list_all is_typed lines.now)) }
{
    for line in lines {
        check_instruction(declared, file, line.instr())?;
    }
    Ok(())
}

fn check_instruction(
    declared: &Declared,
    file: &OilFile,
    instr: &NamedInstr,
) -> Result<(), GenFault>
    ensures answers { Answers (instruction_reference file.now declared.now instr.now) result }
    ensures typed { OnOk result (IsTrue (is_typed instr.now)) }
{
    match instr {
        NamedInstr::Service(service) => check_service(declared, file, service),
        NamedInstr::Plain(plain) => {
            plain_is_typed(plain);
            Ok(())
        }
        NamedInstr::Control(control) => {
            control_is_typed(control);
            Ok(())
        }
    }
}

/// For the prover alone: the registers of a plain instruction exist.
fn plain_is_typed(plain: &Plain)
    ensures { IsTrue (is_typed_plain plain.now) }
{
    match *plain {
        Plain::Nop | Plain::Jmp(_) => {}
        Plain::Li(d, number) => {
            exists(d);
            fits(number);
        }
        Plain::Mov(a, b) | Plain::Ld(a, b) | Plain::St(a, b) | Plain::JumpIf(_, a, b, _) => {
            exists(a);
            exists(b);
        }
        Plain::Compute(_, d, a, b) => {
            exists(d);
            exists(a);
            exists(b);
        }
    }
}

/// For the prover alone: the number of a control instruction has 32 bits.
fn control_is_typed(control: &Control)
    ensures { IsTrue (is_typed_control control.now) }
{
    match *control {
        Control::ShutdownOs(number) => fits(number),
        _ => {}
    }
}

/// For the prover alone: a number has 32 bits by its type.
fn fits(number: u32)
    ensures { IsTrue (is_word number) }
{
    prove!(number <= u32::MAX);
}

/// For the prover alone: a register exists by its type.
fn exists(register: Register)
    ensures { IsTrue (is_register register) }
{
    prove!((register.number() as usize) < REGISTERS);
}

fn check_service(
    declared: &Declared,
    file: &OilFile,
    service: &NamedService,
) -> Result<(), GenFault>
    ensures answers { Answers (service_reference file.now declared.now service.now) result }
    ensures typed { OnOk result (IsTrue (is_typed_service service.now)) }
{
    match service {
        Service::ActivateTask(task)
        | Service::ChainTask(task)
        | Service::GetTaskState(task)
        | Service::GetEvent(task) => check_operand(&declared.tasks, task),
        Service::GetResource(resource) | Service::ReleaseResource(resource) =>
            check_resource_operand(declared, file, resource),
        Service::LoadShared(resource, index) => {
            exists(*index);
            check_resource_operand(declared, file, resource)
        }
        Service::StoreShared(resource, index, word) => {
            exists(*index);
            exists(*word);
            check_resource_operand(declared, file, resource)
        }
        Service::SetEvent(task, events) => {
            check_operand(&declared.tasks, task)?;
            check_names(&declared.events, events.names())
        }
        Service::ClearEvent(events) | Service::WaitEvent(events) => check_names(
            &declared.events,
            events.names(),
        ),
        Service::SetRelAlarm(alarm, a, b) | Service::SetAbsAlarm(alarm, a, b) => {
            exists(*a);
            exists(*b);
            check_operand(&declared.alarms, alarm)
        }
        Service::CancelAlarm(alarm) | Service::GetAlarm(alarm) | Service::GetAlarmBase(alarm) =>
            check_operand(&declared.alarms, alarm),
        Service::TerminateTask | Service::Schedule | Service::GetTaskId => Ok(()),
    }
}

/// The operand INVALID names nothing.
fn check_operand(table: &NameTable, operand: &Option<Name>) -> Result<(), GenFault>
    ensures { Answers (unknown_operand table.now operand.now) result }
{
    match operand {
        None => Ok(()),
        Some(name) => check_name(table, name),
    }
}

fn check_resource_operand(
    declared: &Declared,
    file: &OilFile,
    operand: &Option<Name>,
) -> Result<(), GenFault>
    ensures { Answers (resource_reference file.now declared.now operand.now) result }
{
    match operand {
        None => Ok(()),
        Some(name) => {
            if may_be_got(declared, file, name) {
                Ok(())
            } else {
                Err(GenFault::UnknownName(name.clone()?))
            }
        }
    }
}

/// Whether a name is that of a standard resource, or RES_SCHEDULER where it exists.
fn may_be_got(declared: &Declared, file: &OilFile, name: &Name) -> bool
    ensures { result ≡ may_be_got file.now declared.now name.now }
{
    if is_res_scheduler(name) {
        file.os().use_res_scheduler
    } else {
        declared.resources.has(name) && !is_internal(file.resources(), name)
    }
}

fn check_names(table: &NameTable, names: &[Name]) -> Result<(), GenFault>
    ensures { Answers (unknown_in table.now names.now) result }
{
    for name in names {
        check_name(table, name)?;
    }
    Ok(())
}

fn check_name(table: &NameTable, name: &Name) -> Result<(), GenFault>
    ensures { Answers (unknown table.now name.now) result }
{
    if table.has(name) {
        Ok(())
    } else {
        Err(GenFault::UnknownName(name.clone()?))
    }
}
