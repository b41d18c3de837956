//! The list of denials.

use crate::denial::{Denial, NamedDenial, Rule};
use crate::denied_instructions::forbids;
use crate::denied_lists::breaks;
use osek_base::{IsrId, Name, Owner, Program, System, Task, TaskId};
use std::alloc::{AllocError, Global};

/// The rules in their order.
const RULES: [Rule; 7] = [
    Rule::FullPreemption,
    Rule::LowerResources,
    Rule::NoScheduler,
    Rule::NoControl,
    Rule::LowerNames,
    Rule::UpperNames,
    Rule::NoTaskId,
];

/// Whose program is looked at, under which rule and at which priority.
#[derive(Drop)]
struct Subject<'s> {
    system: &'s System,
    p: u8,
    rule: Rule,
    owner: Owner,
    name: &'s Name,
}

/// Adds a denial of a subject, at a place where the rule is on programs.
fn deny(
    subject: &Subject<'_>,
    place: Option<u16>,
    denials: &mut Vec<NamedDenial>,
) -> Result<(), AllocError> {
    let denial = Denial {
        rule: subject.rule,
        subject: subject.owner,
        place,
    };
    let name = subject.name.clone()?;
    denials.push(NamedDenial { denial, name })?;
    Ok(())
}

/// Adds the denials of a program, by place.
fn look_at_program(
    subject: &Subject<'_>,
    program: &Program,
    denials: &mut Vec<NamedDenial>,
) -> Result<(), AllocError> {
    let mut place: u16 = 0;
    for line in program.lines() {
        if forbids(subject.system, subject.p, subject.rule, line.instr()) {
            deny(subject, Some(place), denials)?;
        }
        place = place.saturating_add(1);
    }
    Ok(())
}

/// Whether a rule is on upper tasks, and not on lower ones.
fn is_on_upper(rule: Rule) -> bool {
    rule == Rule::UpperNames
}

/// Adds the denials of a task, where the rule is on such tasks.
fn look_at_task(
    subject: &Subject<'_>,
    task: &Task,
    denials: &mut Vec<NamedDenial>,
) -> Result<(), AllocError> {
    let is_upper = task.priority >= subject.p;
    if subject.rule == Rule::NoTaskId || is_upper != is_on_upper(subject.rule) {
        return Ok(());
    }
    if breaks(subject.system, subject.p, subject.rule, task) {
        return deny(subject, None, denials);
    }
    look_at_program(subject, &task.program, denials)
}

fn look_at_tasks(
    system: &System,
    p: u8,
    rule: Rule,
    denials: &mut Vec<NamedDenial>,
) -> Result<(), AllocError> {
    for number in 0..system.task_count() {
        let owner = Owner::Task(TaskId::new(number as u8));
        let Some(task) = system.parts().tasks.get(number) else {
            break;
        };
        let Some(name) = system.names().tasks.get(number) else {
            break;
        };
        let subject = Subject {
            system,
            p,
            rule,
            owner,
            name,
        };
        look_at_task(&subject, task, denials)?;
    }
    Ok(())
}

fn look_at_routines(
    system: &System,
    p: u8,
    rule: Rule,
    denials: &mut Vec<NamedDenial>,
) -> Result<(), AllocError> {
    for number in 0..system.routine_count() {
        let owner = Owner::Routine(IsrId::new(number as u8));
        let Some(routine) = system.parts().routines.get(number) else {
            break;
        };
        let Some(name) = system.names().routines.get(number) else {
            break;
        };
        let subject = Subject {
            system,
            p,
            rule,
            owner,
            name,
        };
        look_at_program(&subject, &routine.program, denials)?;
    }
    Ok(())
}

/// Whether a rule is on the programs of routines.
fn is_on_routines(rule: Rule) -> bool {
    rule == Rule::UpperNames || rule == Rule::NoTaskId
}

/// All denials of a system at p: rule by rule, of each rule subject by subject (tasks by number,
/// then routines as declared), of each subject by place. An error is want of memory.
pub fn every_denial(alloc: Global, system: &System, p: u8) -> Result<Vec<NamedDenial>, AllocError> {
    let mut denials = Vec::new(alloc);
    for rule in &RULES {
        look_at_tasks(system, p, *rule, &mut denials)?;
        if is_on_routines(*rule) {
            look_at_routines(system, p, *rule, &mut denials)?;
        }
    }
    Ok(denials)
}
