//! All that may become of who is at a node.

ghost use Rattle.std.specs.Prelude.{◌≡◌, ◌<◌, ◌∷◌, [], None, IfOk, IfSome, map};
ghost use Rattle.osek_base.specs.declared.instr.Instr.{Instr};
ghost use Rattle.osek_base.specs.declared.limits.TheConstants.{MAX_INSTRUCTIONS};
ghost use Rattle.osek_base.specs.System.{instruction_at, instruction_in};
ghost use Rattle.law_nodes.specs.Services.{answers, first_refusals};
ghost use Rattle.analysis_nodes.specs.declared.outcome.Start.{Start};
ghost use Rattle.analysis_nodes.specs.Nodes.{node_by, outcome_told};
ghost use Rattle.analysis_nodes.specs.Outcomes.{outcome_by, outcomes, outcomes_by};

use crate::controlling::{control_steps, is_off};
use crate::granting::{replied, start_where};
use crate::node::Node;
use crate::outcome::{Outcome, Start};
use crate::plain::plain_steps;
use crate::refusals::{Refusal, refusals_of};
use osek_base::{Instr, MAX_INSTRUCTIONS, Owner, Program, Register, Service, Status, System};
use std::alloc::{AllocError, Global};

/// The instruction of a program at a place, if there is one.
fn instruction_in(program: &Program, place: u32) -> Option<Instr>
    ensures value { IfSome result (λ instr. instr ≡ instruction_in program.now place) }
    ensures place { IfSome result (λ _. place < MAX_INSTRUCTIONS) }
{
    let place = place as usize;
    if place >= program.len() || place >= MAX_INSTRUCTIONS {
        return None;
    }
    Some(program.at(place))
}

/// The instruction at a node, if there is one.
fn instruction_at(system: &System, node: &Node) -> Option<Instr>
    ensures value { IfSome result
        (λ instr. instr ≡ instruction_at system.now node.now.owner node.now.place) }
    ensures place { IfSome result (λ _. node.now.place < MAX_INSTRUCTIONS) }
{
    match node.owner {
        Owner::Task(task) => match system.parts().tasks.get(task.number() as usize) {
            None => None,
            Some(task) => instruction_in(&task.program, node.place),
        },
        Owner::Routine(routine) => match system.parts().routines.get(routine.number() as usize) {
            None => None,
            Some(routine) => instruction_in(&routine.program, node.place),
        },
    }
}

/// What may be the first of some tests that applies; None where none does.
fn first_refusals(alloc: Global, tests: &[Refusal]) -> Result<Vec<Option<Status>>, AllocError>
    ensures { IfOk result (λ found. found.items ≡ first_refusals tests.now) }
{
    let mut found = Vec::new(alloc);
    for test in tests {
        match test.0 {
            None => found.push(Some(test.1))?,
            Some(applies) => {
                if applies {
                    found.push(Some(test.1))?;
                    return Ok(found);
                }
            }
        }
    }
    found.push(None)?;
    Ok(found)
}

/// How a service may be answered at a node: each refusal that may be the first, and None for E_OK.
/// Interrupts being off is the first refusal.
fn answers(
    alloc: Global,
    system: &System,
    node: &Node,
    service: &Service<Register>,
) -> Result<Vec<Option<Status>>, AllocError>
    ensures { IfOk result (λ found. found.items ≡ answers system.now (node_by node.now) service.now) }
{
    let off = (Some(is_off(&node.switch)), Status::SysDisabled);
    let others = refusals_of(system, node, service);
    first_refusals(alloc, &[off, others[0], others[1], others[2]])
}

/// What becomes of who calls a service by one answer.
fn outcome_by(
    alloc: Global,
    system: &System,
    node: &Node,
    service: &Service<Register>,
    refusal: Option<Status>,
) -> Result<Outcome, AllocError>
    requires { node.now.place < MAX_INSTRUCTIONS }
    ensures { IfOk result (λ o. outcome_told o
        ≡ outcome_by system.now (node_by node.now) service.now refusal) }
{
    let start = start_where(refusal, service);
    let next = replied(alloc, system, node, service, refusal)?;
    Ok(Outcome {
        refusal,
        start,
        next,
    })
}

/// What becomes of who calls a service, by each of some answers.
fn answered_outcomes(
    alloc: Global,
    system: &System,
    node: &Node,
    service: &Service<Register>,
    answers: &[Option<Status>],
) -> Result<Vec<Outcome>, AllocError>
    requires { node.now.place < MAX_INSTRUCTIONS }
    ensures { IfOk result (λ os. map outcome_told os.items
        ≡ map (outcome_by system.now (node_by node.now) service.now) answers.now) }
{
    let mut outcomes = Vec::new(alloc);
    for refusal in answers {
        let outcome = outcome_by(alloc, system, node, service, *refusal)?;
        outcomes.push(outcome)?;
    }
    Ok(outcomes)
}

/// What may become of who calls a service.
fn service_outcomes(
    alloc: Global,
    system: &System,
    node: &Node,
    service: &Service<Register>,
) -> Result<Vec<Outcome>, AllocError>
    requires { node.now.place < MAX_INSTRUCTIONS }
    ensures { IfOk result (λ os. map outcome_told os.items
        ≡ outcomes_by system.now (Instr.Service service.now) (node_by node.now)) }
{
    let answers = answers(alloc, system, node, service)?;
    answered_outcomes(alloc, system, node, service, &answers)
}

/// The one thing that may become of who executes what isn't a service with a status.
fn one_outcome(alloc: Global, next: Vec<Node>) -> Result<Vec<Outcome>, AllocError>
    ensures { IfOk result (λ os. map outcome_told os.items
        ≡ record {
          refusal = None;
          start = Start.Nothing;
          next = map node_by next.items;
        } ∷ []) }
{
    let mut outcomes = Vec::new(alloc);
    outcomes.push(Outcome {
        refusal: None,
        start: Start::Nothing,
        next,
    })?;
    Ok(outcomes)
}

/// What may become of who executes an instruction at a node.
fn outcomes_by(
    alloc: Global,
    system: &System,
    node: &Node,
    instr: &Instr,
) -> Result<Option<Vec<Outcome>>, AllocError>
    requires { node.now.place < MAX_INSTRUCTIONS }
    ensures { IfOk result (λ found. IfSome found (λ os. map outcome_told os.items
        ≡ outcomes_by system.now instr.now (node_by node.now))) }
{
    match instr {
        Instr::Plain(plain) => {
            let next = plain_steps(alloc, node, plain)?;
            Ok(Some(one_outcome(alloc, next)?))
        }
        Instr::Service(service) => Ok(Some(service_outcomes(alloc, system, node, service)?)),
        Instr::Control(control) => match control_steps(alloc, node, *control)? {
            None => Ok(None),
            Some(next) => Ok(Some(one_outcome(alloc, next)?)),
        },
    }
}

/// All that may become of who executes its instruction at a node, in the order of `law_nodes`; none
/// where it waits. None, of which nothing is claimed, where the system has no instruction there, or
/// where a count of suspensions would leave the range of 32 bits. An error is want of memory.
pub fn outcomes(
    alloc: Global,
    system: &System,
    node: &Node,
) -> Result<Option<Vec<Outcome>>, AllocError>
    ensures { IfOk result (λ found. IfSome found (λ os. map outcome_told os.items
        ≡ outcomes system.now (node_by node.now))) }
{
    if node.waits_for.is_some() {
        return Ok(Some(Vec::new(alloc)));
    }
    match instruction_at(system, node) {
        None => Ok(None),
        Some(instr) => outcomes_by(alloc, system, node, &instr),
    }
}
