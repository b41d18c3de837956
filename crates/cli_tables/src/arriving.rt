//! How interrupts come, as a line says it, and the rules that it says.

ghost use Rattle.std.specs.Prelude.{ℕ, ◌≡◌, ◌≤◌, ◌<◌, ◌++◌, [], length, IfOk, OnOk};
ghost use Rattle.osek_base.specs.Names.{is_named};
ghost use Rattle.osek_base.specs.declared.limits.TheConstants.{MAX_ROUTINES};
ghost use Rattle.cli_tables.specs.Arriving.{
  arriving_fault,
  first_above,
  first_fault,
  first_lone,
  least_rule,
  period_rule,
  rules_from,
  rules_of,
  said_of,
  slack_of,
};

use arrival_rules::ArrivalRule;
use cli_answers::{ArrivingFault, ArrivingWord};
use cli_requests::{RoutineTicks, SaidArriving};
use osek_base::{IsrId, MAX_ROUTINES, Name, System};
use std::alloc::{AllocError, Global};

/// The ticks that are said first of a routine.
pub fn said_of(said: &[RoutineTicks<'_>], routine: &str) -> Option<u32>
    ensures { result ≡ said_of said.now routine.now }
{
    for ticks in said {
        if ticks.routine == routine {
            return Some(ticks.ticks);
        }
    }
    None
}

fn slack_of(said: SaidArriving<'_>, routine: &str) -> u32
    ensures { result ≡ slack_of said.entry routine.now }
{
    if said_of(said.never, routine).is_some() {
        return 0;
    }
    said_of(said.jitter, routine).unwrap_or(0).saturating_add(1)
}

/// The rule of a routine's period and jitter.
fn period_rule(said: SaidArriving<'_>, number: IsrId, routine: &str) -> ArrivalRule
    ensures { result ≡ period_rule said.entry number routine.now }
{
    ArrivalRule {
        routine: number,
        period: said_of(said.apart, routine).unwrap_or(1),
        slack: slack_of(said, routine),
    }
}

/// Adds the rules of a routine.
fn put_rules_of(
    all: &mut Vec<ArrivalRule>,
    said: SaidArriving<'_>,
    number: IsrId,
    routine: &str,
) -> Result<(), AllocError>
    ensures { OnOk result (all.new.items ≡ all.old.items ++ rules_of said.entry number routine.now) }
{
    all.push(period_rule(said, number, routine))?;
    if let Some(ticks) = said_of(said.least, routine) {
        all.push(ArrivalRule {
            routine: number,
            period: ticks,
            slack: 1,
        })?;
    }
    Ok(())
}

fn rules_by(
    alloc: Global,
    routines: &[Name],
    said: SaidArriving<'_>,
) -> Result<Vec<ArrivalRule>, AllocError>
    requires { length routines.now ≤ MAX_ROUTINES }
    ensures { IfOk result (λ all. all.items ≡ rules_from said.entry 0 routines.now) }
{
    let mut all = Vec::new(alloc);
    for (number, name) in routines.iter().enumerate() {
        put_rules_of(&mut all, said, IsrId::new(number as u8), name.as_str())?;
    }
    Ok(all)
}

/// The rules of all routines, in declaration order: of each that of its period, a tick where none
/// is said, and behind it that of its least distance, where one is said.
pub fn all_rules(
    alloc: Global,
    system: &System,
    said: SaidArriving<'_>,
) -> Result<Vec<ArrivalRule>, AllocError>
    ensures { IfOk result (λ all. all.items ≡ rules_from said.entry 0 system.now.names.routines) }
{
    let names = system.names();
    rules_by(alloc, names.routines.as_slice(), said)
}

/// Whether a name is among some.
fn is_named(name: &str, names: &[Name]) -> bool
    ensures { result ≡ is_named name.now names.now }
{
    for known in names {
        if name == known.as_str() {
            return true;
        }
    }
    false
}

fn first_fault<'v>(
    word: ArrivingWord,
    routines: &[Name],
    said: &[RoutineTicks<'v>],
) -> Option<ArrivingFault<'v>>
    ensures { result ≡ first_fault word routines.now [] said.now }
{
    'said: for (number, ticks) in said.iter().enumerate() {
        let routine = ticks.routine;
        if !is_named(routine, routines) {
            return Some(ArrivingFault::Unknown(word, routine));
        }
        if said_of(&said[..number], routine).is_some() {
            return Some(ArrivingFault::Twice(word, routine));
        }
    }
    None
}

/// The first jitter of a routine of which no period is said.
fn first_lone<'v>(
    periods: &[RoutineTicks<'v>],
    jitters: &[RoutineTicks<'v>],
) -> Option<ArrivingFault<'v>>
    ensures { result ≡ first_lone periods.now jitters.now }
{
    for jitter in jitters {
        if said_of(periods, jitter.routine).is_none() {
            return Some(ArrivingFault::Lone(jitter.routine));
        }
    }
    None
}

/// The first least distance that is above the period.
fn first_above<'v>(
    periods: &[RoutineTicks<'v>],
    leasts: &[RoutineTicks<'v>],
) -> Option<ArrivingFault<'v>>
    ensures { result ≡ first_above periods.now leasts.now }
{
    for least in leasts {
        if said_of(periods, least.routine).unwrap_or(least.ticks) < least.ticks {
            return Some(ArrivingFault::Above(least.routine));
        }
    }
    None
}

/// What is wrong first with what is said of how interrupts come: it is of no routine, it is said
/// twice, a jitter is beside no period, or a least distance is above its period.
pub fn arriving_fault<'v>(system: &System, said: SaidArriving<'v>) -> Option<ArrivingFault<'v>>
    ensures { result ≡ arriving_fault system.now.names.routines said.entry }
{
    let names = system.names();
    let routines = names.routines.as_slice();
    first_fault(ArrivingWord::Apart, routines, said.apart)
        .or(first_fault(ArrivingWord::Jitter, routines, said.jitter))
        .or(first_fault(ArrivingWord::Least, routines, said.least))
        .or(first_fault(ArrivingWord::Never, routines, said.never))
        .or(first_lone(said.apart, said.jitter))
        .or(first_above(said.apart, said.least))
}
