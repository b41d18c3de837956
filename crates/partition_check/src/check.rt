//! Partitions. The check of the seven rules.

ghost use Rattle.std.specs.Prelude.{◌≡◌, ◌↔◌, IsOk, OnOk, IfErr, IfSome};
ghost use Rattle.osek_base.specs.Laws.{IsIsolated, IsItsUpperPart};
ghost use Rattle.osek_base.specs.Names.{HasOwner};
ghost use Rattle.osek_base.specs.Separable.{Separable, IsOwner, first_denial};
ghost use Rattle.partition_check.specs.Partition.{told, denied};

use crate::denial::{Denial, Rule};
use crate::programs::{first_in_routines, first_in_tasks};
use crate::tasks::{first_listing, first_not_full};
use osek_base::System;

/// Checks that the upper part of a system at p, 0 to the highest task priority, is separable from the lower one. Upper are the tasks of priority p
/// or more, all routines, the resources of ceiling p or more, and the alarms that act on upper tasks. A denial is the first:
/// the lowest rule broken, its first subject (tasks by number, then routines as declared), and its first place.
///
/// Where the answer is Ok, whatever stands below can neither delay nor disturb the upper part: every proper system that is
/// separable at p and agrees with this one from p upward has the same view at p, in every mode, under every arrival list and
/// for every number of ticks. So has its upper part run by itself.
pub fn check_partition(system: &System, p: u8) -> Result<(), Denial>
    ensures denies { denied result ≡ first_denial system.now p }
    ensures accepts { IsOk result ↔ Separable system.now p }
    ensures subject { IfErr result (λ d. HasOwner system.now.names d.subject) }
    ensures isolated { OnOk result (IsIsolated system.now p) }
    ensures by_itself { OnOk result (IsItsUpperPart system.now p) }
{
    system.shows_proper();
    match first_denial(system, p) {
        None => Ok(()),
        Some(denial) => Err(denial),
    }
}

/// The first denial of all rules in turn.
fn first_denial(system: &System, p: u8) -> Option<Denial>
    ensures first { told result ≡ first_denial system.now p }
    ensures subject { IfSome result (λ d. IsOwner system.now d.subject) }
{
    first_not_full(system, p, 0)
        .or(first_listing(system, p, 0))
        .or(first_in_tasks(system, p, false, Rule::NoScheduler, 0))
        .or(first_in_tasks(system, p, false, Rule::NoControl, 0))
        .or(first_in_tasks(system, p, false, Rule::LowerNames, 0))
        .or(first_in_tasks(system, p, true, Rule::UpperNames, 0))
        .or(first_in_routines(system, p, Rule::UpperNames, 0))
        .or(first_in_routines(system, p, Rule::NoTaskId, 0))
}
