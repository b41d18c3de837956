//! The check, and what is the same where it accepts.

ghost use Rattle.std.specs.Prelude.{◌≡◌, ◌↔◌, IsOk, OnOk, IfErr};
ghost use Rattle.osek_base.specs.Laws.{IsIsolated, IsItsUpperPart};
ghost use Rattle.osek_base.specs.Names.{HasOwner};
ghost use Rattle.osek_base.specs.Separable.{Separable, first_denial};
ghost use Rattle.partition_check.specs.Partition.{denied};
ghost use Rattle.law_upper.specs.ShownAbove.{TicksShowTheSame};
ghost use Rattle.partition_isolation.specs.Everywhere.{IsTheSameEverywhere};
ghost use Rattle.partition_isolation.specs.SameFigures.{FiguresAreTheSame};

use law_upper::upper_parts_show_the_same;
use osek_base::System;
use partition_check::{Denial, check_partition};

/// Checks that the upper part of a system at p, 0 to the highest task priority, is separable from
/// the lower one. What is upper and which denial is told, `check_partition` says.
///
/// Where the answer is Ok, whatever stands below can neither delay nor disturb the upper part. The
/// system's upper part run by itself, and every proper system that is separable at p and agrees
/// with this one from p upward, has the same view at p, in every mode, under every arrival list and
/// for every number of ticks. Each tick shows the same of upper tasks (their states, priorities,
/// jobs and refusals, and whether they are READY while a lower task executes), of routines (what
/// arrives, is lost and starts), of who holds upper resources, of upper alarms, and of the services
/// of upper tasks and routines that fail. So all figures of these are the same: of upper tasks all
/// but the number of blockers.
pub fn check_isolation(system: &System, p: u8) -> Result<(), Denial>
    ensures denies { denied result ≡ first_denial system.now p }
    ensures accepts { IsOk result ↔ Separable system.now p }
    ensures subject { IfErr result (λ d. HasOwner system.now.names d.subject) }
    ensures isolated { OnOk result (IsIsolated system.now p) }
    ensures by_itself { OnOk result (IsItsUpperPart system.now p) }
    ensures shown { OnOk result (IsTheSameEverywhere TicksShowTheSame system.now p) }
    ensures figures { OnOk result (IsTheSameEverywhere FiguresAreTheSame system.now p) }
{
    system.shows_proper();
    upper_parts_show_the_same();
    check_partition(system, p)
}
