//! No code: small systems whose runs the prover computes from the definitions. They give the
//! lines that the specification asks for of 31 runs.
//!
//! Each function is empty. Its clause is a record of runs. There are also the views of three
//! partitions and of two upper parts by themselves, twelve verdicts of the partition check, four
//! classes, five counts of blockers, and a trace with the numbers of blockers.
#![tactic(auto)]

ghost use Rattle.test_runs.specs.AlarmRuns.{AlarmRuns};
ghost use Rattle.test_runs.specs.EventRuns.{EventRuns};
ghost use Rattle.test_runs.specs.InterruptRuns.{InterruptRuns};
ghost use Rattle.test_runs.specs.PartitionRuns.{PartitionRuns};
ghost use Rattle.test_runs.specs.ResourceRuns.{ResourceRuns};
ghost use Rattle.test_runs.specs.TaskRuns.{TaskRuns};

/// Tasks: activation, preemption, ends, chaining, Schedule, plain instructions and a shutdown.
pub fn tasks()
    ensures { TaskRuns }
{}

/// Resources, RES_SCHEDULER and internal resources, with the blockers of each job that becomes
/// ready.
pub fn resources()
    ensures { ResourceRuns }
{}

/// Events, and classes of systems with extended tasks.
pub fn events()
    ensures { EventRuns }
{}

/// Counters and alarms.
pub fn alarms()
    ensures { AlarmRuns }
{}

/// Routines, and interrupts off.
pub fn interrupts()
    ensures { InterruptRuns }
{}

/// Checks of partitions, views, and upper parts by themselves.
pub fn partitions()
    ensures { PartitionRuns }
{}
