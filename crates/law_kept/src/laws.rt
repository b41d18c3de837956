//! The laws, one function each. The functions are empty: the clause is the law.
//!
//! A *standing step* leaves a standing state, and what it answers, records and leaves is what
//! the step of the same name does over what is kept.

ghost use Rattle.law_kept.specs.KeptTick.{BootsAlike, TicksAlike};
ghost use Rattle.law_kept.specs.Quiet.{QuietTicks};
ghost use Rattle.law_kept.specs.Standing.{ActionKeepsReady, ActivateStands, AdvanceStands, BeforeAlike, ControlStands, FewNested, FitsWhereStanding, FlagStands, JobMoveStands, ReadyBetweenTicks, RescheduleStands, RoutineMoveStands, ServesInRuns, ServiceStands, SetEventStands, StartStands, StartedStands, StillStands};

/// What is kept of a standing state fits: tasks and places exist, no task has too many jobs,
/// and the queues have room for a job that stands in none.
pub fn fits_where_standing()
    ensures { FitsWhereStanding }
{}

/// The state before boot stands, and nothing is kept of it but zeros.
pub fn still_stands()
    ensures { StillStands }
{}

/// The alarms that start with a mode leave a standing state.
pub fn started_stands()
    ensures { StartedStands }
{}

/// ActivateTask by an alarm, or at boot, is a standing step.
pub fn activate_stands()
    ensures { ActivateStands }
{}

/// SetEvent by an alarm is a standing step, where the running job doesn't wait.
pub fn set_event_stands()
    ensures { SetEventStands }
{}

/// A service of whoever executes is a standing step, where one may be called.
pub fn service_stands()
    ensures { ServiceStands }
{}

/// A service without a status, as of interrupts, is a standing step.
pub fn control_stands()
    ensures { ControlStands }
{}

/// A reschedule is a standing step.
pub fn reschedule_stands()
    ensures { RescheduleStands }
{}

/// A tick more, with the alarms that it makes advance, leaves a standing state.
pub fn advance_stands()
    ensures { AdvanceStands }
{}

/// A pending flag leaves a standing state.
pub fn flag_stands()
    ensures { FlagStands }
{}

/// The start of a pending routine is a standing step.
pub fn start_stands()
    ensures { StartStands }
{}

/// The running job's other registers and place are a standing step.
pub fn job_move_stands()
    ensures { JobMoveStands }
{}

/// The active routine's other registers and place leave a standing state.
pub fn routine_move_stands()
    ensures { RoutineMoveStands }
{}

/// Between the ticks of a run the running job doesn't wait.
pub fn ready_between_ticks()
    ensures { ReadyBetweenTicks }
{}

/// After the action of an alarm the running job doesn't wait, where it didn't before.
pub fn action_keeps_ready()
    ensures { ActionKeepsReady }
{}

/// Phases 1 to 4 of each tick of a run record and leave what they do over what is kept.
pub fn before_alike()
    ensures { BeforeAlike }
{}

/// In each tick of a run a service may be called where the instruction is executed.
pub fn serves_in_runs()
    ensures { ServesInRuns }
{}

/// In each tick of a run the nesting counts are no greater than the number of ticks before it.
pub fn few_nested()
    ensures { FewNested }
{}

/// Boot records and leaves what it does over what is kept.
pub fn boots()
    ensures { BootsAlike }
{}

/// Each tick of a run records and leaves what it does over what is kept.
pub fn ticks()
    ensures { TicksAlike }
{}

/// A tick of a quiet state, in which no alarm is due and no interrupt arrives, records that nobody executes, and leaves all else
/// as it was.
pub fn quiet_ticks()
    ensures { QuietTicks }
{}
