//! The limits of a system, and of what it is run with. OIL sets some of them, this profile the others.

/// How many tasks there are at most. OIL: TASK.
pub const MAX_TASKS: usize = 64;

/// The highest PRIORITY of a task; the lowest is 0.
pub const MAX_TASK_PRIORITY: u8 = 63;

/// The greatest ACTIVATION of a task, in jobs; the least is 1.
pub const MAX_ACTIVATION: u8 = 15;

/// How many interrupt routines there are at most. OIL: ISR.
pub const MAX_ROUTINES: usize = 16;

/// The highest PRIORITY of an interrupt routine; the lowest is 0.
pub const MAX_ROUTINE_PRIORITY: u8 = 31;

/// How many declared resources there are at most. OIL: RESOURCE.
pub const MAX_RESOURCES: usize = 32;

/// How many events there are at most: a mask has a bit for each. OIL: EVENT.
pub const MAX_EVENTS: usize = 32;

/// How many counters there are at most. OIL: COUNTER.
pub const MAX_COUNTERS: usize = 8;

/// The greatest MAXALLOWEDVALUE of a counter, in counts; the least is 1.
pub const MAX_COUNTS: u32 = 2_147_483_647;

/// How many alarms there are at most. OIL: ALARM.
pub const MAX_ALARMS: usize = 64;

/// How many application modes there are at most; there is at least one. OIL: APPMODE.
pub const MAX_MODES: usize = 8;

/// How many bytes a name has at most; it has at least one.
pub const MAX_NAME: usize = 32;

/// How many instructions a program has at most.
pub const MAX_INSTRUCTIONS: usize = 1024;

/// How many registers the modelled processor has.
pub const REGISTERS: usize = 8;

/// How many words there are in the window of a task or a routine.
pub const WINDOW_WORDS: usize = 64;

/// How many words there are in the window of a standard resource.
pub const SHARED_WORDS: usize = 16;

/// How many interrupt requests an arrival list has at most.
pub const MAX_ARRIVALS: usize = 65_536;

/// How many ticks a run has at most.
pub const MAX_TICKS: u32 = 1_000_000;

/// How many records a tick has at most.
pub const MAX_RECORDS: usize = 72;
