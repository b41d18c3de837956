//! What is counted of a level.

/// Costs of a level: of its routines, and of the tasks from a static priority upward. All are
/// counts of instructions, so ticks.
#[derive(Drop)]
pub struct Level {
    /// Its number: the least static priority of its tasks, or above all tasks that of its routines.
    pub priority: u8,
    /// Of an activation, by task; 0 of a task below the level.
    pub tasks: Vec<u64>,
    /// Of an event that is set, by task and event: of the event of bit b of task t the number
    /// stands at `t * MAX_EVENTS + b`.
    pub sets: Vec<u64>,
    /// Of what follows the wait that goes on by an event that was set early, likewise.
    pub holds: Vec<u64>,
    /// Of the section of a task below the level that a dispatch begins.
    pub section: u64,
    /// Of an interrupt, by routine; 0 of a routine below the level.
    pub arrivals: Vec<u64>,
    /// Of an expiry, by alarm; 0 where the alarm pays when it is set.
    pub expiries: Vec<u64>,
    /// Of an alarm that is set, where who sets it pays for its expiry, by alarm; 0 of any other one.
    pub alarms: Vec<u64>,
    /// Of what may be left where a window begins with the run, all alarms among it that pay when
    /// they are set.
    pub at_boot: u64,
    /// Of what may be left where one begins later, likewise.
    pub at_begin: u64,
    /// Of who stands at a node, by node.
    pub prices: Vec<u64>,
}
