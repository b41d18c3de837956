//! Which labels of a node others have raised.

use osek_base::{MAX_RESOURCES, MAX_ROUTINES, MAX_TASKS, System};
use search_labels::Labels;
use view_measures::{Figure, Measure, held_count};

/// How many things of a kind are told apart; of those beyond, nothing is raised.
const MAX_THINGS: usize = 64;

const _: () = prove!(MAX_TASKS <= MAX_THINGS);

const _: () = prove!(MAX_ROUTINES <= MAX_THINGS);

// RES_SCHEDULER is one more.
const _: () = prove!(MAX_RESOURCES + 1 <= MAX_THINGS);

/// The things of which others raise the labels, as sets by number.
#[derive(Clone, Copy)]
pub struct Raised {
    tasks: u64,
    routines: u64,
    resources: u64,
}

/// A set with one thing more.
fn with(set: u64, thing: usize) -> u64 {
    if thing < MAX_THINGS {
        set | (1 << thing)
    } else {
        set
    }
}

/// Whether a thing is in a set.
fn has(set: u64, thing: usize) -> bool {
    thing < MAX_THINGS && (set >> thing) % 2 == 1
}

impl Raised {
    /// Those of a system of which other labels tell longer times than labels do.
    pub(crate) fn by(system: &System, labels: &Labels, others: &Labels) -> Self {
        let mut raised = Raised {
            tasks: 0,
            routines: 0,
            resources: 0,
        };
        for task in 0..system.task_count() {
            if !labels.has_older_jobs(others, task) || !labels.has_more_blocked(others, task) {
                raised.tasks = with(raised.tasks, task);
            }
        }
        for routine in 0..system.routine_count() {
            if !labels.has_older_interrupt(others, routine) {
                raised.routines = with(raised.routines, routine);
            }
        }
        for resource in 0..held_count(system) {
            if !labels.has_longer_hold(others, resource) {
                raised.resources = with(raised.resources, resource);
            }
        }
        raised
    }

    /// Whether the label by which a figure goes is raised.
    pub(crate) fn has(self, figure: Figure) -> bool {
        match figure.measure {
            Measure::Response | Measure::Blocked | Measure::Blockers => {
                has(self.tasks, figure.number)
            }
            Measure::Latency => has(self.routines, figure.number),
            Measure::Hold => has(self.resources, figure.number),
            Measure::Jobs
            | Measure::Refusal
            | Measure::Errors
            | Measure::Loss
            | Measure::RoutineErrors
            | Measure::RefusedAction
            | Measure::Shutdown => false,
        }
    }
}
