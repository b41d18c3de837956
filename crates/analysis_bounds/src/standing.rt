//! Between which bounds the dynamic priority of a job at a node lies, and what counts there.

ghost use Rattle.std.specs.Prelude.{◌≡◌, map};
ghost use Rattle.osek_base.specs.Ceiling.{ceiling};
ghost use Rattle.osek_base.specs.Lists.{greatest};
ghost use Rattle.osek_base.specs.System.{priority_of, routine};
ghost use Rattle.law_windows.specs.Work.{goes_at, level_of_routine};
ghost use Rattle.law_costs.specs.Left.{is_off};
ghost use Rattle.law_costs.specs.Paying.{is_upper};
ghost use Rattle.law_nodes.specs.Paid.{lowest, may_rise};
ghost use Rattle.law_nodes.specs.Prices.{highest, may_count, stays_counted};
ghost use Rattle.analysis_nodes.specs.Nodes.{node_by, switch_by};
ghost use Rattle.analysis_bounds.specs.Checks.{is_counted, leaves_section};

use analysis_nodes::{Node, Switch};
use osek_base::{Owner, ResId, System};

/// Whether interrupts are off.
pub(crate) fn is_off(switch: &Switch) -> bool
    ensures { result ≡ is_off (switch_by switch.now) }
{
    switch.disabled || switch.suspended_all > 0 || switch.suspended_os > 0
}

/// The static priority of the task of a number; 0 where there is none.
pub(crate) fn priority_of(system: &System, task: usize) -> u8
    ensures { result ≡ priority_of system.now task }
{
    match system.parts().tasks.get(task) {
        None => 0,
        Some(task) => task.priority,
    }
}

/// The PRIORITY of the routine of a number; 0 where there is none.
fn routine_priority(system: &System, number: usize) -> u8
    ensures { result ≡ (routine system.now number).priority }
{
    match system.parts().routines.get(number) {
        None => 0,
        Some(own) => own.priority,
    }
}

/// The level of a routine: above all tasks, by its priority.
pub(crate) fn level_of_routine(system: &System, routine: usize) -> usize
    ensures { result ≡ level_of_routine system.now routine }
{
    usize::from(system.top_priority()) + 1 + usize::from(routine_priority(system, routine))
}

/// Whether a routine is of a level, as all are up to the one just above all tasks.
pub(crate) fn goes_at(system: &System, level: usize, routine: usize) -> bool
    ensures { result ≡ goes_at system.now level routine }
{
    level <= level_of_routine(system, routine)
}

/// Whether a task is of the level of a priority.
pub(crate) fn is_upper(system: &System, priority: u8, task: usize) -> bool
    ensures { result ≡ is_upper system.now priority task }
{
    priority <= priority_of(system, task)
}

/// The greatest ceiling of some resources, 0 where there is none.
fn greatest_ceiling(system: &System, held: &[ResId]) -> u8
    ensures { result ≡ greatest (map (ceiling system.now) held.now) }
{
    match held.split_first() {
        None => 0,
        Some((first, rest)) => {
            let ceiling = system.ceiling(*first);
            ceiling.max(greatest_ceiling(system, rest))
        }
    }
}

/// The dynamic priority at most: as if the internal resource is taken.
fn highest(system: &System, owner: &Owner, held: &[ResId]) -> u8
    ensures { result ≡ highest system.now owner.now held.now }
{
    match owner {
        Owner::Task(task) => {
            let internal = system.internal_ceiling(*task).unwrap_or(0);
            let taken = greatest_ceiling(system, held).max(internal);
            priority_of(system, task.number() as usize).max(taken)
        }
        Owner::Routine(_) => 0,
    }
}

/// .. and at least: as if it isn't.
fn lowest(system: &System, owner: &Owner, held: &[ResId]) -> u8
    ensures { result ≡ lowest system.now owner.now held.now }
{
    match owner {
        Owner::Task(task) => {
            let taken = greatest_ceiling(system, held);
            priority_of(system, task.number() as usize).max(taken)
        }
        Owner::Routine(_) => 0,
    }
}

/// Whether a job at a node may count at a level: it doesn't wait, and interrupts are off or its
/// dynamic priority may be of the level.
pub(crate) fn may_count(system: &System, priority: u8, node: &Node) -> bool
    ensures { result ≡ may_count system.now priority (node_by node.now) }
{
    let waits = node.waits_for.is_some();
    let off = is_off(&node.switch);
    let highest = highest(system, &node.owner, &node.held);
    !waits && (off || priority <= highest)
}

/// Whether a job at a node counts at a level behind its instruction in any case: interrupts are off,
/// so all services are refused, and with its internal resource its priority is of the level.
fn stays_counted(system: &System, priority: u8, node: &Node) -> bool
    ensures { result ≡ stays_counted system.now priority (node_by node.now) }
{
    let off = is_off(&node.switch);
    let highest = highest(system, &node.owner, &node.held);
    off && priority <= highest
}

/// Whether a dispatch may begin a section behind the instruction at a node: interrupts are off there
/// for a job, and it need not count behind that.
pub(crate) fn leaves_section(system: &System, priority: u8, node: &Node) -> bool
    ensures { result ≡ leaves_section node.now.owner system.now priority (node_by node.now) }
{
    match &node.owner {
        Owner::Task(_) => is_off(&node.switch) && !stays_counted(system, priority, node),
        Owner::Routine(_) => false,
    }
}

/// Whether a dispatch may raise a job at a node to a level.
pub(crate) fn may_rise(system: &System, priority: u8, node: &Node) -> bool
    ensures { result ≡ may_rise system.now priority (node_by node.now) }
{
    let waits = node.waits_for.is_some();
    let off = is_off(&node.switch);
    let lowest = lowest(system, &node.owner, &node.held);
    let highest = highest(system, &node.owner, &node.held);
    !waits && !off && lowest < priority && priority <= highest
}

/// Whether somebody of an owner that is at a node may count: a routine always does.
pub(crate) fn is_counted(system: &System, priority: u8, owner: &Owner, node: &Node) -> bool
    ensures { result ≡ is_counted owner.now system.now priority (node_by node.now) }
{
    match owner {
        Owner::Task(_) => may_count(system, priority, node),
        Owner::Routine(_) => true,
    }
}
