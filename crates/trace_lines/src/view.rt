//! Partitions. The view of a tick at a priority.

ghost use Rattle.std.specs.Prelude.{◌≡◌};
ghost use Rattle.osek_base.specs.Upper.{is_upper_owner};
ghost use Rattle.osek_base.specs.View.{is_upper_source, shown, view_records};

use osek_base::{Owner, Source, System, TickRecord, TraceEvent};
use partition_check::{is_upper_alarm, is_upper_task};

/// Whether a task is upper; routines are.
fn is_upper_owner(system: &System, p: u8, owner: Owner) -> bool
    ensures { result ≡ is_upper_owner system.now p owner }
{
    match owner {
        Owner::Task(task) => is_upper_task(system, p, task),
        Owner::Routine(_) => true,
    }
}

/// Whether an error is of an upper task, of a routine, or of an alarm that acts on an upper task.
fn is_upper_source(system: &System, p: u8, source: Source) -> bool
    ensures { result ≡ is_upper_source system.now p source }
{
    match source {
        Source::Owner(owner) => is_upper_owner(system, p, owner),
        Source::Alarm(alarm) => is_upper_alarm(system, p, alarm),
    }
}

/// What the view shows of a record, if anything.
fn shown(system: &System, p: u8, event: &TraceEvent) -> Option<TraceEvent>
    ensures { result ≡ shown system.now p event.now }
{
    match event {
        TraceEvent::Startup | TraceEvent::Shutdown(_) => Some(*event),
        TraceEvent::Pre(task) | TraceEvent::Post(task) => {
            is_upper_task(system, p, *task).then_some(*event)
        }
        TraceEvent::Error(who, _, _) => is_upper_source(system, p, *who).then_some(*event),
        TraceEvent::Executed(who, _, _, _) if is_upper_owner(system, p, *who) => Some(*event),
        TraceEvent::Executed(_, _, _, _) | TraceEvent::Idle | TraceEvent::Other => {
            Some(TraceEvent::Other)
        }
    }
}

/// The view of a tick's records at a priority: `other` in place of idle and of each instruction of
/// a task below p, and nothing of what else is of tasks below p or of alarms that act on them. It
/// takes no memory and refuses nothing.
pub fn upper_view(system: &System, p: u8, records: &TickRecord) -> TickRecord
    ensures { result ≡ view_records system.now p records.now }
{
    let mut view = TickRecord::new();
    upper_view_into(system, p, records, &mut view);
    view
}

/// As `upper_view`, in place of what `view` has: a list that is used again needn't be filled anew.
pub fn upper_view_into(system: &System, p: u8, records: &TickRecord, view: &mut TickRecord)
    ensures { view.new ≡ view_records system.now p records.now }
{
    view.clear();
    'entries: for entry in records.entries() {
        if let Some(event) = shown(system, p, entry.event()) {
            view.push(event);
        }
    }
}
