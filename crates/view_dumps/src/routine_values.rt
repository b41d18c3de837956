//! Value change dumps: the variables of an interrupt routine.

ghost use Rattle.std.specs.Prelude.{◌≡◌, ◌+◌, ◌≤◌, ◌++◌, length};
ghost use Rattle.view_dumps.specs.Ticks.{no_routine_values, routine_after, routine_text};

use crate::dump_text::{DumpText, TEXT_SIZE, push_wire};
use crate::last_flag::LastFlag;
use crate::variable::Variable;
use osek_base::IsrId;
use seen_ticks::RoutineSeen;

/// The values with which the wires of a routine were last written.
#[derive(Clone, Copy)]
pub struct RoutineValues {
    pub pending: LastFlag,
    pub active: LastFlag,
}

/// Nothing was written yet.
impl Default for RoutineValues {
    fn default() -> Self
        ensures { result ≡ no_routine_values }
    {
        RoutineValues {
            pending: LastFlag::default(),
            active: LastFlag::default(),
        }
    }
}

impl RoutineValues {
    /// Appends what changes with what is seen of the routine.
    #[inline(always)]
    pub(crate) fn push_changes(&mut self, routine: IsrId, seen: &RoutineSeen, text: &mut DumpText)
        requires { length text.old + 8 ≤ TEXT_SIZE }
        ensures same { text.new ≡ text.old ++ routine_text routine self.old seen.now }
        ensures after { self.new ≡ routine_after self.old seen.now }
        ensures short { length text.new ≤ length text.old + 8 }
    {
        if let Some(is_pending) = self.pending.change_to(seen.is_pending) {
            push_wire(Variable::Pending(routine), is_pending, text);
        }
        if let Some(is_active) = self.active.change_to(seen.executes) {
            push_wire(Variable::Active(routine), is_active, text);
        }
    }
}
