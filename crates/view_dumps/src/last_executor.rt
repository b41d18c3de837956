//! Value change dumps: who executes is written where that changes.

ghost use Rattle.std.specs.Prelude.{◌≡◌, None, Some};
ghost use Rattle.view_dumps.specs.Changes.{shown, written};
ghost use Rattle.view_dumps.specs.Kept.{kept_executor};
ghost use Rattle.view_dumps.specs.Ticks.{same_option, same_owner};

use osek_base::Owner;
use std::marker::Model;

/// As what nobody is kept, and what is kept where nothing was written; the numbers of a byte are
/// tasks, and routines stand behind both.
const NOBODY: u16 = 256;

const NOTHING: u16 = 257;

const ROUTINES: u16 = 258;

/// Who was last written to execute, if that was written: a task, a routine or nobody. Seen as that
/// option. It is kept as one number, so that one comparison tells whether it changes.
#[derive(Clone, Copy)]
pub struct LastExecutor {
    code: u16,
}

impl Model for LastExecutor {
    ghost use Rattle.std.specs.Prelude.{Option};
    ghost use Rattle.osek_base.specs.declared.ids.Owner.{Owner};
    ghost use Rattle.view_dumps.specs.Kept.{executor_again, executor_code, kept_executor};

    ghost Value = { Option (Option Owner) };

    ghost view = { λ l. kept_executor l.code };

    ghost inverse = { λ who. record { code = executor_code who } };

    ghost inverse_ok = { λ l h i. record { code = executor_again l.code i } };
}

/// Nothing was written yet.
impl Default for LastExecutor {
    fn default() -> Self
        ensures { result ≡ None }
    {
        LastExecutor { code: NOTHING }
    }
}

/// As what somebody or nobody is kept.
#[inline(always)]
fn code_of(who: &Option<Owner>) -> u16
    ensures { kept_executor result ≡ Some who.now }
{
    match who {
        None => NOBODY,
        Some(Owner::Task(task)) => u16::from(task.number()),
        Some(Owner::Routine(routine)) => u16::from(routine.number()) + ROUTINES,
    }
}

impl LastExecutor {
    /// That one executes now, or nobody. The answer is what is to be written: nothing, where it was
    /// written last.
    #[inline(always)]
    pub(crate) fn change_to(&mut self, who: &Option<Owner>) -> Option<Option<Owner>>
        ensures written { result ≡ written (same_option same_owner) self.old who.now }
        ensures last { self.new ≡ shown self.old result }
    {
        let code = code_of(who);
        if self.code == code {
            return None;
        }
        self.code = code;
        Some(*who)
    }
}
