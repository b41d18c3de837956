//! Value change dumps: a task's state is written where it changes.

ghost use Rattle.std.specs.Prelude.{◌≡◌, None};
ghost use Rattle.view_dumps.specs.Changes.{shown, written};
ghost use Rattle.view_dumps.specs.States.{state_code};
ghost use Rattle.view_dumps.specs.Ticks.{same_state};

use osek_base::TaskState;
use std::marker::Model;

/// A state, or that nothing was written.
#[derive(Clone, Copy, PartialEq, Eq)]
pub enum StateCode {
    Running,
    Waiting,
    Ready,
    Suspended,
    Nothing,
}

/// The state with which a variable was last written, if it was. Seen as that option. It is kept as
/// one of five, so that one comparison tells whether it changes.
#[derive(Clone, Copy)]
pub struct LastState {
    code: StateCode,
}

impl Model for LastState {
    ghost use Rattle.std.specs.Prelude.{Option};
    ghost use Rattle.osek_base.specs.declared.status.TaskState.{TaskState};
    ghost use Rattle.view_dumps.specs.States.{kept_state, state_again, state_kept};

    ghost Value = { Option TaskState };

    ghost view = { λ l. kept_state l.code };

    ghost inverse = { λ state. record { code = state_kept state } };

    ghost inverse_ok = { λ l h i. record { code = state_again l.code i } };
}

/// Nothing was written yet.
impl Default for LastState {
    fn default() -> Self
        ensures { result ≡ None }
    {
        LastState {
            code: StateCode::Nothing,
        }
    }
}

/// As what a state is kept.
#[inline(always)]
fn code_of(state: TaskState) -> StateCode
    ensures { result ≡ state_code state }
{
    match state {
        TaskState::Running => StateCode::Running,
        TaskState::Waiting => StateCode::Waiting,
        TaskState::Ready => StateCode::Ready,
        TaskState::Suspended => StateCode::Suspended,
    }
}

impl LastState {
    /// The variable has this state now. The answer is what is to be written: nothing, where the
    /// state was written last.
    #[inline(always)]
    pub(crate) fn change_to(&mut self, state: TaskState) -> Option<TaskState>
        ensures written { result ≡ written same_state self.old state }
        ensures last { self.new ≡ shown self.old result }
    {
        let code = code_of(state);
        if self.code == code {
            return None;
        }
        self.code = code;
        Some(state)
    }
}
