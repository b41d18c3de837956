//! Value change dumps (IEEE 1364-2005, clause 18) of what is seen of a run, for waveform viewers.
//! The sink gains exactly the dump's text, or a beginning of it and a write failed. A value is
//! written exactly where it changes.
//!
//! A unit of time is a tick of the model and says nothing of seconds.
//!
//! - `begin`, `observe`, `observe_alike` and `end`: at Ok the sink gained exactly the text of the
//!   declarations, of the tick, of the ticks in which the same is seen, or of the last line. At
//!   an error it gained a beginning of that text and has failed.
//! - The text of a tick goes by what each variable was last written with and by what is seen of
//!   its own task, routine, resource or alarm. Behind it each variable was last written with what
//!   the definitions say.
//! - Ticks in which the same is seen and no event fires leave the text and the dump that they
//!   leave one after another (`IsEach`).
//! - `LastExecutor`, `LastState`, `LastFlag`, `LastNumber`, `LastByte`: a value is written
//!   exactly where it isn't equal to the one written last, so what a viewer shows is the value.
#![tactic(auto)]

mod declarations;
mod dump_text;
mod events;
mod last_byte;
mod last_executor;
mod last_flag;
mod last_number;
mod last_state;
mod last_values;
mod names;
mod routine_values;
mod task_values;
mod tick_page;
mod time_front;
mod value_changes;
mod variable;

pub use last_byte::LastByte;
pub use last_executor::LastExecutor;
pub use last_flag::{FlagCode, LastFlag};
pub use last_number::LastNumber;
pub use last_state::{LastState, StateCode};
pub use last_values::LastValues;
pub use routine_values::RoutineValues;
pub use task_values::TaskValues;
pub use value_changes::ValueChanges;
pub use variable::Variable;
