//! The ground of everything: types that keep their limits, a configured `System`, the words and
//! tokens of texts, and in `specs/` all definitions that contracts cite. A `System` is proper by
//! its type, and each of its readers answers exactly the word of the definitions.
//!
//! - Numbers of objects, registers and places keep their limits by their types.
//! - A `System` is made only of parts that are shown to be proper. Its readers (`priority_of`,
//!   `ceiling`, `instruction_at` and so on) answer exactly what the definitions say. Ceilings are
//!   computed once.
//! - `Names` gives exactly the name of an object. `task_order`: by falling priority, ties in
//!   declaration order.
//! - `Arrivals::new`: exactly the lists in order and within the limits.
//! - `word_at`, `number_at`, `line_len`: exactly the word, the number and the line at the front
//!   of a text. `lexing`: exactly its tokens.
#![tactic(auto)]

mod arrivals;
mod ceilings;
mod executed;
mod ids;
mod instr;
pub mod lexing;
mod limits;
mod names;
mod numbering;
mod parts;
mod program;
mod status;
mod system;
mod task;
mod tick_record;
mod trace_event;
pub mod words;

pub use arrivals::{Arrival, Arrivals};
pub use executed::Executed;
pub use ids::{
    AlarmId, CounterId, IsrId, ModeId, Owner, Place, Register, ResId, ResourceNumber, TaskId,
};
pub use instr::{Comparison, Control, Instr, Operation, Plain, Service};
pub use limits::{
    MAX_ACTIVATION, MAX_ALARMS, MAX_ARRIVALS, MAX_COUNTERS, MAX_COUNTS, MAX_EVENTS,
    MAX_INSTRUCTIONS, MAX_MODES, MAX_NAME, MAX_RECORDS, MAX_RESOURCES, MAX_ROUTINE_PRIORITY,
    MAX_ROUTINES, MAX_TASK_PRIORITY, MAX_TASKS, MAX_TICKS, REGISTERS, SHARED_WORDS, WINDOW_WORDS,
};
pub use names::{Name, Names};
pub use numbering::task_order;
pub use parts::Parts;
pub use program::{Line, Program};
pub use status::{Class, Status, TaskState};
pub use system::System;
pub use task::{Action, Alarm, AlarmStart, Counter, Hooks, Property, Routine, Schedule, Task};
pub use tick_record::{Entry, TickRecord};
pub use trace_event::{Effect, Outcome, Results, Source, TraceEvent};
