//! The lines of a trace: their text, the view of a tick's records, and how they reach a sink by a
//! block of 4,096 bytes. `line_text` is exactly the line of a record. A tick's lines reach the
//! sink, or it failed after a beginning of them.
//!
//! - `write_tick`, of records whose instructions are their programs'; `write_tick_parts`, of a
//!   tick in parts; `write_idle_ticks`, of ticks in which nothing happens: the sink and the block
//!   gained exactly their lines, or the sink has failed after a beginning of them.
//! - `upper_view`: exactly the view's records.
#![tactic(auto)]

mod block;
mod block_digits;
mod block_outcome;
mod blocker_number;
mod idle_lines;
mod instruction_texts;
mod kept_text;
mod line;
mod program_texts;
mod short_text;
mod text;
mod tick_text;
mod view;
mod written_records;

pub use block::Block;
pub use blocker_number::BlockerNumber;
pub use idle_lines::{IdleWord, write_idle_ticks};
pub use instruction_texts::InstructionTexts;
pub use line::{LineText, line_text};
pub use tick_text::TickText;
pub use view::{upper_view, upper_view_into};
pub use written_records::{write_from_executed, write_tick, write_tick_parts};
