//! The ready list: for each level the tasks that are ready there, oldest first. The first task of
//! the highest level runs next. Each call changes just the level that it names.
//!
//! [`ReadyQueues`] says what a kernel asks of such a list, as an equation a call over the
//! function from levels to tasks. Puts add at the end or at the front of one level and change no
//! other; `take_first` takes the first of the highest level that has a task; the room never
//! changes. [`ListQueues`] is the plain way, which goes through the levels; [`LevelQueues`] reads
//! the highest level off one word. Both meet it.
//!
//! A caller names the laws of `proofs/QueueLaws` by `using(..)`; one that is seen with a list of
//! the levels has those of `proofs/LevelLists` and `proofs/ListMoves`.
//!
//! OSEK/VDX OS: task management, scheduling policy.
#![tactic(auto)]

mod level;
mod level_queues;
mod level_set;
mod list_queues;
mod ready_queues;

pub use level_queues::LevelQueues;
pub use list_queues::ListQueues;
pub use ready_queues::{LEVELS, ReadyQueues};
