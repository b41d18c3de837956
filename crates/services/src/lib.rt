//! The system services, over a ready list by level: tasks, interrupts, alarms, events, resources
//! and shared words, one file a chapter. From every state, `serve` answers exactly the status and
//! results of the definitions' service, and leaves exactly its state.
//!
//! A `Core` stands by its type for a standing state of the definitions, over queues of any kind.
//!
//! - `serve`: status and results are exactly those of the definitions' service, the core stands
//!   for the state after it, and so does what is kept. `control`: the same of a service without a
//!   status. `activate`, `set_event`: the same of their rows, without the answer 32.
//! - `new`: the core stands for the state before boot. `copy_from`: a core of the same system
//!   becomes exactly another. `objects` lends all that it keeps.
//! - `executor`, `exec_packed`: exactly who executes, and its plain instruction.
//! - `reschedule`: exactly the switch and its records. It answers who ran, if that job is still
//!   there and doesn't wait.
//! - `steady_task`: a task only where its instruction is all that comes next (`IsSteady`), and
//!   then one that is at a place of its program.
//! - `is_quiet`: true only where no task runs or is ready and no routine is active or pending.
//!   `pass`: exactly the ticks pass, of so many, that come before the next in which an alarm is
//!   due.
//! - `CompactQueues`: ready queues in one list, which meet `ReadyQueues`, can be read in order
//!   and become others.
//!
//! OSEK/VDX OS: system services.
#![tactic(auto)]

mod alarm_services;
mod caller;
mod calls;
mod compact_queues;
mod contexts;
mod copy_queues;
mod copying;
mod dispatch;
mod event_services;
mod interrupts;
mod objects;
mod os_core;
mod pending;
mod quiet;
mod readers;
mod ready_entry;
mod ready_list;
mod resource_services;
mod shared_services;
mod shared_window;
mod slot;
mod task_services;

pub use calls::Answer;
pub use compact_queues::CompactQueues;
pub use copy_queues::CopyQueues;
pub use interrupts::Active;
pub use objects::Objects;
pub use os_core::Core;
pub use ready_entry::ReadyEntry;
pub use slot::Slot;
