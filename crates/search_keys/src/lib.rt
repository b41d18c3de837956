//! A key of bytes for each state (`key`). States of runs have equal keys exactly where they are
//! alike in what is needed. Numbers and flags are written as bytes, and what was written is what
//! is read, whatever follows.
//!
//! The key is the state part by part: who executes, interrupts, each task, the ready queues, what
//! alarms have left, counters, and the words that are needed. No part begins another one of its
//! kind, so equal keys have equal parts.
//!
//! - States in range whose keys are equal are alike in what is needed (`keys_tell`), and the
//!   other way round (`alike_have_one_key`). What is kept after each tick of every run is in
//!   range (`runs_are_in_range`).
//! - Numbers are in base 128, so that small ones take one byte; no number begins another one.
//!   `push_number` and its kin: at Ok exactly the bytes of the value come behind what was there.
//!   `read_number`, `read_count`: exactly what comes first, and what follows it
//!   (`numbers_are_read_back`). `are_equal`: exactly whether bytes are the same, eight at a time.
#![tactic(auto)]

mod equality;
mod laws;
mod numbers;
mod read_back;
mod reading;

pub use equality::are_equal;
pub use laws::{alike_have_one_key, keys_tell, runs_are_in_range};
pub use numbers::{push_byte, push_count, push_flag, push_number, push_optional};
pub use read_back::numbers_are_read_back;
pub use reading::{read_count, read_number, read_optional};
