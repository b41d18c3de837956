//! No code: what is seen of a tick goes by what is kept of the state before it and by the
//! interrupts that arrive. Absolute time, and data that nothing needs, don't show.
//!
//! In each tick of a run of a proper system the definitions' states show what is kept of the
//! state before it and the routines that arrive show (`runs_show`), so an observation is of these
//! alone (`seen_is_shown`). States between which only absolute time differs, and values that no
//! program asks for, show the same (`alike_show`), and so do states that have the same needed
//! data (`same_needed_show`).
#![tactic(auto)]

mod laws;

pub use laws::{alike_show, runs_show, same_needed_show, seen_is_shown};
