//! No code: how often an alarm can expire. In every run it expires as a count of its counter
//! begins, and between two expiries lie as many counts as the least that boot and programs set it
//! to; so at most (L - 1) / gap + 1 of them lie in L ticks in a row.
//!
//! The gap is TICKSPERBASE times the least of the increments and cycles. The laws:
//!
//! - `always_on_time`: an alarm expires in the first tick of a count.
//! - `always_apart`: whatever programs do, TICKSPERBASE apart.
//! - `apart_as_set`: the gap, where each SetRelAlarm that isn't refused has so great an increment,
//!   and each cycle is 0 or so great. A SetAbsAlarm may set it to the next count.
//!   `served_have_times`: where nothing else is known, an increment is 1 at least, and a cycle
//!   MINCYCLE.
//! - `set_at_boot_only`: an alarm that no program sets expires a cycle apart, and only in ticks
//!   that its AUTOSTART tells; once where its cycle is 0. `never_started`: never, where it has no
//!   AUTOSTART in the mode.
//! - `spaced_are_few`: how many ticks that lie apart find room in a row of ticks.
#![tactic(auto)]

mod laws;

pub use laws::{
    always_apart, always_on_time, apart_as_set, never_started, served_have_times, set_at_boot_only,
    spaced_are_few,
};
