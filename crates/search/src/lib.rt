//! A search through all that can come, for any system that goes on by choices; it knows nothing
//! of kernels. Where it decides, the nodes it keeps stand for the beginning and for all that can
//! come of them, and what is seen in each step is noted.
//!
//! A caller says by [`Steps`] what its nodes are, what comes of a node under a choice, when a
//! node covers another and how two are joined, and proves that this is so. [`search`] then visits
//! nodes until each choice was tried in each of them. A choice that repeats a lower one isn't
//! tried (`Steps::repeats`). A node that is still to be visited is given what a visit needs,
//! which no clause sees, and gives it back; one that another covers is given back at once.
//!
//! - At `Decided` one of the nodes that are kept stands for the beginning. For each of them and
//!   each choice that may be made in it, one stands for what comes of it, and what is seen there
//!   is noted. So by induction the nodes stand for every state of every run.
//! - `Undecided` says why it stopped, how many nodes are kept and open, and for how many steps
//!   from the beginning all that can come was tried: there are lists of nodes, the first with one
//!   for the beginning, and of each node of a list some node that covers it was visited, with
//!   what comes of it in the next.
//! - The setting is as before, and what was noted stays noted.
#![tactic(auto)]

mod agenda;
mod index;
mod joining;
mod outcome;
mod searching;
mod sets;
mod steps;
mod table;

pub use outcome::{Limits, Obstacle, Outcome, Progress};
pub use searching::search;
pub use sets::subset_from;
pub use steps::Steps;
