//! What a search goes by.

use arrival_rules::ArrivalRule;
use osek_base::{ModeId, System};
use search_needs::Needs;

/// What a search goes by.
#[derive(Drop)]
pub(crate) struct Ruling<'s> {
    pub(crate) system: &'s System,
    pub(crate) needs: &'s Needs,
    pub(crate) mode: ModeId,
    /// How interrupts come.
    pub(crate) rules: &'s [ArrivalRule],
    /// The age up to which times are told, in ticks.
    pub(crate) cap: u32,
}
