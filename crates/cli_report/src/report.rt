//! What a page is of.

use arrival_rules::ArrivalRule;
use cli_answers::Texts;
use cli_tables::{BoundsAsked, Counted};
use osek_base::{ModeId, System};
use search::Outcome;
use search_witnesses::Findings;

/// What a page is of: a system and its texts, what of it the bounds are of, a mode, rules of
/// interrupts, what was found or counted of all runs that keep them, and what is asked of it.
#[derive(Clone, Copy)]
pub(crate) struct Report<'r> {
    pub(crate) texts: &'r Texts,
    /// The system of the texts.
    pub(crate) whole: &'r System,
    /// What the bounds are of: that system, or its upper part by itself.
    pub(crate) system: &'r System,
    pub(crate) mode: ModeId,
    pub(crate) rules: &'r [ArrivalRule],
    /// What a search has found; None where it's counted in its place.
    pub(crate) found: &'r Option<Findings>,
    /// What is counted: in place of a search, or behind one that stopped before its end. None where
    /// it needs too many nodes, or the search has come to its end.
    pub(crate) counted: &'r Option<Counted>,
    pub(crate) asked: BoundsAsked<'r>,
}

/// The name of the mode.
pub(crate) fn mode_name<'r>(report: &Report<'r>) -> &'r str {
    match report
        .system
        .names()
        .modes
        .get(report.mode.number() as usize)
    {
        Some(name) => name.as_str(),
        None => "",
    }
}

/// The bounds that limits are held to: those of a search that has come to its end, or those that
/// are counted in its place; None where nothing is promised of all runs.
pub(crate) fn promised<'r>(report: &Report<'r>) -> Option<&'r Findings> {
    let Some(found) = report.found else {
        return match report.counted {
            Some(counted) => Some(&counted.found),
            None => None,
        };
    };
    match found.bounds.outcome {
        Outcome::Decided(_) => Some(found),
        Outcome::Undecided(..) => None,
    }
}
