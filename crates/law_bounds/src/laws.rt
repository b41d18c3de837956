//! The laws, one function each. They do nothing: the clause is the law.

ghost use Rattle.search_peaks.specs.Noting.{NotesStay};
ghost use Rattle.law_bounds.specs.Bounds.{LevelsBound, NodesAreKept, SearchesBound};
ghost use Rattle.law_bounds.specs.Going.{KeysTellFutures};
ghost use Rattle.law_bounds.specs.Lost.{LostChangeNothing};
ghost use Rattle.law_bounds.specs.Trying.{LabelsAreOrdered, OneStateTells, SubsetsMay};

use search_keys::{alike_have_one_key, keys_tell, runs_are_in_range};

/// Two states of runs with one key are both over, or none is; and where none is, a tick in which
/// the same interrupts arrive shows the same, and leaves states with one key.
pub fn keys_tell_futures()
    ensures { KeysTellFutures }
{
    keys_tell();
    alike_have_one_key();
    runs_are_in_range();
}

/// What comes of one state that a node stands for, and what is seen from it, is so of each of them.
pub fn one_state_tells()
    ensures { OneStateTells }
{
    keys_tell_futures();
}

/// Each label is at least itself, and what is at least another is at least what that one is.
pub fn labels_are_ordered()
    ensures { LabelsAreOrdered }
{}

/// The sets of routines that may arrive are the subsets of all that are free by their rules.
pub fn subsets_may()
    ensures { SubsetsMay }
{}

/// An interrupt of a routine that is pending already is lost, and changes nothing else: what comes
/// of a state with such interrupts is what comes of it without them.
pub fn lost_change_nothing()
    ensures { LostChangeNothing }
{}

/// What is noted stays noted when peaks rise.
pub fn notes_stay()
    ensures { NotesStay }
{}

/// A node stands for what each node stands for that it covers.
pub fn nodes_are_kept()
    ensures { NodesAreKept }
{}

/// Where a search has come to its end, what it has noted bounds the figures of every run whose
/// interrupts keep their rules, after every number of ticks.
pub fn searches_bound()
    ensures { SearchesBound }
{}

/// Where a search has tried all that can come in so many ticks, what it has noted bounds the
/// figures of every run whose interrupts keep their rules, after at most so many.
pub fn levels_bound()
    ensures { LevelsBound }
{}
