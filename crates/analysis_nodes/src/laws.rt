//! Laws of graphs and of outcomes.

ghost use Rattle.analysis_nodes.specs.Laws.{GraphsAreClosed, OutcomesAreAll};

/// The nodes of a graph are a closed table. It does nothing.
pub fn graphs_are_closed()
    ensures { GraphsAreClosed }
{}

/// A test that is asked of what becomes of who is at a node, and of what is started with that, goes
/// by outcomes. It does nothing.
pub fn outcomes_are_all()
    ensures { OutcomesAreAll }
{}
