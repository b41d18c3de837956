//! The laws, one function each. The functions are empty: the clause is the law.

ghost use Rattle.law_nodes.specs.KnownTicks.{PricesBoundAtExpiries, PricesBoundAtKnownTicks};
ghost use Rattle.law_nodes.specs.Laws.{ClosedTablesStayKnown, RunsAreTold, StepsAreSound};
ghost use Rattle.law_nodes.specs.Paid.{PricesBoundResponses, PricesPay};
ghost use Rattle.law_nodes.specs.Prices.{NodesPay};
ghost use Rattle.law_nodes.specs.Worked.{WorkedNodes};

/// A job or a routine that executes at a node stands at one of the node's steps behind that, if it
/// is still there, whatever good state it finds.
pub fn steps_are_sound()
    ensures { StepsAreSound }
{}

/// What a closed table tells stays known.
pub fn closed_tables_stay_known()
    ensures { ClosedTablesStayKnown }
{}

/// Who executes in a run of a proper system stands at a node of each closed table.
pub fn runs_are_told()
    ensures { RunsAreTold }
{}

/// Where the cost of each node pays for the instruction there, costs by nodes pay for the
/// instructions of all whom the table tells.
pub fn nodes_pay_for_all()
    ensures { NodesPay }
{}

/// Prices that pay for each node and for all that comes make costs that pay.
pub fn prices_pay_for_all()
    ensures { PricesPay }
{}

/// So where a table is closed and its prices pay, as many ticks as are enough for all that can come
/// bound each window, and what lies in it, of each run whose interrupts keep their rules.
pub fn prices_bound_responses()
    ensures { PricesBoundResponses }
{}

/// The same where expiries of alarms that only boot starts are counted by the known ticks that lie
/// in a window, for each first tick before the end of the first round in which they come again; and
/// where each such window has a number of ticks of its own, from known ticks alone.
pub fn prices_bound_at_known_ticks()
    ensures together { PricesBoundAtKnownTicks }
    ensures one_by_one { PricesBoundAtExpiries }
{}

/// Nodes of four small systems come to what was worked by hand.
pub fn worked_nodes()
    ensures { WorkedNodes }
{}
