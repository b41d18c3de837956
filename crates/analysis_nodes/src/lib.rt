//! Nodes at which jobs and routines stand in runs of a system, and the ways between them: the
//! definitions of `law_nodes`, answered by code.
//!
//! - `outcomes`: exactly what may become of who executes its instruction at a node, outcome by
//!   outcome: how a service is answered, what is started with it, and the nodes at which it may
//!   stand then. None where the system has no instruction there, or where a count of suspensions
//!   would leave the range of 32 bits.
//! - `covers`: exactly whether the first node is the second, but for registers that it doesn't
//!   know and events that it has used besides.
//! - `graph_of`: the nodes to which runs of a system come, each with the ways on from it, by the
//!   numbers of nodes that cover where it may stand then (`IsGraph`). Nothing is proved of the
//!   search for nodes but safety: whether the nodes that it finds cover all that they are to cover
//!   is checked at the end, and where they don't, the answer is None. So it is where more than the
//!   given number would be needed. Nodes of a task or a routine that would be more than 20,000 are
//!   joined where they are the same but for registers and used events: registers are known that all
//!   have alike, and events are used that are used at any.
//! - The nodes of a graph are a closed table in the sense of `law_nodes` (`graphs_are_closed`), so
//!   who executes in a run is at one of them. Tests of `law_nodes` of all that may become of who is
//!   at a node go by `outcomes` (`outcomes_are_all`).
//!
//! Want of memory is the one error.
#![tactic(auto)]

mod alarm_refusals;
mod calling;
mod checking;
mod controlling;
mod covering;
mod granting;
mod graph;
mod index;
mod joining;
mod laws;
mod lookup;
mod node;
mod outcome;
mod plain;
mod refusals;
mod results;
mod settable;
mod showing;
mod stepping;
mod switch;
mod telling;
mod values;
mod worklist;

pub use checking::graph_of;
pub use covering::covers;
pub use graph::{Graph, Links, Way};
pub use laws::{graphs_are_closed, outcomes_are_all};
pub use node::Node;
pub use outcome::{Outcome, Start};
pub use switch::Switch;
pub use telling::outcomes;
