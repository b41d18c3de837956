//! No code: which jobs and routines runs come to, and what they cost, told by a table of nodes. A
//! node is one as it stands, of whose registers some aren't known. Where a table is closed under
//! what instructions may make of its nodes, and its prices pay, responses are bounded: all by
//! finite tests.
//!
//! - A *node* (`Node`) has an owner, its place, what is known of each register, the switch of
//!   interrupts that it finds, and of a job what it holds and which events it waits for. A job or
//!   a routine *is at* it (`is_at`) that has the same, and in each known register that value.
//!   Whether a job is begun, and whether its internal resource is taken, isn't looked at. A node
//!   has *used* events besides: they may be set, and pay for nothing any more. They are those of a
//!   wait that is over, those that a job sets for its own task and those that GetEvent has shown
//!   it, up to ClearEvent.
//! - *Steps* (`steps`) are what may become of who executes its instruction at a node, whatever
//!   good state that finds (`steps_are_sound`). Plain instructions are exact on known values; a
//!   word that is loaded isn't known; a jump goes both ways where its registers don't decide.
//! - A service has a step for each answer that there may be. A refusal that the node decides is
//!   exact: interrupts that are off, the level of the call, what the task lists, what the job
//!   holds, INVALID, times in known registers. So a resource that the task may take is refused
//!   where the job holds it, and nowhere else: with interrupts on no other job does. The state
//!   decides whether another task has as many jobs as it may, or none, and whether an alarm is in
//!   use. WaitEvent goes on or waits. GetEvent of a job's own task, for which at most four events
//!   are settable, has a step for each set of them: r1 is known there, and they are used
//!   (`shown_to`). There is no step where a job or a routine ends or the run is over.
//! - A table is *closed* (`is_closed`) if it covers each task and routine as it begins, each step
//!   of each of its nodes, and where that waits, the node behind the wait. A node covers one that
//!   is the same, but in registers that it doesn't know and events that it alone has used. So a
//!   table may join steps.
//! - What a closed table tells stays known in the sense of `law_costs`
//!   (`closed_tables_stay_known`). So who executes in a run is at one of its nodes
//!   (`runs_are_told`).
//!
//! Costs of nodes make costs that pay, by tests that are finite:
//!
//! - Each node has a *price* (`Priced`). A job of the level costs the price of the node that it is
//!   at, and what the events *hold* that are set for its task and not used there, so much each
//!   (`with_held`); a lower one, and a routine, the price alone. Of several nodes it is the least,
//!   and nothing where it is at none (`cost_of`).
//! - A price pays for the instruction at its node (`node_pays`) if each step is covered by a node
//!   that costs one less at least, and less by what is started and set where the service isn't
//!   refused. Of a job that is asked where it may count, and of its steps where they may: as if its
//!   internal resource is taken. With interrupts off it is more than the section of a dispatch
//!   besides, unless the job goes on counting in any case (`stays_counted`): all services are
//!   refused then, and who executes has taken its internal resource. Of a task below the level, no
//!   more is left than may be where a window begins, whatever alarms are set. Behind a WaitEvent
//!   that goes on, where none of its events was used, a step may cost more by the least that one of
//!   them holds, and behind a GetEvent by what those hold that are shown there and weren't used
//!   (`freed_early`). So costs pay for all instructions of whom the table tells
//!   (`nodes_pay_for_all`).
//! - Prices pay (`prices_pay`) where besides each is 1 at least, and is paid by what begins there:
//!   an activation, an interrupt, a dispatch, and each event that a node waits for, with all that
//!   others hold which it may find set then; and an event costs what it holds. An alarm that pays
//!   when it is set pays for its expiry: boot and each node that sets it set it without a cycle
//!   (`are_set_once`). Then they make costs that pay in the sense of `law_costs`
//!   (`prices_pay_for_all`).
//! - Where each node that sets an alarm sets it no sooner than is said (`are_set_slowly`), such
//!   prices bound each window and each response (`prices_bound_responses`).
//! - So they do where expiries of alarms that only boot starts are counted by the known ticks that
//!   lie in a window (`prices_bound_at_known_ticks`).
//!
//! All of these tests are functions to Bool over lists, so code can answer them exactly; and four
//! small systems come to what was worked by hand (`worked_nodes`). `analysis_nodes` and
//! `analysis_bounds` make tables and prices, and ask these tests of them.
#![tactic(auto)]

mod laws;

pub use laws::{
    closed_tables_stay_known, nodes_pay_for_all, prices_bound_at_known_ticks,
    prices_bound_responses, prices_pay_for_all, runs_are_told, steps_are_sound, worked_nodes,
};
