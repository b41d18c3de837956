//! The nodes of a search for bounds, and how the search came to them: all that needs no machine.
//! A node covers another only where it stands for all that the other stands for.
//!
//! - `Node`: exactly a key, whether the run is over, and the labels that its bytes tell.
//! - `covers`: at true it stands for all that the other one stands for. `join`: at true it stands
//!   for all that both do, at false it is as before.
//! - `put_routines`, `common` and `without`: exactly these routines of sets.
//! - A `Bounds` says what it is found to say (`AreFound`), by whom makes it. Of `Trails` nothing
//!   is proved; what is found by them is tried by a run.
#![tactic(auto)]

mod bytes;
mod comparing;
mod effort;
mod entry;
mod found;
mod node;
mod raised;
mod routine_sets;
mod trails;
mod watch;

pub use comparing::Comparing;
pub use effort::Effort;
pub use found::{Bounds, Extent};
pub use node::Node;
pub use raised::Raised;
pub use routine_sets::{common, put_routines, without};
pub use trails::Trails;
pub use watch::Watch;
