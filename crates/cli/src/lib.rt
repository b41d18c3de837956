//! The command line of `osek`: answers lines over any files and streams, and has every run
//! searched for `bounds` and `report`. No contract but safety: it is tested.
#![tactic(auto)]

mod answering;
mod bounding;
mod stored;

pub use answering::command;
pub use bounding::write_searched;
pub use cli_requests::{
    BROKEN, DENIED, DONE, FileFault, Files, HostFiles, REFUSED, REFUSED_LINE, Refusal, UNDECIDED,
    WRITE_FAILED,
};
