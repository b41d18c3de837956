//! Reads what a command line of `osek` asks for, has the texts of the help, and reads and writes
//! the files. No contract but safety: it is tested.
//!
//! The files of a line, the folder that may be named in their place, the streams and the exit
//! statuses are here.
#![tactic(auto)]

mod argument;
mod arriving;
mod bash_completions;
mod bounds_line;
mod fault;
mod folder;
mod help;
mod host_files;
mod lines;
mod man_page;
mod reading;
mod request;
mod rules;
mod status;
mod subcommand;
mod unread;
mod zsh_completions;

pub use arriving::{RoutineTicks, SaidArriving};
pub use bounds_line::{BoundsLine, MAX_LONGEST, MAX_STATES, Page, Wanted};
pub use folder::{Folder, NAMES, folder_of, with_files};
pub use help::VERSION;
pub use host_files::{FileFault, Files, HostFiles, Refusal};
pub use reading::read_line;
pub use request::{
    Asked, ImportLine, Lines, MakeLine, Question, Request, RulesFile, RunLine, StatsLine, View,
};
pub use rules::Rules;
pub use status::{BROKEN, DENIED, DONE, REFUSED, REFUSED_LINE, UNDECIDED, WRITE_FAILED};
pub use unread::{Unread, explain_unread, read_file, read_if_there};
