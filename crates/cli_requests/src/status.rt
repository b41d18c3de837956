//! How a command line ends: its exit status.

/// Exit status: the line is answered, also one that asks for help.
pub const DONE: u8 = 0;

/// Exit status: an input is refused, a file is unreadable, or memory was refused.
pub const REFUSED: u8 = 1;

/// Exit status: the line itself is refused.
pub const REFUSED_LINE: u8 = 2;

/// Exit status: a partition is denied.
pub const DENIED: u8 = 3;

/// Exit status: a write failed.
pub const WRITE_FAILED: u8 = 4;

/// Exit status: a search for bounds stopped before its end.
pub const UNDECIDED: u8 = 5;

/// Exit status: a limit on a run, or on all runs, is broken.
pub const BROKEN: u8 = 6;
