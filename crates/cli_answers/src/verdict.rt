//! What becomes of a request, and its exit status.

use cli_requests::{BROKEN, DENIED, DONE, REFUSED, UNDECIDED, WRITE_FAILED, Wanted};
use partition_check::NamedDenial;
use std::fmt;
use std::io::{self, Write};
use tracer::RunFault;

/// What is said of how interrupts of a routine come.
#[derive(Clone, Copy)]
pub enum ArrivingWord {
    Apart,
    Jitter,
    Least,
    Never,
}

impl ArrivingWord {
    /// The word of the option.
    fn word(self) -> &'static str {
        match self {
            ArrivingWord::Apart => "apart",
            ArrivingWord::Jitter => "jitter",
            ArrivingWord::Least => "least",
            ArrivingWord::Never => "never",
        }
    }
}

/// What is wrong with what is said of how interrupts come.
#[derive(Clone, Copy)]
pub enum ArrivingFault<'a> {
    /// No routine has the name.
    Unknown(ArrivingWord, &'a str),
    /// The same is said of the routine before.
    Twice(ArrivingWord, &'a str),
    /// A jitter is said of the routine, and no period.
    Lone(&'a str),
    /// The least distance of the routine is above its period.
    Above(&'a str),
}

impl fmt::Display for ArrivingFault<'_> {
    fn fmt<W: fmt::Write>(&self, f: &mut fmt::Formatter<W>) -> fmt::Result {
        match self {
            ArrivingFault::Unknown(said, name) => write!(f, "{}: {name}", said.word()),
            ArrivingFault::Twice(said, name) => write!(f, "{}: {name} twice", said.word()),
            ArrivingFault::Lone(name) => write!(f, "jitter: {name} without apart"),
            ArrivingFault::Above(name) => write!(f, "least: {name} above apart"),
        }
    }
}

/// What becomes of a request whose texts and run aren't refused.
#[derive(Drop)]
pub enum Verdict<'a> {
    Done,
    /// A row of that name is asked for, and no task or routine has it: nothing is written.
    NoRow(&'a str),
    /// A partition is denied at a priority.
    Denied(u8, NamedDenial),
    /// The same, with all denials.
    AllDenied(u8, Vec<NamedDenial>),
    /// The figures are written, and limits are broken: a line for each.
    Broken(String),
    /// A limit is on a task or a routine of that name, and there is none: nothing is written.
    NoLimit(&'a str),
    /// The system is shown: a line for each mistake.
    Warned(Vec<u8>),
    /// What is said of how interrupts come is wrong: nothing is written.
    NoArriving(ArrivingFault<'a>),
    /// What a search found is written, and whether it has come to its end: a line for each remark.
    Searched { is_decided: bool, remarks: Vec<u8> },
    /// Bounds are written, and limits are broken: a line for each remark, and then for each limit.
    Exceeded { remarks: Vec<u8>, broken: String },
    /// The arrivals of a run that shows a figure are written: a line tells its ticks and the
    /// figure, and where it has no bound another one which ticks can come again.
    Witnessed(String),
    /// A run is wanted of a figure that no thing has: nothing is written.
    NoFigure(Wanted<'a>),
    /// No run is known that shows the figure that is wanted: nothing is written.
    NoWitness(Wanted<'a>),
}

impl Verdict<'_> {
    /// Writes what stands on standard error. An error is a failed write.
    pub fn write_lines<E: Write>(&self, err: &mut E) -> io::Result<()> {
        match self {
            Verdict::NoRow(name) => writeln!(err, "row: {name}"),
            Verdict::NoLimit(name) => writeln!(err, "limit: {name}"),
            Verdict::Broken(lines) => err.write_all(lines.as_bytes()),
            Verdict::Warned(lines) => err.write_all(lines),
            Verdict::NoArriving(fault) => writeln!(err, "{fault}"),
            Verdict::Witnessed(lines) => err.write_all(lines.as_bytes()),
            Verdict::NoFigure(wanted) => writeln!(err, "witness: {wanted}"),
            Verdict::NoWitness(wanted) => writeln!(err, "witness: {wanted}: no run is known"),
            Verdict::Searched { remarks, .. } => err.write_all(remarks),
            Verdict::Exceeded { remarks, broken } => {
                err.write_all(remarks)?;
                err.write_all(broken.as_bytes())
            }
            Verdict::Done | Verdict::Denied(..) | Verdict::AllDenied(..) => Ok(()),
        }
    }

    pub fn status(&self) -> u8 {
        match self {
            Verdict::Done | Verdict::Warned(_) | Verdict::Witnessed(_) => DONE,
            Verdict::NoRow(_) => REFUSED,
            Verdict::Denied(..) | Verdict::AllDenied(..) => DENIED,
            Verdict::Broken(_) | Verdict::Exceeded { .. } => BROKEN,
            Verdict::NoLimit(_) | Verdict::NoArriving(_) => REFUSED,
            Verdict::NoFigure(_) | Verdict::NoWitness(_) => REFUSED,
            Verdict::Searched {
                is_decided: true,
                ..
            } => DONE,
            Verdict::Searched { .. } => UNDECIDED,
        }
    }
}

/// The status behind a fault.
pub fn status_of(fault: &RunFault) -> u8 {
    match fault {
        RunFault::Write => WRITE_FAILED,
        _ => REFUSED,
    }
}
