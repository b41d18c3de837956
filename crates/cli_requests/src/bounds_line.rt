//! The line of `bounds`.

use crate::help;
use crate::reading::form;
use clap::ArgMatches;
use std::fmt;
use view_figure_texts::{Form, is_measure, place_of};

/// How many states may be kept at most, and how many where nothing is said.
pub const MAX_STATES: u32 = 100_000_000;

pub(crate) const USUAL_STATES: u32 = 1_000_000;

/// The greatest time from which on none is told, in ticks, and the one where nothing is said.
pub const MAX_LONGEST: u32 = 65_535;

pub(crate) const USUAL_LONGEST: u32 = 10_000;

/// The bounds that are asked for.
#[derive(Clone, Copy)]
pub struct BoundsLine<'a> {
    /// None for the only one.
    pub mode: Option<&'a str>,
    /// The priority from which on the part by itself is searched; None for the whole system.
    pub upper: Option<u8>,
    pub form: Form,
    /// Whether it's counted what bounds all runs, and not searched.
    pub is_analysed: bool,
    /// The figure of which a run is wanted in place of the tables, if one is.
    pub witness: Option<Wanted<'a>>,
    /// The folder that it is stored in, if it isn't written.
    pub into: Option<&'a str>,
    /// The folder that runs of all figures are stored in, if they are wanted.
    pub witnesses: Option<&'a str>,
    /// The page that is wanted in place of the tables, if one is.
    pub page: Option<Page<'a>>,
}

/// A page for a review.
#[derive(Clone, Copy)]
pub struct Page<'a> {
    /// The name of the file that it is written to; None for standard output.
    pub output: Option<&'a str>,
}

/// A figure of which a run is wanted that shows it.
#[derive(Clone, Copy)]
pub struct Wanted<'a> {
    /// The name of a task, routine, resource or alarm.
    pub name: &'a str,
    /// The word of its column, or the place of a service; None for the first column.
    pub column: Option<&'a str>,
}

impl<'a> Wanted<'a> {
    /// That of a text, NAME or NAME=FIGURE.
    fn of(text: &'a str) -> Self {
        match text.split_once('=') {
            Some((name, column)) => Wanted {
                name,
                column: Some(column),
            },
            None => Wanted {
                name: text,
                column: None,
            },
        }
    }
}

impl fmt::Display for Wanted<'_> {
    fn fmt<W: fmt::Write>(&self, f: &mut fmt::Formatter<W>) -> fmt::Result {
        match self.column {
            Some(column) => write!(f, "{}={column}", self.name),
            None => write!(f, "{}", self.name),
        }
    }
}

pub(crate) fn searched<'a>(matches: &ArgMatches<'a>) -> BoundsLine<'a> {
    BoundsLine {
        mode: matches.get_str("MODE"),
        upper: matches.get_one::<u8>("upper"),
        form: form(matches),
        is_analysed: matches.get_flag("analysis"),
        witness: figure_wanted(matches),
        into: matches.get_str("into"),
        witnesses: matches.get_str("witnesses"),
        page: None,
    }
}

/// The bounds that are asked for as a page.
pub(crate) fn reported<'a>(matches: &ArgMatches<'a>) -> BoundsLine<'a> {
    let output = matches.get_str("output");
    BoundsLine {
        page: Some(Page { output }),
        ..searched(matches)
    }
}

/// The figure of which a run is wanted.
fn figure_wanted<'a>(matches: &ArgMatches<'a>) -> Option<Wanted<'a>> {
    match matches.get_str("witness") {
        Some(text) => Some(Wanted::of(text)),
        None => None,
    }
}

/// Why a line is refused that wants a run of a figure: no column has it, and it is no place of a
/// service; or that wants one stored, and says none.
pub(crate) fn figure_fault(matches: &ArgMatches<'_>) -> Option<&'static str> {
    let Some(wanted) = figure_wanted(matches) else {
        return matches.get_str("into").map(|_folder| help::NO_RUN);
    };
    let word = wanted.column?;
    (!is_measure(word) && place_of(word).is_none()).then_some(help::NO_FIGURE)
}
