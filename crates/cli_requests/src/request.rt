//! What a command line asks for.

use crate::bounds_line::{BoundsLine, Page};
use crate::help;
use crate::rules::Rules;
use view_figure_texts::Form;
use view_timelines::MAX_DRAWN;

/// What a run is of besides its system: the name of its arrival list, the mode, and how many ticks,
/// 0 to 1,000,000.
#[derive(Clone, Copy)]
pub struct RunLine<'a> {
    pub irq: &'a str,
    /// None for the only one.
    pub mode: Option<&'a str>,
    pub ticks: u32,
}

/// Which lines of a run's trace are shown.
#[derive(Clone, Copy)]
pub enum Lines {
    All,
    /// All, with the numbers of blockers.
    Blocking,
    /// The view at a priority: of the system, or of its upper part by itself.
    Upper { priority: u8, alone: bool },
}

/// The figures that are asked for.
#[derive(Clone, Copy)]
pub struct StatsLine {
    pub form: Form,
    /// The first tick that counts.
    pub from: u32,
}

/// What is shown of a run besides its trace.
#[derive(Clone, Copy)]
pub enum View<'a> {
    /// The value change dump of the ticks from that one on.
    Vcd {
        from: u32,
    },
    /// The picture of the ticks from that one on: of all rows, or of those in a list with commas
    /// between its names; as trace events, or as SVG.
    Timeline {
        from: u32,
        rows: Option<&'a str>,
        are_events: bool,
    },
    /// The figures.
    Stats(StatsLine),
}

impl View<'_> {
    /// The first tick that is shown.
    fn first_tick(&self) -> u32 {
        match *self {
            View::Vcd { from } | View::Timeline { from, .. } => from,
            View::Stats(StatsLine { from, .. }) => from,
        }
    }
}

/// What is asked of a system.
#[derive(Clone, Copy)]
pub enum Question<'a> {
    /// Lines of the trace of a run, of the ticks from one on.
    Lines {
        line: RunLine<'a>,
        lines: Lines,
        from: u32,
    },
    /// What else is shown of a run.
    View {
        line: RunLine<'a>,
        view: View<'a>,
    },
    /// Whether the part from a priority upward is separable from what is below; the first denial,
    /// or all.
    Check {
        priority: u8,
        is_whole: bool,
    },
    /// At which priorities that is so, each by itself or joined where they have one verdict.
    Partitions {
        are_joined: bool,
    },
    /// The conformance class.
    Class,
    /// What generation made, and what is surely a mistake.
    Show,
    /// The greatest times of all runs, or a page with these and all else that is told of a system.
    Bounds(BoundsLine<'a>),
}

impl<'a> Question<'a> {
    /// Whether a picture is asked for.
    fn is_drawn(&self) -> bool {
        match *self {
            Question::View { view, .. } => matches!(view, View::Timeline { .. }),
            _ => false,
        }
    }

    /// Whether rules of a file are looked at.
    fn goes_by_rules(&self) -> bool {
        match *self {
            Question::View { view, .. } => matches!(view, View::Stats(_)),
            Question::Bounds(_) => true,
            _ => false,
        }
    }

    /// What the run is of, where one is asked for.
    pub fn run_line(&self) -> Option<RunLine<'a>> {
        match *self {
            Question::Lines { line, .. } | Question::View { line, .. } => Some(line),
            Question::Check { .. }
            | Question::Partitions { .. }
            | Question::Class
            | Question::Show
            | Question::Bounds(_) => None,
        }
    }

    /// The page that is wanted, where one is.
    pub fn page(&self) -> Option<Page<'a>> {
        match *self {
            Question::Bounds(line) => line.page,
            _ => None,
        }
    }

    /// The mode that is named, where runs are asked for; None for the only one.
    pub fn mode(&self) -> Option<&'a str> {
        match *self {
            Question::Bounds(line) => line.mode,
            _ => self.run_line()?.mode,
        }
    }

    /// Why nothing is shown, where the first tick lies behind the last, or a picture has too many.
    pub(crate) fn shown_fault(&self) -> Option<&'static str> {
        let (line, from) = match self {
            Question::Lines { line, from, .. } => (line, *from),
            Question::View { line, view } => (line, view.first_tick()),
            Question::Check { .. }
            | Question::Partitions { .. }
            | Question::Class
            | Question::Show
            | Question::Bounds(_) => return None,
        };
        let Some(shown) = line.ticks.checked_sub(from) else {
            return Some(help::NO_TICK_SHOWN);
        };
        (self.is_drawn() && shown > MAX_DRAWN).then_some(help::TOO_MANY_DRAWN)
    }

    /// Takes its mode away: the word in its place stands for the only one.
    pub(crate) fn without_mode(self) -> Self {
        match self {
            Question::Lines { line, lines, from } => Question::Lines {
                line: RunLine { mode: None, ..line },
                lines,
                from,
            },
            Question::View { line, view } => Question::View {
                line: RunLine { mode: None, ..line },
                view,
            },
            Question::Bounds(line) => Question::Bounds(BoundsLine { mode: None, ..line }),
            question => question,
        }
    }
}

/// A command line: the names of the two files that a system is made of, what is asked of it, and
/// whether a refusal or a denial is explained.
#[derive(Drop)]
pub struct Request<'a> {
    pub oil: &'a str,
    pub asm: &'a str,
    pub question: Question<'a>,
    /// What the line says of interrupts, limits and a search.
    pub rules: Rules<'a>,
    /// The file that says it of the rest.
    pub rules_file: RulesFile<'a>,
    /// Whether it is told in lines how far a run or a search is.
    pub tells_progress: bool,
    pub is_explained: bool,
}

impl<'a> Request<'a> {
    /// Takes a folder's file of rules, where its question goes by rules and the line names no other
    /// file.
    pub fn take_rules_of(&mut self, name: &'a str) {
        if let (true, RulesFile::Nowhere) = (self.question.goes_by_rules(), self.rules_file) {
            self.rules_file = RulesFile::Beside(name);
        }
    }
}

/// The file of rules beside a line.
#[derive(Clone, Copy)]
pub enum RulesFile<'a> {
    Nowhere,
    /// The line names it.
    Named(&'a str),
    /// A folder may have it.
    Beside(&'a str),
}

impl<'a> RulesFile<'a> {
    /// Its name, empty where there is none.
    pub fn name(&self) -> &'a str {
        match *self {
            RulesFile::Nowhere => "",
            RulesFile::Named(name) | RulesFile::Beside(name) => name,
        }
    }
}

/// A system to be made: the name of its description, and of the folder that its files go to.
#[derive(Clone, Copy)]
pub struct MakeLine<'a> {
    pub file: &'a str,
    pub folder: &'a str,
    /// The name of its OIL file, where it has one; the description then is a work file.
    pub oil: Option<&'a str>,
}

/// Files to be imported, by their names.
#[derive(Drop)]
pub struct ImportLine<'a> {
    pub names: Vec<&'a str>,
    /// Whether a work file is wanted in place of the OIL.
    pub is_work: bool,
    /// Whether what has a counterpart only with another meaning is taken.
    pub is_bending: bool,
}

/// What a command line asks for: something of a system, the files of a description, an import, or a
/// text that is printed as it is.
#[derive(Drop)]
pub enum Asked<'a> {
    System(Request<'a>),
    Make(MakeLine<'a>),
    Import(ImportLine<'a>),
    Text(String),
}
