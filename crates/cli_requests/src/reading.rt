//! Reads what a command line asks for.

use crate::arriving::{never, said_by};
use crate::bash_completions::bash_completions;
use crate::bounds_line::{figure_fault, reported, searched};
use crate::fault::Fault;
use crate::help;
use crate::lines::lines;
use crate::man_page::man_page;
use crate::request::{
    Asked, ImportLine, Lines, MakeLine, Question, Request, RulesFile, RunLine, StatsLine, View,
};
use crate::rules::Rules;
use crate::zsh_completions::zsh_completions;
use clap::error::ErrorKind;
use clap::{ArgMatches, Command, Error};
use osek_base::MAX_TICKS;
use std::alloc::{AllocError, Global};
use std::convert::AsStr;
use view_figure_texts::{Form, Limit};

/// The word of that name. Each is required, so it is there.
fn text<'a>(matches: &ArgMatches<'a>, name: &str) -> &'a str {
    matches.get_str(name).unwrap_or("")
}

fn run_line<'a>(matches: &ArgMatches<'a>) -> RunLine<'a> {
    RunLine {
        irq: text(matches, "IRQ"),
        mode: matches.get_str("MODE"),
        ticks: matches.get_one::<u32>("TICKS").unwrap_or(0),
    }
}

fn priority(matches: &ArgMatches<'_>) -> u8 {
    matches.get_one::<u8>("P").unwrap_or(0)
}

/// The run as far as it is shown, and the first tick that is shown.
fn shown_part<'a>(matches: &ArgMatches<'a>) -> (RunLine<'a>, u32) {
    let line = run_line(matches);
    let to = matches.get_one::<u32>("to").unwrap_or(line.ticks);
    let ticks = line.ticks.min(to);
    let from = matches.get_one::<u32>("from").unwrap_or(0);
    (RunLine { ticks, ..line }, from)
}

fn vcd<'a>(matches: &ArgMatches<'a>) -> Question<'a> {
    let (line, from) = shown_part(matches);
    Question::View {
        line,
        view: View::Vcd { from },
    }
}

fn timeline<'a>(matches: &ArgMatches<'a>) -> Question<'a> {
    let (line, from) = shown_part(matches);
    Question::View {
        line,
        view: View::Timeline {
            from,
            rows: matches.get_str("rows"),
            are_events: matches.get_flag("perfetto"),
        },
    }
}

/// How figures are written.
pub(crate) fn form(matches: &ArgMatches<'_>) -> Form {
    if matches.get_flag("csv") {
        Form::Csv
    } else if matches.get_flag("json") {
        Form::Json
    } else {
        Form::Table
    }
}

fn stats<'a>(matches: &ArgMatches<'a>) -> Question<'a> {
    let (line, from) = shown_part(matches);
    let stats = StatsLine {
        form: form(matches),
        from,
    };
    Question::View {
        line,
        view: View::Stats(stats),
    }
}

/// A limit of that text, NAME=TICKS.
fn limit_of(text: &str) -> Option<Limit<'_>> {
    let (name, ticks) = text.split_once('=')?;
    let ticks = ticks.parse::<u32>().ok()?;
    (ticks <= MAX_TICKS).then_some(Limit { name, ticks })
}

/// The limits on times of a line; none where its subcommand takes none.
fn times<'a>(alloc: Global, matches: &ArgMatches<'a>) -> Result<Vec<Limit<'a>>, Fault> {
    let mut times = Vec::new(alloc);
    if let Some(texts) = matches.get_strs("limit") {
        for text in texts {
            match limit_of(text) {
                Some(limit) => times.push(limit)?,
                None => return Err(Fault::Refused(ErrorKind::ValueValidation, help::NO_LIMIT)),
            }
        }
    }
    Ok(times)
}

/// What a line says of interrupts, limits and a search.
fn rules<'a>(alloc: Global, matches: &ArgMatches<'a>) -> Result<Rules<'a>, Fault> {
    Ok(Rules {
        apart: said_by(alloc, matches, "apart", 1, help::NO_PERIOD)?,
        jitter: said_by(alloc, matches, "jitter", 0, help::NO_JITTER)?,
        least: said_by(alloc, matches, "least", 1, help::NO_LEAST)?,
        never: never(alloc, matches)?,
        times: times(alloc, matches)?,
        no_loss: matches.get_flag("no-loss"),
        no_refusal: matches.get_flag("no-refusal"),
        longest: matches.get_one::<u32>("longest"),
        states: matches.get_one::<u32>("states"),
    })
}

/// The file of rules that a line names.
fn rules_file<'a>(matches: &ArgMatches<'a>) -> RulesFile<'a> {
    match matches.get_str("rules") {
        Some(name) => RulesFile::Named(name),
        None => RulesFile::Nowhere,
    }
}

/// Why a line that names a folder, or an arrival list beside it, is refused: both were taken for
/// the files already, so this is a second one, or no folder is named.
fn folder_fault(matches: &ArgMatches<'_>) -> Option<&'static str> {
    if matches.get_str("in").is_some() {
        return Some(help::TWO_FOLDERS);
    }
    matches.get_str("irq").map(|_name| help::NO_FOLDER)
}

/// All lines, with the numbers of blockers where they are wanted.
fn trace<'a>(matches: &ArgMatches<'a>) -> Question<'a> {
    let (line, from) = shown_part(matches);
    let lines = if matches.get_flag("blocking") {
        Lines::Blocking
    } else {
        Lines::All
    };
    Question::Lines { line, lines, from }
}

/// What a subcommand asks for.
fn question_of<'a>(subcommand: &str, matches: &ArgMatches<'a>) -> Question<'a> {
    match subcommand {
        "upper" => Question::Lines {
            line: run_line(matches),
            lines: Lines::Upper {
                priority: priority(matches),
                alone: matches.get_flag("alone"),
            },
            from: 0,
        },
        "vcd" => vcd(matches),
        "timeline" => timeline(matches),
        "stats" => stats(matches),
        "check" => Question::Check {
            priority: priority(matches),
            is_whole: matches.get_flag("all"),
        },
        "partitions" => Question::Partitions {
            are_joined: matches.get_flag("joined"),
        },
        "class" => Question::Class,
        "show" => Question::Show,
        "bounds" => Question::Bounds(searched(matches)),
        "report" => Question::Bounds(reported(matches)),
        _ => trace(matches),
    }
}

/// The names of the files that are imported.
fn imported<'a>(alloc: Global, matches: &ArgMatches<'a>) -> Result<Vec<&'a str>, AllocError> {
    let mut names = Vec::new(alloc);
    if let Some(words) = matches.get_strs("FILE") {
        for word in words {
            names.push(*word)?;
        }
    }
    Ok(names)
}

/// Why the question of these matches is refused, if it is.
fn fault_of(question: &Question<'_>, matches: &ArgMatches<'_>) -> Option<&'static str> {
    question
        .shown_fault()
        .or(folder_fault(matches))
        .or(figure_fault(matches))
}

/// What a subcommand asks of a system. With no mode, a word stands in its place.
fn request_of<'a>(
    alloc: Global,
    subcommand: &str,
    matches: &ArgMatches<'a>,
    has_mode: bool,
) -> Result<Request<'a>, Fault> {
    let question = question_of(subcommand, matches);
    if let Some(fault) = fault_of(&question, matches) {
        return Err(Fault::Refused(ErrorKind::ValueValidation, fault));
    }
    Ok(Request {
        oil: text(matches, "OIL"),
        asm: text(matches, "ASM"),
        question: if has_mode {
            question
        } else {
            question.without_mode()
        },
        rules: rules(alloc, matches)?,
        rules_file: rules_file(matches),
        tells_progress: matches.get_flag("progress"),
        is_explained: matches.get_flag("explain"),
    })
}

/// The manual page or the completions, where a line asks for them.
fn text_of(alloc: Global, matches: &ArgMatches<'_>) -> Result<Option<String>, AllocError> {
    if matches.get_flag("man") {
        return Ok(Some(man_page(alloc)?));
    }
    match matches.get_str("completions") {
        Some("zsh") => Ok(Some(zsh_completions(alloc)?)),
        Some(_) => Ok(Some(bash_completions(alloc)?)),
        None => Ok(None),
    }
}

/// What the matches of a line ask for.
fn asked_of<'a>(
    alloc: Global,
    matches: &ArgMatches<'a>,
    has_mode: bool,
) -> Result<Asked<'a>, Fault> {
    let Some((name, found)) = matches.subcommand() else {
        return match text_of(alloc, matches)? {
            Some(text) => Ok(Asked::Text(text)),
            None => Err(Fault::Refused(ErrorKind::MissingSubcommand, "a subcommand is wanted")),
        };
    };
    match name {
        "make" => Ok(Asked::Make(MakeLine {
            file: text(found, "FILE"),
            folder: text(found, "output"),
            oil: found.get_str("oil"),
        })),
        "import" => Ok(Asked::Import(ImportLine {
            names: imported(alloc, found)?,
            is_work: found.get_flag("work"),
            is_bending: found.get_flag("bend"),
        })),
        _ => Ok(Asked::System(request_of(alloc, name, found, has_mode)?)),
    }
}

/// Reads a command line by the lines that are understood.
fn read_by<'a, S: AsStr>(
    alloc: Global,
    line: &mut Command<'a>,
    words: &'a [S],
    has_mode: bool,
) -> Result<Asked<'a>, Error> {
    let matches = line.try_get_matches_from_mut(words)?;
    match asked_of(alloc, &matches, has_mode) {
        Ok(asked) => Ok(asked),
        Err(Fault::Refused(kind, fault)) => Err(line.error(kind, fault)?),
        Err(Fault::Memory) => Err(AllocError.into()),
    }
}

/// Reads a command line, of which the first word is the program's name. Where it has no mode, a
/// word stands in its place. An error is a refused line, a call for help or for the version, or
/// want of memory.
pub fn read_line<'a, S: AsStr>(
    alloc: Global,
    words: &'a [S],
    has_mode: bool,
) -> Result<Asked<'a>, Error> {
    let mut line = lines(alloc)?;
    read_by(alloc, &mut line, words, has_mode)
}
