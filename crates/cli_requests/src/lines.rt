//! The subcommands, with their words and options.

use crate::argument::{Argument, Takes};
use crate::bounds_line::{MAX_LONGEST, MAX_STATES};
use crate::help;
use crate::subcommand::{Exclusion, Subcommand};
use clap::builder::ValueParser;
use clap::{Arg, ArgAction, Command};
use osek_base::{MAX_TASK_PRIORITY, MAX_TICKS};
use std::alloc::{AllocError, Global};

/// A tick of a run, or how many there are.
const TICKS: Takes = Takes::Number(0, MAX_TICKS);

const PRIORITY: Takes = Takes::Number(0, MAX_TASK_PRIORITY as u32);

const MODE: Argument = Argument::Word("MODE", Takes::Text, help::MODE);

/// The priority of the cut.
const P: Argument = Argument::Word("P", PRIORITY, help::PRIORITY);

/// The names of the two files that a system is made of, and whether a refusal is explained.
const SYSTEM: [Argument; 4] = [
    Argument::Word("OIL", Takes::Text, help::OIL),
    Argument::Word("ASM", Takes::Text, help::ASM),
    Argument::Option("in", "FOLDER", Takes::Text, help::IN),
    Argument::Flag("explain", help::EXPLAIN),
];

/// Whether it is told how far a run or a search is.
const PROGRESS: Argument = Argument::Flag("progress", help::PROGRESS);

/// How interrupts come in every run.
const ARRIVING: [Argument; 4] = [
    Argument::Option("apart", "ROUTINE=TICKS", Takes::Texts, help::APART),
    Argument::Option("jitter", "ROUTINE=TICKS", Takes::Texts, help::JITTER),
    Argument::Option("least", "ROUTINE=TICKS", Takes::Texts, help::LEAST),
    Argument::Option("never", "ROUTINE", Takes::Texts, help::NEVER),
];

/// How far a search through every run goes.
const STATES: Argument = Argument::Option(
    "states",
    "N",
    Takes::Number(1, MAX_STATES),
    help::STATES,
);

const LONGEST: Argument = Argument::Option(
    "longest",
    "TICKS",
    Takes::Number(1, MAX_LONGEST),
    help::LONGEST,
);

/// What a run is of besides its system.
const RUN: [Argument; 5] = [
    Argument::Word("IRQ", Takes::Text, help::IRQ),
    MODE,
    Argument::Word("TICKS", TICKS, help::TICKS),
    Argument::Option("irq", "FILE", Takes::Text, help::OTHER_IRQ),
    PROGRESS,
];

/// Which ticks of a run are shown.
const PART: [Argument; 2] = [
    Argument::Option("from", "TICK", TICKS, help::FROM),
    Argument::Option("to", "TICK", TICKS, help::TO),
];

/// Figures are written in one form.
const ONE_FORM: Exclusion = Exclusion {
    name: "json",
    others: &["csv"],
};

/// A run stands in place of tables, whose figures are held to limits.
const NO_TABLES: Exclusion = Exclusion {
    name: "witness",
    others: &["csv", "json", "limit", "no-loss", "no-refusal", "witnesses"],
};

/// An analysis keeps no states, and finds no runs.
const NO_SEARCH: Exclusion = Exclusion {
    name: "analysis",
    others: &["states", "longest", "witness", "witnesses"],
};

/// The same of a page, which is of no one run.
const NO_STATES: Exclusion = Exclusion {
    name: "analysis",
    others: &["states", "longest"],
};

fn trace() -> Subcommand {
    Subcommand {
        name: "trace",
        about: "Prints the trace of a system",
        example: help::TRACE_EXAMPLE,
        arguments: &[
            &SYSTEM,
            &RUN,
            &PART,
            &[Argument::Flag("blocking", help::BLOCKING)],
        ],
        exclusions: &[],
    }
}

fn upper() -> Subcommand {
    Subcommand {
        name: "upper",
        about: "Prints the part of the trace from priority P upward",
        example: help::UPPER_EXAMPLE,
        arguments: &[&SYSTEM, &RUN, &[P, Argument::Flag("alone", help::ALONE)]],
        exclusions: &[],
    }
}

fn vcd() -> Subcommand {
    Subcommand {
        name: "vcd",
        about: "Prints a run as a value change dump, for waveform viewers",
        example: help::VCD_EXAMPLE,
        arguments: &[&SYSTEM, &RUN, &PART],
        exclusions: &[],
    }
}

fn timeline() -> Subcommand {
    Subcommand {
        name: "timeline",
        about: "Prints a picture of a run, as SVG or for Perfetto",
        example: help::TIMELINE_EXAMPLE,
        arguments: &[
            &SYSTEM,
            &RUN,
            &PART,
            &[
                Argument::Option("rows", "NAMES", Takes::Text, help::ROWS),
                Argument::Flag("perfetto", help::PERFETTO),
            ],
        ],
        exclusions: &[],
    }
}

fn stats() -> Subcommand {
    Subcommand {
        name: "stats",
        about: "Prints figures of a run: of its tasks, routines, resources and alarms",
        example: help::STATS_EXAMPLE,
        arguments: &[
            &SYSTEM,
            &RUN,
            &[
                Argument::Flag("csv", help::CSV),
                Argument::Flag("json", help::JSON),
                Argument::Option("from", "TICK", TICKS, help::FIRST),
                Argument::Option("to", "TICK", TICKS, help::LAST),
                Argument::Option("rules", "FILE", Takes::Text, help::LIMITS_FILE),
                Argument::Option("limit", "NAME=TICKS", Takes::Texts, help::LIMIT),
                Argument::Flag("no-loss", help::NO_LOSS),
                Argument::Flag("no-refusal", help::NO_REFUSAL),
            ],
        ],
        exclusions: &[ONE_FORM],
    }
}

fn check() -> Subcommand {
    Subcommand {
        name: "check",
        about: "Checks that the part from priority P upward is separable from the part below",
        example: help::CHECK_EXAMPLE,
        arguments: &[&SYSTEM, &[P, Argument::Flag("all", help::ALL)]],
        exclusions: &[],
    }
}

fn partitions() -> Subcommand {
    Subcommand {
        name: "partitions",
        about: "Checks that at each priority, from 0 to the greatest of a task",
        example: help::PARTITIONS_EXAMPLE,
        arguments: &[&SYSTEM, &[Argument::Flag("joined", help::JOINED)]],
        exclusions: &[],
    }
}

fn class() -> Subcommand {
    Subcommand {
        name: "class",
        about: "Prints the conformance class of a system",
        example: help::CLASS_EXAMPLE,
        arguments: &[&SYSTEM],
        exclusions: &[],
    }
}

fn show() -> Subcommand {
    Subcommand {
        name: "show",
        about: "Prints what a system consists of, and warns of mistakes",
        example: help::SHOW_EXAMPLE,
        arguments: &[&SYSTEM],
        exclusions: &[],
    }
}

fn bounds() -> Subcommand {
    Subcommand {
        name: "bounds",
        about: "Searches all runs for the greatest times of tasks, routines and resources",
        example: help::BOUNDS_EXAMPLE,
        arguments: &[
            &SYSTEM,
            &[
                MODE,
                Argument::Option("rules", "FILE", Takes::Text, help::RULES_FILE),
            ],
            &ARRIVING,
            &[
                Argument::Flag("analysis", help::ANALYSIS),
                Argument::Option("witness", "NAME[=FIGURE]", Takes::Text, help::WITNESS),
                Argument::Option("into", "FOLDER", Takes::Text, help::INTO),
                Argument::Option("witnesses", "FOLDER", Takes::Text, help::WITNESSES),
                STATES,
                LONGEST,
                Argument::Option("upper", "P", PRIORITY, help::BOUNDS_UPPER),
                Argument::Flag("csv", help::BOUNDS_CSV),
                Argument::Flag("json", help::BOUNDS_JSON),
                Argument::Option("limit", "NAME=TICKS", Takes::Texts, help::BOUNDS_LIMIT),
                Argument::Flag("no-loss", help::BOUNDS_NO_LOSS),
                Argument::Flag("no-refusal", help::BOUNDS_NO_REFUSAL),
                PROGRESS,
            ],
        ],
        exclusions: &[ONE_FORM, NO_TABLES, NO_SEARCH],
    }
}

fn report() -> Subcommand {
    Subcommand {
        name: "report",
        about: "Writes a page for a review: a system, its cuts, its bounds and its worst cases",
        example: help::REPORT_EXAMPLE,
        arguments: &[
            &SYSTEM,
            &[
                MODE,
                Argument::Lettered('o', "output", "FILE", help::PAGE),
                Argument::Option("rules", "FILE", Takes::Text, help::RULES_FILE),
            ],
            &ARRIVING,
            &[
                Argument::Flag("analysis", help::ANALYSIS),
                STATES,
                LONGEST,
                Argument::Option("upper", "P", PRIORITY, help::BOUNDS_UPPER),
                Argument::Option("limit", "NAME=TICKS", Takes::Texts, help::BOUNDS_LIMIT),
                Argument::Flag("no-loss", help::BOUNDS_NO_LOSS),
                Argument::Flag("no-refusal", help::BOUNDS_NO_REFUSAL),
                PROGRESS,
            ],
        ],
        exclusions: &[NO_STATES],
    }
}

fn make() -> Subcommand {
    Subcommand {
        name: "make",
        about: "Makes the files of a system from a description, or from an OIL file and its times",
        example: help::MAKE_EXAMPLE,
        arguments: &[&[
            Argument::Word("FILE", Takes::Text, help::FILE),
            Argument::Required('o', "output", "FOLDER", help::FOLDER),
            Argument::Option("oil", "FILE", Takes::Text, help::OIL_OF_WORK),
        ]],
        exclusions: &[],
    }
}

fn import() -> Subcommand {
    Subcommand {
        name: "import",
        about: "Prints OIL as other kernels use it as the OIL that is read here",
        example: help::IMPORT_EXAMPLE,
        arguments: &[&[
            Argument::Words("FILE", help::IMPORTED),
            Argument::Flag("work", help::WORK),
            Argument::Flag("bend", help::BEND),
        ]],
        exclusions: &[],
    }
}

/// What means the same in each subcommand that has it.
pub(crate) fn shared() -> [&'static [Argument]; 4] {
    [&SYSTEM, &RUN, &[P], &PART]
}

/// All of them, in the order of the help.
pub(crate) fn subcommands() -> [Subcommand; 13] {
    [
        trace(),
        upper(),
        vcd(),
        timeline(),
        stats(),
        check(),
        partitions(),
        class(),
        show(),
        bounds(),
        report(),
        make(),
        import(),
    ]
}

fn commands<'a>(alloc: Global) -> Result<Vec<Command<'a>>, AllocError> {
    let mut commands = Vec::new(alloc);
    for subcommand in &subcommands() {
        commands.push(subcommand.command(alloc)?)?;
    }
    Ok(commands)
}

/// What the command is called, whatever the file that runs is.
const NAME: &str = "osek";

/// The names of the shells that there are completions for.
pub(crate) const SHELLS: [&str; 2] = ["bash", "zsh"];

/// The options of the program, without a subcommand.
fn own_args<'a>(alloc: Global) -> Result<Vec<Arg<'a>>, AllocError> {
    let mut args = Vec::new(alloc);
    args.push(
        Arg::new(alloc, "man")
            .long("man")
            .action(ArgAction::SetTrue)
            .help(help::MAN),
    )?;
    args.push(
        Arg::new(alloc, "completions")
            .long("completions")
            .value_name("SHELL")
            .value_parser(ValueParser::Names(&SHELLS))
            .conflicts_with("man")?
            .help(help::COMPLETIONS),
    )?;
    Ok(args)
}

/// The program's line with its subcommands.
pub(crate) fn lines<'a>(alloc: Global) -> Result<Command<'a>, AllocError> {
    let commands = commands(alloc)?;
    Command::new(alloc, NAME)
        .about("Runs a system that an OIL file and programs describe")
        .version(help::VERSION)
        .long_version(help::LONG_VERSION)
        .after_help(help::HINT)
        .after_long_help(help::STATUSES)
        .arg_required_else_help(true)
        .args_conflicts_with_subcommands(true)
        .args(own_args(alloc)?)?
        .override_usage("osek <COMMAND>")
        .bin_name(NAME)?
        .subcommands(commands)
}
