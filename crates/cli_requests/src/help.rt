//! The texts of the help and of the version.

pub(crate) const OIL: &str = "The OIL file: the objects of the system";

pub(crate) const ASM: &str = "The programs of its tasks and interrupt routines";

pub(crate) const IRQ: &str =
    "The arrival list: at which ticks which interrupts arrive; may be empty";

pub(crate) const MODE: &str =
    "The application mode to start in: the name of an APPMODE of the OIL file";

pub(crate) const TICKS: &str = "How many ticks are run, 0 to 1000000";

pub(crate) const PRIORITY: &str =
    "The priority of the cut, 0 to 63: tasks of this priority or more are upper, the others lower";

pub(crate) const ALONE: &str = "Runs the upper part by itself; what is printed is the same";

pub(crate) const ALL: &str = "Prints all denials, a line each, in the order of the rules";

pub(crate) const JOINED: &str = "Prints neighbouring priorities with one verdict as one line";

pub(crate) const BLOCKING: &str =
    "Prints ` ! N` behind a job's first instruction since it became ready: N jobs of lower priority executed meanwhile";

pub(crate) const FROM: &str = "The first tick that is shown, 0 to 1000000; 0 unless it is said";

pub(crate) const TO: &str =
    "The tick behind the last that is shown, 0 to 1000000; the run's end unless it is said";

pub(crate) const ROWS: &str =
    "The names of the tasks and routines that are drawn, with commas between them; all unless it is said";

pub(crate) const PERFETTO: &str =
    "Prints JSON in the trace event format, which ui.perfetto.dev and chrome://tracing open, in place of SVG";

pub(crate) const CSV: &str = "Prints comma-separated values, a line a figure";

pub(crate) const JSON: &str = "Prints JSON: an object by kinds, and in it by names";

pub(crate) const FIRST: &str = "The first tick that counts, 0 to 1000000; 0 unless it is said";

pub(crate) const LAST: &str =
    "The tick behind the last that counts, 0 to 1000000; the run's end unless it is said";

pub(crate) const LIMITS_FILE: &str =
    "A file of rules, whose limits hold where the line says nothing else; with --in the folder's rules.txt unless it is said";

pub(crate) const LIMIT: &str =
    "Exits with 6 where a response of the task, or the latency of the routine, takes more ticks";

pub(crate) const NO_LOSS: &str = "Exits with 6 where an interrupt is lost";

pub(crate) const NO_REFUSAL: &str =
    "Exits with 6 where an activation or an alarm's action is refused";

pub(crate) const NO_LIMIT: &str = "a limit is NAME=TICKS, with TICKS from 0 to 1000000";

pub(crate) const NO_TICK_SHOWN: &str = "no tick is shown: --from lies behind TICKS or --to";

pub(crate) const TOO_MANY_DRAWN: &str =
    "a picture has at most 5000 ticks: --from and --to choose them";

pub(crate) const IN: &str =
    "In place of the files: the folder of system.oil, programs.asm and arrivals.irq; a lone mode may be left out then";

pub(crate) const TWO_FOLDERS: &str = "--in stands once, in place of the files";

pub(crate) const OTHER_IRQ: &str =
    "Beside --in: the arrival list that is read in place of the folder's arrivals.irq";

pub(crate) const NO_FOLDER: &str = "--irq stands once, beside --in FOLDER";

pub(crate) const PROGRESS: &str =
    "Says on standard error, a line now and then, how far it is; on a terminal it does so without being told";

pub(crate) const EXPLAIN: &str =
    "Says behind a refusal or a denial, on standard error, where it is and what would be allowed";

pub(crate) const TRACE_EXAMPLE: &str = "Example, ten ticks in the mode Normal:
  osek trace system.oil programs.asm arrivals.irq Normal 10

With the numbers of blockers:
  osek trace --blocking system.oil programs.asm arrivals.irq Normal 10

The files system.oil, programs.asm and arrivals.irq of a folder:
  osek trace --in FOLDER Normal 10";

pub(crate) const UPPER_EXAMPLE: &str =
    "Example, ten ticks in the mode Normal, seen from priority 5 upward:
  osek upper system.oil programs.asm arrivals.irq Normal 10 5";

pub(crate) const VCD_EXAMPLE: &str = "Example, a thousand ticks in the mode Normal, for GTKWave:
  osek vcd system.oil programs.asm arrivals.irq Normal 1000 > run.vcd";

pub(crate) const TIMELINE_EXAMPLE: &str =
    "At most 5000 ticks are drawn. Example, the ticks 900 to 999 in the mode Normal:
  osek timeline system.oil programs.asm arrivals.irq Normal 1000 --from 900 > run.svg

The same to zoom and to search in, for ui.perfetto.dev:
  osek timeline system.oil programs.asm arrivals.irq Normal 1000 --from 900 --perfetto > run.json";

pub(crate) const STATS_EXAMPLE: &str = "Example, a million ticks in the mode Normal:
  osek stats system.oil programs.asm arrivals.irq Normal 1000000

Held to limits, for scripts:
  osek stats system.oil programs.asm arrivals.irq Normal 1000 --limit Control=20 --no-loss";

pub(crate) const CHECK_EXAMPLE: &str =
    "Prints `accepted`, or `denied:` with the first rule that is broken, and where.

Example, the cut at priority 5:
  osek check system.oil programs.asm 5

All that is in its way, each explained:
  osek check --all --explain system.oil programs.asm 5";

pub(crate) const PARTITIONS_EXAMPLE: &str =
    "Prints a line for each priority: `P: accepted`, or `P: denied:` with the first rule that is broken, and where.

Example:
  osek partitions system.oil programs.asm

Neighbours joined, as `6..10: accepted`:
  osek partitions --joined system.oil programs.asm";

pub(crate) const CLASS_EXAMPLE: &str = "Prints BCC1, BCC2, ECC1 or ECC2.

Example:
  osek class system.oil programs.asm";

pub(crate) const SHOW_EXAMPLE: &str =
    "On standard output: the class, and a table for each kind of objects, with numbers, ceilings and masks. On standard
error: a line for each mistake, as an event that a task waits for and doesn't list, or an object that nobody uses.

Example:
  osek show system.oil programs.asm";

pub(crate) const RULES_FILE: &str =
    "A file of rules, which hold where the line says nothing else; with --in the folder's rules.txt unless it is said";

pub(crate) const APART: &str =
    "The period of the routine's interrupts: two come at least so many ticks apart, 1 to 1000000, but for jitter; 1 unless it is said";

pub(crate) const JITTER: &str =
    "By how much each interrupt of the routine may come later than its period says, 0 to 1000000; 0 unless it is said";

pub(crate) const LEAST: &str =
    "Two interrupts of the routine come at least so many ticks apart in any case, 1 to its period; 1 unless it is said";

pub(crate) const NEVER: &str = "No interrupt of the routine comes";

pub(crate) const STATES: &str =
    "How many states may be kept, 1 to 100000000; 1000000 unless it is said";

pub(crate) const LONGEST: &str =
    "The time from which on none is told, 1 to 65535 ticks; 10000 unless it is said";

pub(crate) const BOUNDS_UPPER: &str =
    "Of the part from priority P upward by itself: they hold whatever runs below it";

pub(crate) const BOUNDS_CSV: &str =
    "Prints comma-separated values, a line a figure, and whether it is reached or a bound";

pub(crate) const BOUNDS_JSON: &str =
    "Prints JSON: an object by kinds, in each one by names, and in each of these one by columns";

pub(crate) const BOUNDS_LIMIT: &str =
    "Exits with 6 where some response of the task, or the latency of the routine, may take more ticks";

pub(crate) const BOUNDS_NO_LOSS: &str = "Exits with 6 where an interrupt may be lost";

pub(crate) const BOUNDS_NO_REFUSAL: &str =
    "Exits with 6 where an activation or an alarm's action may be refused";

pub(crate) const ANALYSIS: &str =
    "Counts in place of searching: bounds at once, for any number of tasks, though not always the least";

pub(crate) const WITNESS: &str =
    "In place of the tables: the arrival list of a run that shows the figure; FIGURE greatest, blocked, blockers, jobs, refused, errors, latency, losses, longest, comes or the place of a service";

pub(crate) const INTO: &str =
    "Beside --witness: the folder that the run is stored in, with its system, in place of being printed";

pub(crate) const NO_RUN: &str = "--into stands beside --witness NAME";

pub(crate) const WITNESSES: &str =
    "Stores a run of each figure of which one is known, each in a folder of its own in this folder, with its system";

pub(crate) const NO_FIGURE: &str =
    "a witness is NAME or NAME=FIGURE, with FIGURE greatest, blocked, blockers, jobs, refused, errors, latency, losses, longest, comes or the place of a service";

pub(crate) const NO_PERIOD: &str = "a period is ROUTINE=TICKS, with TICKS from 1 to 1000000";

pub(crate) const NO_JITTER: &str = "a jitter is ROUTINE=TICKS, with TICKS from 0 to 1000000";

pub(crate) const NO_LEAST: &str = "a least distance is ROUTINE=TICKS, with TICKS from 1 to 1000000";

pub(crate) const BOUNDS_EXAMPLE: &str =
    "Whatever interrupts come as these rules say, and for however many ticks, no run shows more. Where more states
would have to be kept, `undecided:` is printed, and the exit status is 5.

Example, interrupts of Crank at least 20 ticks apart:
  osek bounds system.oil programs.asm Normal --apart Crank=20

Of period 20, each up to 35 ticks late, and any two at least 2 ticks apart:
  osek bounds system.oil programs.asm Normal --apart Crank=20 --jitter Crank=35 --least Crank=2

Held to limits, for scripts:
  osek bounds system.oil programs.asm Normal --apart Crank=20 --limit Inject=30 --no-loss

The same by a file of rules, with the lines `apart Crank 20`, `limit Inject greatest 30` and `no-loss`:
  osek bounds system.oil programs.asm Normal --rules rules.txt

A run in which a response of the task Inject takes as many ticks; their number stands on standard error:
  osek bounds system.oil programs.asm Normal --apart Crank=20 --witness Inject > longest.irq

The same run with its system in a folder, for `osek timeline --in longest`:
  osek bounds system.oil programs.asm Normal --apart Crank=20 --witness Inject --into longest";

pub(crate) const PAGE: &str =
    "The file that the page is written to; standard output unless it is said";

pub(crate) const REPORT_EXAMPLE: &str =
    "One HTML page that needs nothing else: the bounds of all runs with what they promise, the limits, how interrupts come, the
cuts, pictures of the worst cases, and the system. Statuses are as of `bounds`.

Example, of the folder engine and its rules:
  osek report --in engine -o report.html

Counted, where a search takes too long or comes to no end:
  osek report --in engine --analysis -o report.html

Of the part from priority 5 upward by itself:
  osek report --in engine --upper 5 -o report.html

Held to limits:
  osek report system.oil programs.asm Normal --apart Crank=20 --limit Inject=30 --no-loss -o report.html";

pub(crate) const FILE: &str =
    "The description, in TOML: tasks, interrupts and alarms; with --oil the bodies of tasks and interrupts";

pub(crate) const OIL_OF_WORK: &str =
    "The OIL file of the system; FILE then tells how long its tasks and routines work, and when interrupts arrive";

pub(crate) const FOLDER: &str =
    "The folder that system.oil, programs.asm, arrivals.irq and rules.txt are written to";

pub(crate) const MAKE_EXAMPLE: &str =
    "What is wrong is told with its places, all at once, and nothing is written then.

Example:
  osek make system.toml -o system

Of an OIL file and the times of its tasks and routines; what works one tick since nothing is told of it stands on
standard error:
  osek make --oil system.oil work.toml -o system";

pub(crate) const IMPORTED: &str =
    "The OIL file, and behind it those that it includes: they are found by the last part of their path";

pub(crate) const WORK: &str =
    "In place of the OIL: a file of times for `osek make` with each task and routine, an EXECUTIONBUDGET taken as ticks";

pub(crate) const BEND: &str =
    "Takes with another meaning, each told, what is refused without it: routines of category 1 and 3, resources of routines, adjusted tables";

pub(crate) const IMPORT_EXAMPLE: &str =
    "What is left out, set, kept with another meaning or refused is told on standard error, each at its place. Where
something is refused, nothing is printed.

Example:
  osek import application.oil implementation.oil > system.oil

A file of times to begin with, for `osek make`:
  osek import application.oil implementation.oil --work > work.toml

With routines of category 1:
  osek import application.oil --bend > system.oil";

pub(crate) const MAN: &str = "Prints the manual page, for `man -l -`";

pub(crate) const COMPLETIONS: &str = "Prints completions for a shell";

pub(crate) const HINT: &str =
    "`--help` also tells the exit statuses, `osek SUBCOMMAND --help` the words of a subcommand.";

pub(crate) const STATUSES: &str = "Exit status:
  0  done; after help too
  1  a refused input, an unreadable file, or want of memory; standard error has the line
  2  a refused command line
  3  a denied partition; standard output has the denial
  4  a failed write
  5  an undecided search of `bounds` or `report`; standard output, or the page, has how far it came
  6  a limit of `stats`, `bounds` or `report` is broken; standard error has a line for each

`osek SUBCOMMAND --help` tells the words of a subcommand.";

/// The version of the program.
pub const VERSION: &str = "0.1.0";

pub(crate) const LONG_VERSION: &str = "0.1.0
Proofs: a Rattle kit with the logic dac8208d650f15bf checks them, and `rt run` builds what is proved alone.
Proved: what `trace` writes is the schedule that the definitions give the system read; where `check`
accepts two systems that agree from P upward, their upper parts have equal views in every run.
Not proved: a program that was built in another way, as by `rt try`, and its command line.";
