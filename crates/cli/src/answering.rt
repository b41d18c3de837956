//! Answers to command lines: what is asked is written, and then how it ended.

use crate::bounding::write_searched;
use crate::stored::{Stored, store};
use clap::Error as LineError;
use clap::error::ErrorKind;
use cli_answers::{
    StoredRun, Texts, Verdict, answer_import, as_written, explain_fault, explain_verdict, is_free,
    make_files, read_texts, status_of, system_of, write_cut, write_cuts, write_lines, write_shown,
    write_view,
};
use cli_requests::{
    Asked, BoundsLine, DONE, Files, Folder, Question, REFUSED, REFUSED_LINE, Request, Rules,
    WRITE_FAILED, explain_unread, folder_of, read_line, with_files,
};
use cli_rules::{RuleReading, read_rules, write_refused};
use cli_tables::{BoundsAsked, SearchWatch};
use explain_texts::Source;
use oil_reader::read_oil;
use std::alloc::{AllocError, Global};
use std::convert::AsStr;
use std::io::{self, Write};
use system_gen::class_of;
use tracer::RunFault;
use view_runs::{Progress, Showing};

/// Writes the conformance class of a system.
fn write_class<O: Write>(
    alloc: Global,
    texts: &Texts,
    out: &mut O,
) -> Result<Verdict<'static>, RunFault> {
    let class = class_of(&system_of(alloc, texts)?);
    writeln!(out, "{}", class.name())?;
    Ok(Verdict::Done)
}

/// Writes the answer to a question. Runs that are to be stored are added.
fn write_answer<'q, O: Write, E: Write>(
    alloc: Global,
    texts: &Texts,
    request: &'q Request<'q>,
    rules: &'q Rules<'q>,
    progress: &mut Progress<'_, E>,
    runs: &mut Vec<StoredRun>,
    out: &mut O,
) -> Result<Verdict<'q>, RunFault> {
    match request.question {
        Question::Lines { line, lines, from } => {
            write_lines(alloc, texts, line, lines, from, progress, out)
        }
        Question::View { line, view } => {
            write_view(alloc, texts, line, view, rules.limits(), progress, out)
        }
        Question::Check { priority, is_whole } => {
            write_cut(alloc, &system_of(alloc, texts)?, priority, is_whole, out)
        }
        Question::Partitions { are_joined } => {
            write_cuts(alloc, &system_of(alloc, texts)?, are_joined, out)
        }
        Question::Class => write_class(alloc, texts, out),
        Question::Show => write_shown(alloc, request, texts, out),
        Question::Bounds(line) => {
            let asked = BoundsAsked {
                request,
                line,
                said: rules.said(),
                limits: rules.limits(),
            };
            let mut watch = SearchWatch::new(progress);
            write_searched(alloc, texts, asked, rules, &mut watch, runs, out)
        }
    }
}

/// Whether a denial stands in place of what was asked for.
fn is_denied(verdict: &Verdict<'_>) -> bool {
    matches!(verdict, Verdict::Denied(..))
}

/// Writes the answer to a question to `out`. A page is made first, and stays there where a line
/// names a file for it. A denial in its place is written in any case.
fn write_where<'q, O: Write, E: Write>(
    alloc: Global,
    texts: &Texts,
    request: &'q Request<'q>,
    rules: &'q Rules<'q>,
    progress: &mut Progress<'_, E>,
    stored: &mut Stored,
    out: &mut O,
) -> Result<Verdict<'q>, RunFault> {
    let Stored { runs, page } = stored;
    let Some(asked) = request.question.page() else {
        return write_answer(alloc, texts, request, rules, progress, runs, out);
    };
    let verdict = match write_answer(alloc, texts, request, rules, progress, runs, page) {
        Ok(verdict) => verdict,
        // The only write that can fail there is for want of memory.
        Err(RunFault::Write) => return Err(RunFault::Memory),
        Err(fault) => return Err(fault),
    };
    if is_denied(&verdict) {
        out.write_all(page)?;
        page.clear();
    } else if asked.output.is_none() {
        out.write_all(page)?;
    }
    Ok(verdict)
}

/// How it is shown how far a request is: on a terminal, or where the line asks for it.
fn showing_of(request: &Request<'_>, is_terminal: bool) -> Showing {
    if is_terminal {
        Showing::OneLine
    } else if request.tells_progress {
        Showing::Lines
    } else {
        Showing::Nowhere
    }
}

/// Answers a request over its texts, by rules, and gives the exit status.
fn answer_by<F: Files, O: Write, E: Write>(
    alloc: Global,
    request: &Request<'_>,
    rules: &Rules<'_>,
    texts: &Texts,
    files: &mut F,
    out: &mut O,
    err: &mut E,
    shows_progress: bool,
) -> Result<u8, RunFault> {
    let showing = showing_of(request, shows_progress);
    let mut progress = Progress::new(&mut *err, showing);
    let mut kept = Stored::new(alloc);
    let outcome = write_where(alloc, texts, request, rules, &mut progress, &mut kept, out);
    progress.end();
    let verdict = outcome?;
    out.flush()?;
    let stored = store(alloc, request, texts, &kept, files, err)?;
    let _ = verdict.write_lines(err);
    if request.is_explained {
        explain_verdict(alloc, request, texts, &verdict, err);
    }
    Ok(if stored == DONE {
        verdict.status()
    } else {
        stored
    })
}

/// Answers a request over its texts, by its rules and those of a text, and gives the exit status.
fn answer_ruled<F: Files, O: Write, E: Write>(
    alloc: Global,
    request: &Request<'_>,
    text: &[u8],
    texts: &Texts,
    files: &mut F,
    out: &mut O,
    err: &mut E,
    shows_progress: bool,
) -> Result<u8, RunFault> {
    let file = read_oil(alloc, &texts.oil)?;
    match read_rules(alloc, &file, text)? {
        RuleReading::Read(rules) => {
            let rules = request.rules.over(alloc, &rules)?;
            answer_by(
                alloc,
                request,
                &rules,
                texts,
                files,
                out,
                err,
                shows_progress,
            )
        }
        RuleReading::Refused(faults) => {
            let name = request.rules_file.name();
            let source = Source { name, text };
            let _ = write_refused(alloc, &file, source, &faults, request.is_explained, err);
            Ok(REFUSED)
        }
    }
}

/// Whether the folder that a run is to be stored in is free. If it isn't, that is told.
fn can_store<F: Files, E: Write>(
    alloc: Global,
    request: &Request<'_>,
    files: &mut F,
    err: &mut E,
) -> Result<bool, AllocError> {
    match request.question {
        Question::Bounds(
            BoundsLine {
                into: Some(folder),
                ..
            },
        ) => is_free(alloc, files, folder, err),
        _ => Ok(true),
    }
}

/// Answers a request over its texts, and gives the exit status.
fn answer_texts<F: Files, O: Write, E: Write>(
    alloc: Global,
    request: &Request<'_>,
    texts: &Texts,
    files: &mut F,
    out: &mut O,
    err: &mut E,
    shows_progress: bool,
) -> Result<u8, RunFault> {
    if !can_store(alloc, request, files, err)? {
        return Ok(WRITE_FAILED);
    }
    match &texts.rules {
        None => {
            let rules = &request.rules;
            answer_by(
                alloc,
                request,
                rules,
                texts,
                files,
                out,
                err,
                shows_progress,
            )
        }
        Some(text) => answer_ruled(alloc, request, text, texts, files, out, err, shows_progress),
    }
}

/// Writes the line of a refusal, and gives the exit status. Where it is wanted, an explanation
/// follows, as far as memory and `err` allow.
fn refuse<E: Write>(
    alloc: Global,
    request: &Request<'_>,
    texts: &Texts,
    fault: RunFault,
    err: &mut E,
) -> u8 {
    let _ = writeln!(err, "{fault}");
    if request.is_explained {
        let _ = explain_fault(alloc, request, texts, &fault, err);
    }
    status_of(&fault)
}

/// Answers a request, and gives the exit status.
fn answer<F: Files, O: Write, E: Write>(
    alloc: Global,
    request: &Request<'_>,
    files: &mut F,
    out: &mut O,
    err: &mut E,
    shows_progress: bool,
) -> u8 {
    match read_texts(alloc, request, files) {
        Ok(texts) => match answer_texts(alloc, request, &texts, files, out, err, shows_progress) {
            Ok(status) => status,
            Err(fault) => {
                let fault = as_written(fault, &texts);
                refuse(alloc, request, &texts, fault, err)
            }
        },
        Err(unread) => {
            let _ = writeln!(err, "{unread}");
            if request.is_explained {
                let _ = explain_unread(unread, err);
            }
            REFUSED
        }
    }
}

/// Prints help or the version, or why a line is refused.
fn print_help<O: Write, E: Write>(error: LineError, out: &mut O, err: &mut E) -> u8 {
    if error.kind() == ErrorKind::OutOfMemory {
        let _ = writeln!(err, "memory");
        return REFUSED;
    }
    if error.use_stderr() {
        let _ = write!(err, "{error}");
        return REFUSED_LINE;
    }
    let written = write!(out, "{error}");
    end_print(written, out, err)
}

/// Gives the exit status behind a text that was written.
fn end_print<O: Write, E: Write>(written: io::Result<()>, out: &mut O, err: &mut E) -> u8 {
    if written.is_err() || out.flush().is_err() {
        let _ = writeln!(err, "write");
        return WRITE_FAILED;
    }
    DONE
}

/// Answers what a line asks for, and gives the exit status.
fn answer_asked<F: Files, O: Write, E: Write>(
    alloc: Global,
    asked: Result<Asked<'_>, LineError>,
    files: &mut F,
    out: &mut O,
    err: &mut E,
    shows_progress: bool,
) -> u8 {
    match asked {
        Err(error) => print_help(error, out, err),
        Ok(Asked::System(request)) => answer(alloc, &request, files, out, err, shows_progress),
        Ok(Asked::Make(line)) => make_files(alloc, line, files, err),
        Ok(Asked::Import(line)) => answer_import(alloc, &line, files, out, err),
        Ok(Asked::Text(text)) => {
            let written = out.write_all(text.as_bytes());
            end_print(written, out, err)
        }
    }
}

/// Reads a line, or another one without the mode where a word is missing in it, and in that none
/// is.
fn read_either<'a>(
    alloc: Global,
    whole: &'a [String],
    short: &'a [String],
) -> Result<Asked<'a>, LineError> {
    let asked = read_line(alloc, whole, true);
    if !is_short(&asked) {
        return asked;
    }
    let without_mode = read_line(alloc, short, false);
    if is_short(&without_mode) {
        return asked;
    }
    without_mode
}

/// Answers a line that names a folder. Where a word is missing in it, it is tried without the mode.
fn answer_folder<S: AsStr, F: Files, O: Write, E: Write>(
    alloc: Global,
    words: &[S],
    folder: Folder<'_>,
    files: &mut F,
    out: &mut O,
    err: &mut E,
    shows_progress: bool,
) -> Result<u8, AllocError> {
    let rules = folder.rules(alloc)?;
    let whole = with_files(alloc, words, folder, true)?;
    let short = with_files(alloc, words, folder, false)?;
    let mut asked = read_either(alloc, whole.as_slice(), short.as_slice());
    if let Ok(Asked::System(request)) = &mut asked {
        request.take_rules_of(rules.as_str());
    }
    Ok(answer_asked(alloc, asked, files, out, err, shows_progress))
}

/// Whether a line is refused since a word is missing.
fn is_short(asked: &Result<Asked<'_>, LineError>) -> bool {
    match asked {
        Ok(_) => false,
        Err(error) => error.kind() == ErrorKind::MissingRequiredArgument,
    }
}

/// Answers a command line, of which the first word is the program's name, and gives the exit
/// status: 0, also after help; 1 for a refused input, an unreadable file or want of memory; 2 for a
/// refused line; 3 for a denied partition; 4 for a failed write; 5 for an undecided search; 6 where
/// a limit is broken. For 1 and 4 one line says on `err` what it was, for 6 and of a refused import
/// a line for each limit and refusal. Where the line asks for it, an explanation of the
/// refusal, of the denial or of what is undecided follows on `err`. With `shows_progress` a long
/// run says on `err`, on one line that is written over and taken away, how far it is; else on lines
/// of its own where the line asks for it.
pub fn command<S: AsStr, F: Files, O: Write, E: Write>(
    alloc: Global,
    words: &[S],
    files: &mut F,
    out: &mut O,
    err: &mut E,
    shows_progress: bool,
) -> u8 {
    let Some(folder) = folder_of(words) else {
        let asked = read_line(alloc, words, true);
        return answer_asked(alloc, asked, files, out, err, shows_progress);
    };
    match answer_folder(alloc, words, folder, files, out, err, shows_progress) {
        Ok(status) => status,
        Err(AllocError) => {
            let _ = writeln!(err, "memory");
            REFUSED
        }
    }
}
