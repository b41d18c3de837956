//! What is written behind the line of a refusal or a denial, where it is asked for.

use crate::inputs::{Texts, system_of};
use crate::partitions::{Stretch, stretches};
use crate::verdict::{ArrivingFault, Verdict};
use arrival_reader::IrqFault;
use cli_requests::{Question, Request, RunLine, Wanted};
use explain_systems::{explain_denial, explain_denials, explain_generation};
use explain_texts::{
    LineFault, Source, explain_arrivals, explain_mode, explain_name, explain_oil,
    explain_open_mode, explain_programs,
};
use oil_reader::Kind;
use partition_check::NamedDenial;
use partition_isolation::check_isolation;
use std::alloc::Global;
use std::io::{self, Write};
use tracer::RunFault;

/// The OIL file of a request.
pub(crate) fn oil<'t>(request: &Request<'t>, texts: &'t Texts) -> Source<'t> {
    Source {
        name: request.oil,
        text: &texts.oil,
    }
}

/// The program text of a request.
pub(crate) fn asm<'t>(request: &Request<'t>, texts: &'t Texts) -> Source<'t> {
    Source {
        name: request.asm,
        text: &texts.asm,
    }
}

/// The arrival list of a request, empty where none is asked for, and the mode that it names.
fn run_of<'t>(request: &Request<'t>, texts: &'t Texts) -> (Source<'t>, Option<&'t str>) {
    let name = match request.question.run_line() {
        Some(RunLine { irq, .. }) => irq,
        None => "",
    };
    let irq = Source {
        name,
        text: &texts.irq,
    };
    (irq, request.question.mode())
}

/// The line of a refused arrival list, and what is wrong with it.
fn refused_line(fault: &IrqFault) -> Option<(usize, LineFault)> {
    match *fault {
        IrqFault::Syntax(line) => Some((line, LineFault::Syntax)),
        IrqFault::UnknownIsr(line) => Some((line, LineFault::UnknownIsr)),
        IrqFault::Order(line) => Some((line, LineFault::Order)),
        IrqFault::TooMany(line) => Some((line, LineFault::TooMany)),
        IrqFault::TickRange(line) => Some((line, LineFault::TickRange)),
        IrqFault::Memory => None,
    }
}

/// Writes where a refusal is in the texts, what is wrong there, and what would be allowed. Want of
/// memory and a failed write have no explanation.
pub fn explain_fault<W: Write>(
    alloc: Global,
    request: &Request<'_>,
    texts: &Texts,
    fault: &RunFault,
    out: &mut W,
) -> io::Result<()> {
    let oil = oil(request, texts);
    let asm = asm(request, texts);
    let (irq, mode) = run_of(request, texts);
    match fault {
        RunFault::Oil(fault) => explain_oil(alloc, oil, *fault, out),
        RunFault::Asm(fault) => explain_programs(alloc, asm, fault, out),
        RunFault::Gen(fault) => explain_generation(alloc, oil, asm, fault, out),
        RunFault::Irq(fault) => match refused_line(fault) {
            Some((line, fault)) => explain_arrivals(alloc, oil, irq, line, fault, out),
            None => Ok(()),
        },
        RunFault::Boot(_) => match mode {
            Some(mode) => explain_mode(alloc, oil, mode, out),
            None => explain_open_mode(alloc, oil, out),
        },
        RunFault::Denied(_) | RunFault::Memory | RunFault::Write => Ok(()),
    }
}

/// Writes of a denial at a priority what is named or listed, where, and what would be allowed.
fn explain_cut<W: Write>(
    alloc: Global,
    request: &Request<'_>,
    texts: &Texts,
    p: u8,
    denial: &NamedDenial,
    out: &mut W,
) -> io::Result<()> {
    explain_denial(
        alloc,
        oil(request, texts),
        asm(request, texts),
        p,
        denial,
        out,
    )
}

/// The same of several denials, one behind the other, with a lead behind the place of each.
fn explain_cuts<W: Write>(
    alloc: Global,
    request: &Request<'_>,
    texts: &Texts,
    p: u8,
    lead: &str,
    denials: &[NamedDenial],
    out: &mut W,
) -> io::Result<()> {
    explain_denials(
        alloc,
        oil(request, texts),
        asm(request, texts),
        p,
        lead,
        denials,
        out,
    )
}

/// Explains why a system can't be cut at the priorities at which it can't.
fn explain_partitions<E: Write>(
    alloc: Global,
    request: &Request<'_>,
    texts: &Texts,
    err: &mut E,
) -> Result<(), RunFault> {
    let system = system_of(alloc, texts)?;
    for priority in 0..=system.top_priority() {
        if let Err(denial) = check_isolation(&system, priority) {
            let denial = denial.named(&system);
            write!(err, "{priority}: ")?;
            explain_cut(alloc, request, texts, priority, &denial, err)?;
        }
    }
    Ok(())
}

/// Explains a stretch of priorities at which a system can't be cut, at the lowest of them. The
/// stretch stands behind the place.
fn explain_stretch<E: Write>(
    alloc: Global,
    request: &Request<'_>,
    texts: &Texts,
    stretch: Stretch,
    denial: NamedDenial,
    err: &mut E,
) -> Result<(), RunFault> {
    let lead = format!(in alloc; "{stretch}: ")?;
    let first = stretch.first;
    explain_cuts(alloc, request, texts, first, lead.as_str(), &[denial], err)?;
    Ok(())
}

/// Explains the stretches of priorities at which a system can't be cut.
fn explain_joined<E: Write>(
    alloc: Global,
    request: &Request<'_>,
    texts: &Texts,
    err: &mut E,
) -> Result<(), RunFault> {
    let system = system_of(alloc, texts)?;
    for stretch in stretches(alloc, &system)? {
        if let Err(denial) = check_isolation(&system, stretch.first) {
            let denial = denial.named(&system);
            explain_stretch(alloc, request, texts, stretch, denial, err)?;
        }
    }
    Ok(())
}

/// Explains a name of the line that no object of some kinds has of what is asked for.
fn explain_word<E: Write>(
    alloc: Global,
    request: &Request<'_>,
    texts: &Texts,
    kinds: &[Kind],
    name: &str,
    err: &mut E,
) -> io::Result<()> {
    let else_what = "is below the cut";
    explain_name(alloc, oil(request, texts), kinds, name, else_what, err)
}

/// Explains a figure of which a run is wanted, and which nothing has.
fn explain_wanted<E: Write>(
    alloc: Global,
    request: &Request<'_>,
    texts: &Texts,
    wanted: &Wanted<'_>,
    err: &mut E,
) -> io::Result<()> {
    let kinds = [Kind::Task, Kind::Isr, Kind::Resource, Kind::Alarm];
    let else_what = "has no such figure of what is searched; the tables have those that there are";
    explain_name(
        alloc,
        oil(request, texts),
        &kinds,
        wanted.name,
        else_what,
        err,
    )
}

/// Explains what was denied, or a name that nothing has, as far as memory and `err` allow.
pub fn explain_verdict<E: Write>(
    alloc: Global,
    request: &Request<'_>,
    texts: &Texts,
    verdict: &Verdict<'_>,
    err: &mut E,
) {
    match verdict {
        Verdict::Denied(priority, denial) => {
            let _ = explain_cut(alloc, request, texts, *priority, denial, err);
        }
        Verdict::AllDenied(priority, denials) => {
            let _ = explain_cuts(alloc, request, texts, *priority, "", denials, err);
        }
        Verdict::NoRow(name) | Verdict::NoLimit(name) => {
            let kinds = [Kind::Task, Kind::Isr];
            let _ = explain_word(alloc, request, texts, &kinds, *name, err);
        }
        Verdict::NoArriving(ArrivingFault::Unknown(_, name)) => {
            let _ = explain_word(alloc, request, texts, &[Kind::Isr], *name, err);
        }
        Verdict::NoFigure(wanted) => {
            let _ = explain_wanted(alloc, request, texts, wanted, err);
        }
        _ => {}
    }
    match request.question {
        Question::Partitions { are_joined: false } => {
            let _ = explain_partitions(alloc, request, texts, err);
        }
        Question::Partitions { are_joined: true } => {
            let _ = explain_joined(alloc, request, texts, err);
        }
        _ => {}
    }
}
