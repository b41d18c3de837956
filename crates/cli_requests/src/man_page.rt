//! The manual page, in the language of man(7), made of the table of subcommands.

use crate::argument::Argument;
use crate::help;
use crate::lines::{shared, subcommands};
use crate::subcommand::Subcommand;
use std::alloc::{AllocError, Global};

const HEAD: &str = "User commands\"
.nh
.SH NAME
osek \\- run OSEK systems tick by tick, and check what holds of them
.SH SYNOPSIS
\\fBosek\\fR \\fISUBCOMMAND\\fR [\\fIOPTION\\fR ...] [\\fIWORD\\fR ...]
.br
\\fBosek help\\fR \\fISUBCOMMAND\\fR
.br
\\fBosek\\fR \\fB\\-\\-help\\fR | \\fB\\-\\-version\\fR | \\fB\\-\\-man\\fR |
\\fB\\-\\-completions\\fR \\fISHELL\\fR
.SH DESCRIPTION
\\fBosek\\fR reads a system: an OIL file, the programs of its tasks and interrupt routines,
and a list of interrupts.
It prints the trace of every tick, and tells what holds of the system.
.SH WORDS
\\fB\\-\\fR in place of a file's name is standard input, for one of them.
A word that begins with \\fB\\-\\fR is taken as a name only behind \\fB\\-\\-\\fR.
These words mean the same in each subcommand:
";

const OPTIONS: &str = ".SH OPTIONS
Options stand anywhere behind the subcommand. These go with several subcommands, as told there:
";

const OWN_OPTIONS: &str = ".PP
Without a subcommand:
.TP
\\fB\\-h\\fR, \\fB\\-\\-help\\fR
Prints help; behind a subcommand, the words of that.
.TP
\\fB\\-V\\fR, \\fB\\-\\-version\\fR
Prints the version, and what is proved.
.TP
\\fB\\-\\-man\\fR
Prints this page.
.TP
\\fB\\-\\-completions\\fR \\fISHELL\\fR
Prints completions, for \\fBbash\\fR or \\fBzsh\\fR.
.SH SUBCOMMANDS
";

const TAIL: &str = ".SH EXAMPLES
Ten ticks of the system in the folder \\fIdoor\\fR:
.PP
.RS
\\fBosek trace \\-\\-in door 10\\fR
.RE
.PP
A picture of the last hundred of a thousand:
.PP
.RS
\\fBosek timeline \\-\\-in door 1000 \\-\\-from 900 > door.svg\\fR
.RE
.PP
Where a system can be cut, and why not elsewhere:
.PP
.RS
\\fBosek partitions \\-\\-in door \\-\\-joined \\-\\-explain\\fR
.RE
.SH IN THE REPOSITORY
The script \\fB./osek\\fR at the top of the repository builds this program and runs it.
It explains refusals and denials without being told, unless the line has \\fB\\-\\-brief\\fR.
\\fB./osek \\-\\-unproved\\fR runs a program that is built without proofs, and so does
\\fB./osek\\fR where the variable \\fBOSEK_UNPROVED\\fR is 1.
\\fB./osek install\\fR \\fIFOLDER\\fR copies the proved program, this page and completions
for bash and zsh into a folder.
.SH SEE ALSO
The pages in \\fIdocs\\fR of the repository: \\fITUTORIAL.md\\fR begins, \\fICARD.md\\fR
has instructions, services and limits on one page, \\fIKERNEL.md\\fR the rules,
\\fIINPUTS.md\\fR and \\fIOUTPUTS.md\\fR the texts that are read and printed.
";

/// Adds a text: the signs that mean something in the page are written as such, and what stands
/// between backquotes is bold.
fn push_text(page: &mut String, text: &str) -> Result<(), AllocError> {
    let mut is_bold = false;
    for sign in text.chars() {
        match sign {
            '`' => {
                page.push_str(if is_bold { "\\fR" } else { "\\fB" })?;
                is_bold = !is_bold;
            }
            '-' => page.push_str("\\-")?,
            '\\' => page.push_str("\\e")?,
            _ => page.push(sign)?,
        }
    }
    Ok(())
}

/// Adds a text in bold.
fn push_bold(page: &mut String, text: &str) -> Result<(), AllocError> {
    page.push_str("\\fB")?;
    push_text(page, text)?;
    page.push_str("\\fR")
}

/// Adds a text in italics.
fn push_italic(page: &mut String, text: &str) -> Result<(), AllocError> {
    page.push_str("\\fI")?;
    push_text(page, text)?;
    page.push_str("\\fR")
}

/// Adds an option's name with its hyphens.
fn push_option(page: &mut String, argument: &Argument) -> Result<(), AllocError> {
    page.push_str("\\fB\\-\\-")?;
    push_text(page, argument.name())?;
    page.push_str("\\fR")
}

/// Adds how a word or an option is written.
fn push_tag(page: &mut String, argument: &Argument) -> Result<(), AllocError> {
    if argument.is_word() {
        return push_italic(page, argument.name());
    }
    if let Some(letter) = argument.letter() {
        page.push_str("\\fB\\-")?;
        page.push(letter)?;
        page.push_str("\\fR, ")?;
    }
    push_option(page, argument)?;
    if let Some(value) = argument.value() {
        page.push_str(" ")?;
        push_italic(page, value)?;
    }
    Ok(())
}

/// Adds a word or an option with its meaning.
fn push_entry(page: &mut String, argument: &Argument) -> Result<(), AllocError> {
    page.push_str(".TP\n")?;
    push_tag(page, argument)?;
    page.push_str("\n")?;
    push_text(page, argument.help())?;
    page.push_str(".")?;
    if argument.is_many() {
        page.push_str(" It may stand several times.")?;
    }
    page.push_str("\n")
}

/// Whether it means the same in each subcommand that has it.
fn is_shared(argument: &Argument) -> bool {
    for group in &shared() {
        for other in *group {
            if other.name() == argument.name() && other.help() == argument.help() {
                return true;
            }
        }
    }
    false
}

/// Adds what means the same in each subcommand: the words, or the options.
fn push_shared(page: &mut String, are_words: bool) -> Result<(), AllocError> {
    for group in &shared() {
        for argument in *group {
            if argument.is_word() == are_words {
                push_entry(page, argument)?;
            }
        }
    }
    Ok(())
}

/// Adds the line that a subcommand begins with: its name and its words.
fn push_title(page: &mut String, subcommand: &Subcommand) -> Result<(), AllocError> {
    page.push_str(".SS ")?;
    page.push_str(subcommand.name)?;
    for group in subcommand.arguments {
        for argument in *group {
            if argument.is_word() {
                page.push_str(" ")?;
                page.push_str(argument.name())?;
                page.push_str(if argument.is_many() { "..." } else { "" })?;
            }
        }
    }
    page.push_str("\n")
}

/// Adds the names of the options that a subcommand has and that are told before.
fn push_taken(page: &mut String, subcommand: &Subcommand) -> Result<(), AllocError> {
    let mut is_first = true;
    for group in subcommand.arguments {
        for argument in *group {
            if !argument.is_word() && is_shared(argument) {
                page.push_str(if is_first { " Takes " } else { ", " })?;
                push_option(page, argument)?;
                is_first = false;
            }
        }
    }
    page.push_str(if is_first { "\n" } else { ".\n" })
}

/// Adds the words and options that are a subcommand's own.
fn push_own(page: &mut String, subcommand: &Subcommand) -> Result<(), AllocError> {
    for group in subcommand.arguments {
        for argument in *group {
            if !is_shared(argument) {
                push_entry(page, argument)?;
            }
        }
    }
    Ok(())
}

/// Adds what stands at the end of a subcommand's help: a line that stands in from the margin is a
/// command.
fn push_example(page: &mut String, text: &str) -> Result<(), AllocError> {
    page.push_str(".PP\n")?;
    for line in text.split('\n') {
        match line.strip_prefix("  ") {
            Some(command) => {
                page.push_str(".RS\n.nf\n")?;
                push_bold(page, command)?;
                page.push_str("\n.fi\n.RE\n")?;
            }
            None if line.is_empty() => page.push_str(".PP\n")?,
            None => {
                push_text(page, line)?;
                page.push_str("\n")?;
            }
        }
    }
    Ok(())
}

/// Adds what is told of a subcommand.
fn push_subcommand(page: &mut String, subcommand: &Subcommand) -> Result<(), AllocError> {
    push_title(page, subcommand)?;
    push_text(page, subcommand.about)?;
    page.push_str(".")?;
    push_taken(page, subcommand)?;
    push_own(page, subcommand)?;
    push_example(page, subcommand.example)
}

/// Adds the exit statuses, as the help tells them: a number and its meaning, two spaces apart.
fn push_statuses(page: &mut String) -> Result<(), AllocError> {
    page.push_str(".SH EXIT STATUS\n")?;
    for line in help::STATUSES.split('\n') {
        if let Some(row) = line.strip_prefix("  ") {
            if let Some((status, meaning)) = row.split_once("  ") {
                page.push_str(".TP\n")?;
                page.push_str(status)?;
                page.push_str("\n")?;
                push_text(page, meaning)?;
                page.push_str(".\n")?;
            }
        }
    }
    Ok(())
}

/// The manual page.
pub(crate) fn man_page(alloc: Global) -> Result<String, AllocError> {
    let mut page = String::new(alloc);
    page.push_str(".TH OSEK 1 \"\" \"osek ")?;
    page.push_str(help::VERSION)?;
    page.push_str("\" \"")?;
    page.push_str(HEAD)?;
    push_shared(&mut page, true)?;
    page.push_str(OPTIONS)?;
    push_shared(&mut page, false)?;
    page.push_str(OWN_OPTIONS)?;
    for subcommand in &subcommands() {
        push_subcommand(&mut page, subcommand)?;
    }
    push_statuses(&mut page)?;
    page.push_str(TAIL)?;
    Ok(page)
}
