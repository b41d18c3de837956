//! Completions for zsh, made of the table of subcommands.

use crate::argument::Argument;
use crate::help;
use crate::lines::subcommands;
use crate::subcommand::Subcommand;
use std::alloc::{AllocError, Global};

const HEAD: &str = "#compdef osek
# Completions of the command osek, for zsh, as `osek --completions zsh` prints them.

_osek() {
  local context state line
  local -a subcommands help
  typeset -A opt_args
  subcommands=(
";

const OWN: &str = "    'help:Prints the words of a subcommand'
  )
  help=('(-h --help)'{-h,--help}'[Print help]')

  _arguments -C $help '(-V --version)'{-V,--version}'[Print version]' \\
    '(- *)--man[";

const OWN_MORE: &str = "]' \\
    '(- *)--completions=[";

const STATES: &str = "]:SHELL:(bash zsh)' \\
    '1:subcommand:->subcommand' '*::word:->word'
  case $state in
    subcommand) _describe subcommand subcommands ;;
    word)
      case $line[1] in
";

const TAIL: &str = "        help) _describe subcommand subcommands ;;
      esac
      ;;
  esac
}

_osek \"$@\"
";

/// Adds an explanation, which stands between quotes, mostly in brackets.
fn push_text(script: &mut String, text: &str) -> Result<(), AllocError> {
    for sign in text.chars() {
        match sign {
            '`' => {}
            '\'' => script.push_str("'\\''")?,
            '[' => script.push_str("\\[")?,
            ']' => script.push_str("\\]")?,
            ':' => script.push_str("\\:")?,
            _ => script.push(sign)?,
        }
    }
    Ok(())
}

/// Adds an option's name with its hyphens.
fn push_name(script: &mut String, name: &str) -> Result<(), AllocError> {
    script.push_str("--")?;
    script.push_str(name)
}

/// Adds an option beside which another one can't stand, behind those before it.
fn push_other(script: &mut String, name: &str, is_first: bool) -> Result<(), AllocError> {
    script.push_str(if is_first { "(" } else { " " })?;
    push_name(script, name)
}

/// Adds the options beside which this one can't stand.
fn push_excluded(
    script: &mut String,
    subcommand: &Subcommand,
    name: &str,
) -> Result<(), AllocError> {
    let mut is_first = true;
    for exclusion in subcommand.exclusions {
        if exclusion.name == name {
            for other in exclusion.others {
                push_other(script, other, is_first)?;
                is_first = false;
            }
        } else if exclusion.others.contains(&name) {
            push_other(script, exclusion.name, is_first)?;
            is_first = false;
        }
    }
    script.push_str(if is_first { "" } else { ")" })
}

/// Adds how often an option may stand, beside which others, and how it is written.
fn push_written(
    script: &mut String,
    subcommand: &Subcommand,
    argument: &Argument,
) -> Result<(), AllocError> {
    let name = argument.name();
    script.push_str("'")?;
    if let Some(letter) = argument.letter() {
        script.push_str("(-")?;
        script.push(letter)?;
        script.push_str(" --")?;
        script.push_str(name)?;
        script.push_str(")'{-")?;
        script.push(letter)?;
        script.push_str(",--")?;
        script.push_str(name)?;
        return script.push_str("=}'");
    }
    push_excluded(script, subcommand, name)?;
    script.push_str(if argument.is_many() { "*" } else { "" })?;
    push_name(script, name)?;
    script.push_str(if argument.value().is_some() { "=" } else { "" })
}

/// Adds what is offered of an option, on a line of its own.
fn push_option(
    script: &mut String,
    subcommand: &Subcommand,
    argument: &Argument,
) -> Result<(), AllocError> {
    script.push_str(" \\\n            ")?;
    push_written(script, subcommand, argument)?;
    script.push_str("[")?;
    push_text(script, argument.help())?;
    script.push_str("]")?;
    if let Some(value) = argument.value() {
        script.push_str(":")?;
        script.push_str(value)?;
        script.push_str(match value {
            "FOLDER" => ":_files -/",
            "FILE" => ":_files",
            _ => ":",
        })?;
    }
    script.push_str("'")
}

/// Adds what is offered of a subcommand.
fn push_branch(script: &mut String, subcommand: &Subcommand) -> Result<(), AllocError> {
    script.push_str("        ")?;
    script.push_str(subcommand.name)?;
    script.push_str(")\n          _arguments $help")?;
    for group in subcommand.arguments {
        for argument in *group {
            if !argument.is_word() {
                push_option(script, subcommand, argument)?;
            }
        }
    }
    script.push_str(" \\\n            '*:file:_files'\n          ;;\n")
}

/// Adds a subcommand and its meaning.
fn push_meaning(script: &mut String, subcommand: &Subcommand) -> Result<(), AllocError> {
    script.push_str("    '")?;
    script.push_str(subcommand.name)?;
    script.push_str(":")?;
    push_text(script, subcommand.about)?;
    script.push_str("'\n")
}

/// The script.
pub(crate) fn zsh_completions(alloc: Global) -> Result<String, AllocError> {
    let mut script = String::new(alloc);
    script.push_str(HEAD)?;
    for subcommand in &subcommands() {
        push_meaning(&mut script, subcommand)?;
    }
    script.push_str(OWN)?;
    push_text(&mut script, help::MAN)?;
    script.push_str(OWN_MORE)?;
    push_text(&mut script, help::COMPLETIONS)?;
    script.push_str(STATES)?;
    for subcommand in &subcommands() {
        push_branch(&mut script, subcommand)?;
    }
    script.push_str(TAIL)?;
    Ok(script)
}
