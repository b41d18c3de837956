//! Completions for bash, made of the table of subcommands.

use crate::argument::Argument;
use crate::lines::subcommands;
use std::alloc::{AllocError, Global};

const HEAD: &str =
    "# Completions of the command osek, for bash, as `osek --completions bash` prints them.

# The options of a subcommand, or of the command itself where none is given.
_osek_options() {
  case $1 in
    '') echo '--help --version --man --completions' ;;
";

const OFFERS: &str = "  esac
}

# Offers, for the word at the cursor, subcommands, options, folders behind options that take one,
# or names of files.
_osek() {
  local word=${COMP_WORDS[COMP_CWORD]} before=${COMP_WORDS[COMP_CWORD - 1]} subcommand='' at
  local subcommands='";

const BEFORE: &str = "help'
  # Bash makes a word of its own of a `=`.
  if [ \"$word\" = = ]; then
    word=''
  elif [ \"$before\" = = ]; then
    before=${COMP_WORDS[COMP_CWORD - 2]}
  fi
  for ((at = 1; at < COMP_CWORD; at++)); do
    case ${COMP_WORDS[at]} in
      -*) ;;
      *) subcommand=${COMP_WORDS[at]}; break ;;
    esac
  done
  COMPREPLY=()
  case $before in
    --completions)
      mapfile -t COMPREPLY < <(compgen -W 'bash zsh' -- \"$word\")
      return
      ;;
    ";

const FOLDERS: &str = ")
      compopt -o filenames 2> /dev/null
      mapfile -t COMPREPLY < <(compgen -d -- \"$word\")
      return
      ;;
    ";

const TAIL: &str = ") return ;;
  esac
  case $subcommand,$word in
    *,-*) mapfile -t COMPREPLY < <(compgen -W \"$(_osek_options \"$subcommand\")\" -- \"$word\") ;;
    ,* | help,*) mapfile -t COMPREPLY < <(compgen -W \"$subcommands\" -- \"$word\") ;;
    *)
      compopt -o filenames 2> /dev/null
      mapfile -t COMPREPLY < <(compgen -f -- \"$word\")
      ;;
  esac
}

complete -F _osek osek
";

/// Adds what is offered of each subcommand.
fn push_options(script: &mut String) -> Result<(), AllocError> {
    for subcommand in &subcommands() {
        script.push_str("    ")?;
        script.push_str(subcommand.name)?;
        script.push_str(") echo '--help")?;
        for group in subcommand.arguments {
            for argument in *group {
                if !argument.is_word() {
                    script.push_str(" --")?;
                    script.push_str(argument.name())?;
                }
            }
        }
        script.push_str("' ;;\n")?;
    }
    Ok(())
}

/// Notes an option, once of each name.
fn note<'a>(noted: &mut Vec<&'a str>, name: &'a str) -> Result<(), AllocError> {
    for other in noted.as_slice() {
        if *other == name {
            return Ok(());
        }
    }
    noted.push(name)?;
    Ok(())
}

/// Adds the options of which the value is a folder, or those of which it is no name of a folder or
/// a file, as a pattern. Files are offered behind all else.
fn push_valued(alloc: Global, script: &mut String, are_folders: bool) -> Result<(), AllocError> {
    let mut noted = Vec::new(alloc);
    for subcommand in &subcommands() {
        for group in subcommand.arguments {
            for argument in *group {
                push_pattern(script, &mut noted, argument, are_folders)?;
            }
        }
    }
    Ok(())
}

/// Adds an option to a pattern, where it is of that kind and no other of its name stands there.
fn push_pattern(
    script: &mut String,
    noted: &mut Vec<&'static str>,
    argument: &Argument,
    are_folders: bool,
) -> Result<(), AllocError> {
    let Some(value) = argument.value() else {
        return Ok(());
    };
    let count = noted.len();
    if value != "FILE" && (value == "FOLDER") == are_folders {
        note(noted, argument.name())?;
    }
    if noted.len() == count {
        return Ok(());
    }
    script.push_str(if count == 0 { "" } else { " | " })?;
    if let Some(letter) = argument.letter() {
        script.push_str("-")?;
        script.push(letter)?;
        script.push_str(" | ")?;
    }
    script.push_str("--")?;
    script.push_str(argument.name())
}

/// The script.
pub(crate) fn bash_completions(alloc: Global) -> Result<String, AllocError> {
    let mut script = String::new(alloc);
    script.push_str(HEAD)?;
    push_options(&mut script)?;
    script.push_str(OFFERS)?;
    for subcommand in &subcommands() {
        script.push_str(subcommand.name)?;
        script.push_str(" ")?;
    }
    script.push_str(BEFORE)?;
    push_valued(alloc, &mut script, true)?;
    script.push_str(FOLDERS)?;
    push_valued(alloc, &mut script, false)?;
    script.push_str(TAIL)?;
    Ok(script)
}
