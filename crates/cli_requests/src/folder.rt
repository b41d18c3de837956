//! Command lines that name a folder in place of the files of a system.

use std::alloc::{AllocError, Global};
use std::convert::AsStr;

/// The names of a system's files in their folder: the OIL file, the programs and the arrival list.
pub const NAMES: [&str; 3] = ["system.oil", "programs.asm", "arrivals.irq"];

/// The name of a system's rules in its folder.
const RULES: &str = "rules.txt";

/// How many of these files a subcommand reads, 0 where it takes no folder.
fn file_count(subcommand: &str) -> usize {
    match subcommand {
        "trace" | "upper" | "vcd" | "timeline" | "stats" => 3,
        "check" | "partitions" | "class" | "show" | "bounds" | "report" => 2,
        _ => 0,
    }
}

/// An option of a line with its value, and which words these are.
#[derive(Clone, Copy)]
struct Named<'a> {
    value: &'a str,
    /// The first word's number.
    first: usize,
    /// The last word's.
    last: usize,
}

impl Named<'_> {
    /// Whether a word of the line, by its number, is one of these.
    fn has(self, number: usize) -> bool {
        self.first <= number && number <= self.last
    }
}

/// What an option, before a word `--`, is given: as `OPTION=VALUE`, or by the word behind it.
fn option_of<'a, S: AsStr>(words: &'a [S], option: &str) -> Option<Named<'a>> {
    for (first, word) in words.iter().enumerate() {
        let word = word.as_str();
        if word == "--" {
            return None;
        }
        if word == option {
            let last = first.saturating_add(1);
            let value = words.get(last)?.as_str();
            return Some(Named { value, first, last });
        }
        if let Some((name, value)) = word.split_once('=') {
            if name == option {
                let last = first;
                return Some(Named { value, first, last });
            }
        }
    }
    None
}

/// A folder that a line names in place of files, and the arrival list that it names in place of
/// that of the folder.
#[derive(Clone, Copy)]
pub struct Folder<'a> {
    folder: Named<'a>,
    irq: Option<Named<'a>>,
}

impl Folder<'_> {
    /// Whether a word of the line, by its number, is one of the options.
    fn has(self, number: usize) -> bool {
        let is_irq = match self.irq {
            Some(irq) => irq.has(number),
            None => false,
        };
        is_irq || self.folder.has(number)
    }

    /// The name of the file in which the rules of its system are, where it has them.
    pub fn rules(&self, alloc: Global) -> Result<String, AllocError> {
        format!(in alloc; "{}/{RULES}", self.folder.value)
    }
}

/// The folder that a line names in place of files, where its subcommand takes one. An arrival list
/// is named beside it where the subcommand reads one.
pub fn folder_of<'a, S: AsStr>(words: &'a [S]) -> Option<Folder<'a>> {
    let count = file_count(words.get(1)?.as_str());
    if count == 0 {
        return None;
    }
    let folder = option_of(words, "--in")?;
    let irq = if count == NAMES.len() {
        option_of(words, "--irq")
    } else {
        None
    };
    Some(Folder { folder, irq })
}

/// Adds the names of so many files of a folder, the arrival list's by its own name where it has
/// one.
fn add_files(
    alloc: Global,
    folder: Folder<'_>,
    count: usize,
    line: &mut Vec<String>,
) -> Result<(), AllocError> {
    for (number, name) in NAMES.iter().take(count).enumerate() {
        let path = match folder.irq {
            Some(irq) if number == 2 => format!(in alloc; "{}", irq.value)?,
            _ => format!(in alloc; "{}/{name}", folder.folder.value)?,
        };
        line.push(path)?;
    }
    Ok(())
}

/// The line with its files in place of the folder, and a word behind them that stands for the mode,
/// where it is left out.
pub fn with_files<S: AsStr>(
    alloc: Global,
    words: &[S],
    folder: Folder<'_>,
    has_mode: bool,
) -> Result<Vec<String>, AllocError> {
    let mut line = Vec::new(alloc);
    for (number, word) in words.iter().enumerate() {
        let word = word.as_str();
        if !folder.has(number) {
            line.push(format!(in alloc; "{word}")?)?;
        }
        if number == 1 {
            add_files(alloc, folder, file_count(word), &mut line)?;
            if !has_mode {
                line.push(String::new(alloc))?;
            }
        }
    }
    Ok(line)
}
