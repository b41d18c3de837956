//! A subcommand with its words and options.

use crate::argument::Argument;
use clap::{Arg, Command};
use std::alloc::{AllocError, Global};

/// An option of a subcommand, and others beside which it can't stand.
#[derive(Clone, Copy)]
pub(crate) struct Exclusion {
    pub name: &'static str,
    pub others: &'static [&'static str],
}

/// A subcommand, with what its help says of it.
#[derive(Clone, Copy)]
pub(crate) struct Subcommand {
    pub name: &'static str,
    pub about: &'static str,
    /// What stands at the end of its help.
    pub example: &'static str,
    /// Its words and options, in the order of its help.
    pub arguments: &'static [&'static [Argument]],
    /// The options that don't go together, each two of them once.
    pub exclusions: &'static [Exclusion],
}

impl Subcommand {
    /// The options beside which that of a name is told not to stand.
    fn conflicts(&self, name: &str) -> &'static [&'static str] {
        for exclusion in self.exclusions {
            if exclusion.name == name {
                return exclusion.others;
            }
        }
        &[]
    }

    fn args<'a>(&self, alloc: Global) -> Result<Vec<Arg<'a>>, AllocError> {
        let mut args = Vec::new(alloc);
        for group in self.arguments {
            for argument in *group {
                let conflicts = self.conflicts(argument.name());
                args.push(argument.arg(alloc).conflicts_with_all(conflicts)?)?;
            }
        }
        Ok(args)
    }

    /// As clap has it.
    pub(crate) fn command<'a>(&self, alloc: Global) -> Result<Command<'a>, AllocError> {
        Command::new(alloc, self.name)
            .about(self.about)
            .after_help(self.example)
            .args(self.args(alloc)?)
    }
}
