//! The words and options of a line.

use clap::builder::ValueParser;
use clap::{Arg, ArgAction};
use std::alloc::Global;

/// What a word or an option takes.
#[derive(Clone, Copy)]
pub(crate) enum Takes {
    /// Any text.
    Text,
    /// Any text, each time that it comes.
    Texts,
    /// A whole number, with the least and the greatest.
    Number(u32, u32),
}

impl Takes {
    fn action(self) -> ArgAction {
        match self {
            Takes::Text | Takes::Number(_, _) => ArgAction::Set,
            Takes::Texts => ArgAction::Append,
        }
    }

    fn parser<'a>(self) -> ValueParser<'a> {
        match self {
            Takes::Text | Takes::Texts => ValueParser::string(),
            Takes::Number(least, most) => ValueParser::signed(i64::from(least), i64::from(most)),
        }
    }
}

/// A word or an option of a line: its name, and last what the help says of it.
#[derive(Clone, Copy)]
pub(crate) enum Argument {
    /// A word at its place.
    Word(&'static str, Takes, &'static str),
    /// One word or more.
    Words(&'static str, &'static str),
    /// `--name`.
    Flag(&'static str, &'static str),
    /// `--name VALUE`, with what the help calls the value.
    Option(&'static str, &'static str, Takes, &'static str),
    /// The same with a letter, `-n VALUE`, of any text.
    Lettered(char, &'static str, &'static str, &'static str),
    /// The same where it has to be there.
    Required(char, &'static str, &'static str, &'static str),
}

fn word<'a>(alloc: Global, name: &'a str, takes: Takes) -> Arg<'a> {
    Arg::new(alloc, name)
        .required(true)
        .action(takes.action())
        .value_parser(takes.parser())
}

fn option<'a>(alloc: Global, name: &'a str, value: &'a str, takes: Takes) -> Arg<'a> {
    Arg::new(alloc, name)
        .long(name)
        .value_name(value)
        .action(takes.action())
        .value_parser(takes.parser())
}

fn lettered<'a>(alloc: Global, letter: char, name: &'a str, value: &'a str) -> Arg<'a> {
    option(alloc, name, value, Takes::Text).short(letter)
}

impl Argument {
    /// By which it is read.
    pub(crate) fn name(&self) -> &'static str {
        match *self {
            Argument::Word(name, _, _)
            | Argument::Words(name, _)
            | Argument::Flag(name, _)
            | Argument::Option(name, _, _, _)
            | Argument::Lettered(_, name, _, _)
            | Argument::Required(_, name, _, _) => name,
        }
    }

    /// What the help says of it.
    pub(crate) fn help(&self) -> &'static str {
        match *self {
            Argument::Word(_, _, help)
            | Argument::Words(_, help)
            | Argument::Flag(_, help)
            | Argument::Option(_, _, _, help)
            | Argument::Lettered(_, _, _, help)
            | Argument::Required(_, _, _, help) => help,
        }
    }

    /// Whether it is no option.
    pub(crate) fn is_word(&self) -> bool {
        match *self {
            Argument::Word(_, _, _) | Argument::Words(_, _) => true,
            Argument::Flag(_, _)
            | Argument::Option(_, _, _, _)
            | Argument::Lettered(_, _, _, _)
            | Argument::Required(_, _, _, _) => false,
        }
    }

    /// What the help calls the value of an option that has one.
    pub(crate) fn value(&self) -> Option<&'static str> {
        match *self {
            Argument::Option(_, value, _, _)
            | Argument::Lettered(_, _, value, _)
            | Argument::Required(_, _, value, _) => Some(value),
            Argument::Word(_, _, _) | Argument::Words(_, _) | Argument::Flag(_, _) => None,
        }
    }

    /// The letter of an option that has one.
    pub(crate) fn letter(&self) -> Option<char> {
        match *self {
            Argument::Lettered(letter, _, _, _) | Argument::Required(letter, _, _, _) => Some(
                letter,
            ),
            Argument::Word(_, _, _)
            | Argument::Words(_, _)
            | Argument::Flag(_, _)
            | Argument::Option(_, _, _, _) => None,
        }
    }

    /// Whether a line may have it several times.
    pub(crate) fn is_many(&self) -> bool {
        matches!(
            *self,
            Argument::Words(_, _) | Argument::Option(_, _, Takes::Texts, _)
        )
    }

    /// As clap has it.
    pub(crate) fn arg<'a>(&self, alloc: Global) -> Arg<'a> {
        match *self {
            Argument::Word(name, takes, help) => word(alloc, name, takes).help(help),
            Argument::Words(name, help) => {
                word(alloc, name, Takes::Texts).num_args(1..).help(help)
            }
            Argument::Flag(name, help) => Arg::new(alloc, name)
                .long(name)
                .action(ArgAction::SetTrue)
                .help(help),
            Argument::Option(name, value, takes, help) => {
                option(alloc, name, value, takes).help(help)
            }
            Argument::Lettered(letter, name, value, help) => {
                lettered(alloc, letter, name, value).help(help)
            }
            Argument::Required(letter, name, value, help) => {
                lettered(alloc, letter, name, value)
                    .required(true)
                    .help(help)
            }
        }
    }
}
