//! What is told of an import: what was left out, set, kept with another meaning, or refused, where
//! and why.

use crate::expiries::ExpiryName;
use crate::sources::{Place, Source};
use std::alloc::{AllocError, Global};
use std::io::{self, Write};

/// What became of something.
#[derive(Clone, Copy)]
pub enum Verdict {
    LeftOut,
    /// It didn't stand there.
    Set,
    /// It stays, but what it says here is told.
    Kept,
    /// It can't be expressed, so nothing is imported.
    Refused,
}

/// What a message is about.
#[derive(Clone, Copy)]
pub enum Subject<'a> {
    /// `KIND NAME`, as `TASK A`.
    Object(&'a str, &'a str),
    /// `NAME = VALUE`.
    Setting(&'a str, &'a str),
    /// `NAME = VALUE as NUMBER`, where a number stands for the value.
    Renumbered(&'a str, &'a str, u32),
    /// `NAME = NUMBER`.
    Number(&'a str, u32),
    /// `KIND NAME as NAME`, where a shorter name stands for another.
    Shortened(&'a str, &'a str, &'a str),
    /// `ACTION = VALUE as ALARM NAME`, where an alarm stands for an action of a schedule table.
    Expiry(&'a str, ExpiryName<'a>),
    /// A word or sign.
    Word(&'a str),
}

/// A message.
#[derive(Clone, Copy)]
pub struct Message<'a> {
    pub place: Place,
    pub verdict: Verdict,
    pub subject: Subject<'a>,
    pub reason: &'static str,
}

/// The messages of an import, in the order of the text where each stands by itself.
#[derive(Drop)]
pub struct Messages<'a> {
    list: Vec<Message<'a>>,
    is_refused: bool,
}

/// The rank of the messages that are told last.
const LAST_RANK: usize = 2;

impl Verdict {
    /// Which messages are told first: 0, then the others up to [`LAST_RANK`], those of one rank in
    /// the order of the text.
    fn rank(self) -> usize {
        match self {
            Verdict::Refused => 0,
            Verdict::Kept => 1,
            Verdict::LeftOut | Verdict::Set => LAST_RANK,
        }
    }

    fn text(self) -> &'static str {
        match self {
            Verdict::LeftOut => "left out",
            Verdict::Set => "set",
            Verdict::Kept => "kept",
            Verdict::Refused => "refused",
        }
    }
}

impl<'a> Messages<'a> {
    pub fn new(alloc: Global) -> Self {
        Messages {
            list: Vec::new(alloc),
            is_refused: false,
        }
    }

    /// Whether something was refused.
    pub fn is_refused(&self) -> bool {
        self.is_refused
    }

    pub(crate) fn add(&mut self, message: Message<'a>) -> Result<(), AllocError> {
        if message.verdict == Verdict::Refused {
            self.is_refused = true;
        }
        self.list.push(message)?;
        Ok(())
    }

    /// Adds a message.
    pub(crate) fn tell(
        &mut self,
        place: Place,
        verdict: Verdict,
        subject: Subject<'a>,
        reason: &'static str,
    ) -> Result<(), AllocError> {
        self.add(Message {
            place,
            verdict,
            subject,
            reason,
        })
    }

    /// Adds a refusal.
    pub(crate) fn refuse(
        &mut self,
        place: Place,
        subject: Subject<'a>,
        reason: &'static str,
    ) -> Result<(), AllocError> {
        self.tell(place, Verdict::Refused, subject, reason)
    }

    /// Adds that something is left out.
    pub(crate) fn leave_out(
        &mut self,
        place: Place,
        subject: Subject<'a>,
        reason: &'static str,
    ) -> Result<(), AllocError> {
        self.tell(place, Verdict::LeftOut, subject, reason)
    }

    /// Adds messages in the order of their places.
    pub(crate) fn append(&mut self, mut others: Messages<'a>) -> Result<(), AllocError> {
        others.list.sort_by_key(|message| {
            let Place { file, line, column } = message.place;
            (file, line, column)
        })?;
        for message in &others.list {
            self.add(*message)?;
        }
        Ok(())
    }

    /// Writes a line `FILE:LINE:COLUMN: VERDICT: SUBJECT: REASON` for each message, first for what
    /// is refused, then for what is kept, and behind all how many there are of each verdict. An
    /// error is a failed write.
    pub fn write<W: Write>(&self, sources: &[Source<'_>], out: &mut W) -> io::Result<()> {
        if self.list.is_empty() {
            return Ok(());
        }
        for rank in 0..=LAST_RANK {
            for message in &self.list {
                if message.verdict.rank() == rank {
                    write_message(message, sources, out)?;
                }
            }
        }
        writeln!(
            out,
            "{} refused, {} kept, {} set, {} left out",
            self.count(Verdict::Refused),
            self.count(Verdict::Kept),
            self.count(Verdict::Set),
            self.count(Verdict::LeftOut)
        )
    }

    fn count(&self, verdict: Verdict) -> usize {
        self.list
            .iter()
            .filter(|message| message.verdict == verdict)
            .count()
    }
}

fn write_subject<W: Write>(subject: Subject<'_>, out: &mut W) -> io::Result<()> {
    match subject {
        Subject::Object(kind, name) => write!(out, "{kind} {name}"),
        Subject::Setting(name, value) => write!(out, "{name} = {value}"),
        Subject::Renumbered(name, value, number) => write!(out, "{name} = {value} as {number}"),
        Subject::Number(name, number) => write!(out, "{name} = {number}"),
        Subject::Shortened(kind, name, short) => write!(out, "{kind} {name} as {short}"),
        Subject::Expiry(value, alarm) => write!(out, "ACTION = {value} as ALARM {alarm}"),
        Subject::Word(word) => write!(out, "{word}"),
    }
}

fn write_message<W: Write>(
    message: &Message<'_>,
    sources: &[Source<'_>],
    out: &mut W,
) -> io::Result<()> {
    let Place { file, line, column } = message.place;
    let name = match sources.get(file) {
        Some(source) => source.name,
        None => "",
    };
    write!(out, "{name}:{line}:{column}: {}: ", message.verdict.text())?;
    write_subject(message.subject, out)?;
    writeln!(out, ": {}", message.reason)
}
