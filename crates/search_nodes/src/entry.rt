//! How a node of a search became what it is.

ghost use Rattle.std.specs.Prelude.{◌≤◌};

/// How a node became what it is.
#[derive(Clone, Copy)]
pub(crate) enum Entry {
    /// It is the first.
    First,
    /// By a tick behind an earlier entry, in which the routines of a set arrive.
    Tick { before: u32, set: u32 },
    /// It was joined with the node of the entry before this one; until then it was as an older
    /// entry says. The labels that were raised then have a number.
    Joined { older: u32, raised: u32 },
}

/// An entry as it is kept. There is one for each node and more, so it takes eight bytes: entries
/// are numbered below 2^32 - 1, and sets of routines and what was raised below [`NONE`].
#[derive(Clone, Copy)]
pub(crate) struct Kept {
    /// The entry before it or the older one; none for the first.
    earlier: u32,
    /// The set or the number of the labels, and above it [`JOINED`] or not.
    rest: u32,
}

/// Stands for no entry.
const NO_ENTRY: u32 = u32::MAX;

/// What is added to the number of the labels of a node that was joined.
const JOINED: u32 = 0x8000_0000;

/// Stands for no set, and for the number of no labels.
const NONE: u32 = JOINED - 1;

/// A number of an entry. One that doesn't fit stands for none that there is.
pub(crate) fn short(number: u64) -> u32 {
    u32::try_from(number).unwrap_or(NO_ENTRY)
}

/// A number that is kept beside a mark.
fn unmarked(number: u32) -> u32
    ensures { result ≤ 0x7fff_ffff }
{
    if number < NONE { number } else { NONE }
}

impl Kept {
    /// What is kept of an entry.
    pub(crate) fn of(entry: Entry) -> Self {
        match entry {
            Entry::First => Kept {
                earlier: NO_ENTRY,
                rest: 0,
            },
            Entry::Tick { before, set } => Kept {
                earlier: before,
                rest: unmarked(set),
            },
            Entry::Joined { older, raised } => Kept {
                earlier: older,
                rest: JOINED + unmarked(raised),
            },
        }
    }

    /// The entry.
    pub(crate) fn entry(self) -> Entry {
        if self.rest >= JOINED {
            return Entry::Joined {
                older: self.earlier,
                raised: self.rest - JOINED,
            };
        }
        if self.earlier == NO_ENTRY {
            return Entry::First;
        }
        Entry::Tick {
            before: self.earlier,
            set: self.rest,
        }
    }
}
