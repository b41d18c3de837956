//! How far a run or a search through every run is, for who waits.

use std::io::Write;

/// After how many ticks at least the number is shown anew: ten times a second or so.
const TICKS_BETWEEN: u32 = 50_000;

/// After how many visits of states at least the numbers of a search are shown anew.
const VISITS_BETWEEN: u64 = 10_000;

/// By what part more visits have to be made, than were, before the numbers stand on another line.
const PART_BETWEEN: u64 = 4;

/// How it is shown how far a run or a search is.
#[derive(Clone, Copy)]
pub enum Showing {
    Nowhere,
    /// On one line of a terminal, which is written over and over and taken away at the end.
    OneLine,
    /// On lines, of which a search writes fewer and fewer.
    Lines,
}

/// What says how far a run or a search is, where that is shown.
#[derive(Drop)]
pub struct Progress<'e, E> {
    err: &'e mut E,
    is_shown: bool,
    /// Whether what is shown is written over.
    is_one_line: bool,
    /// How many ticks have to be done before the number is shown anew.
    next: u32,
    /// How many visits have to be made before the numbers are.
    next_visit: u64,
}

impl<'e, E: Write> Progress<'e, E> {
    /// Progress that is shown there.
    pub fn new(err: &'e mut E, showing: Showing) -> Self {
        Progress {
            err,
            is_shown: !matches!(showing, Showing::Nowhere),
            is_one_line: matches!(showing, Showing::OneLine),
            next: TICKS_BETWEEN,
            next_visit: VISITS_BETWEEN,
        }
    }

    /// Whether it is shown.
    pub fn is_shown(&self) -> bool {
        self.is_shown
    }

    /// So many ticks are done of so many. A failed write is forgotten.
    #[inline(always)]
    pub fn note(&mut self, done: u32, ticks: u32) {
        if self.is_shown && self.next <= done {
            self.show(done, ticks);
        }
    }

    /// Shows the number anew.
    #[inline(never)]
    fn show(&mut self, done: u32, ticks: u32) {
        self.next = done.saturating_add(TICKS_BETWEEN);
        let (lead, end) = self.ends();
        let _ = write!(self.err, "{lead}{done} of {ticks} ticks{end}");
        let _ = self.err.flush();
    }

    /// What stands before the numbers and behind them.
    fn ends(&self) -> (&'static str, &'static str) {
        if self.is_one_line {
            ("\r", "")
        } else {
            ("", "\n")
        }
    }

    /// How many visits have to be made before the numbers are shown anew behind so many.
    fn visits_behind(&self, visits: u64) -> u64 {
        let more = if self.is_one_line {
            VISITS_BETWEEN
        } else {
            VISITS_BETWEEN.max(visits / PART_BETWEEN)
        };
        visits.saturating_add(more)
    }

    /// A search has made so many visits, keeps so many states, has so many of them open, has tried
    /// all that can come up to a tick, and takes so many bytes. A failed write is forgotten.
    pub fn note_search(&mut self, visits: u64, states: usize, open: usize, tick: u64, bytes: u64) {
        if self.is_shown && self.next_visit <= visits {
            self.next_visit = self.visits_behind(visits);
            let megabytes = bytes / 1_000_000;
            let (lead, end) = self.ends();
            let cover = if self.is_one_line { "    " } else { "" };
            let _ = write!(
                self.err,
                "{lead}{states} states, {open} open, tick {tick}, {megabytes} MB{cover}{end}"
            );
            let _ = self.err.flush();
        }
    }

    /// Takes the line of a terminal away. A failed write is forgotten.
    pub fn end(&mut self) {
        if self.is_one_line {
            let _ = write!(self.err, "\r{:60}\r", "");
            let _ = self.err.flush();
        }
    }
}
