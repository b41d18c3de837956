//! Events of the trace event format: slices and instants on tracks, and the names of these.

use serde_json::{Value, json};
use std::alloc::Global;
use std::io::{self, Write};

/// A group of tracks, which the format calls a process.
#[derive(Clone, Copy)]
pub(crate) enum Group {
    Routines,
    Tasks,
    Resources,
}

impl Group {
    /// All of them, in the order in which they are shown.
    pub(crate) const ALL: [Group; 3] = [Group::Routines, Group::Tasks, Group::Resources];

    fn number(self) -> u32 {
        match self {
            Group::Routines => 1,
            Group::Tasks => 2,
            Group::Resources => 3,
        }
    }

    fn name(self) -> &'static str {
        match self {
            Group::Routines => "routines",
            Group::Tasks => "tasks",
            Group::Resources => "resources",
        }
    }
}

/// A track, by its place in a group, from 1 on.
#[derive(Clone, Copy)]
pub(crate) struct Place {
    pub(crate) group: Group,
    pub(crate) number: usize,
}

/// The events that are written, one a line, in a list of JSON.
#[derive(Drop)]
pub(crate) struct Events<'w, W: Write> {
    alloc: Global,
    out: &'w mut W,
    is_begun: bool,
}

impl<'w, W: Write> Events<'w, W> {
    pub(crate) fn new(alloc: Global, out: &'w mut W) -> Self {
        Events {
            alloc,
            out,
            is_begun: false,
        }
    }

    /// Writes what stands before the events. An error is a failed write.
    pub(crate) fn begin(&mut self) -> io::Result<()> {
        self.out.write_all(b"{\"traceEvents\":[")
    }

    /// Writes what stands behind them.
    pub(crate) fn end(&mut self) -> io::Result<()> {
        self.out.write_all(b"\n]}\n")
    }

    /// Writes an event. An error is a failed write or want of memory, as of all that follow.
    fn put(&mut self, event: &Value) -> io::Result<()> {
        let before: &[u8] = if self.is_begun { b",\n" } else { b"\n" };
        self.out.write_all(before)?;
        self.is_begun = true;
        self.out.write_all(event.to_vec(self.alloc)?.as_slice())
    }

    /// Writes the name and the place of a group.
    pub(crate) fn name_group(&mut self, group: Group) -> io::Result<()> {
        let (alloc, pid) = (self.alloc, group.number());
        let name = group.name();
        let named = json!(in alloc; {
            "ph": "M", "pid": pid, "name": "process_name", "args": {"name": name}
        })?;
        self.put(&named)?;
        let sorted = json!(in alloc; {
            "ph": "M", "pid": pid, "name": "process_sort_index", "args": {"sort_index": pid}
        })?;
        self.put(&sorted)
    }

    /// Writes the name and the place of a track.
    pub(crate) fn name_track(&mut self, place: Place, name: &str) -> io::Result<()> {
        let (alloc, pid, tid) = (self.alloc, place.group.number(), place.number);
        let named = json!(in alloc; {
            "ph": "M", "pid": pid, "tid": tid, "name": "thread_name", "args": {"name": name}
        })?;
        self.put(&named)?;
        let sorted = json!(in alloc; {
            "ph": "M", "pid": pid, "tid": tid, "name": "thread_sort_index",
            "args": {"sort_index": tid}
        })?;
        self.put(&sorted)
    }

    /// Writes a slice, from its first tick to its last. A tick is a microsecond.
    pub(crate) fn slice(
        &mut self,
        place: Place,
        name: &str,
        first: u32,
        last: u32,
        told: &Value,
    ) -> io::Result<()> {
        let (alloc, pid, tid) = (self.alloc, place.group.number(), place.number);
        let ticks = last.saturating_sub(first).saturating_add(1);
        let slice = json!(in alloc; {
            "ph": "X", "pid": pid, "tid": tid, "ts": first, "dur": ticks, "name": name,
            "args": told
        })?;
        self.put(&slice)
    }

    /// Writes an instant, at the beginning of a tick.
    pub(crate) fn instant(&mut self, place: Place, name: &str, tick: u32) -> io::Result<()> {
        let (alloc, pid, tid) = (self.alloc, place.group.number(), place.number);
        let instant = json!(in alloc; {
            "ph": "i", "s": "t", "pid": pid, "tid": tid, "ts": tick, "name": name
        })?;
        self.put(&instant)
    }
}
