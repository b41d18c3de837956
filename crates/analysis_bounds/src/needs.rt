//! Items of which a number is to be worked out, and which others each needs for that.
//!
//! Items are the nodes by their numbers, and behind them activations of each task, what each event
//! of each task holds and what it costs, alarms that pay when they are set, and the section of a
//! dispatch.

use osek_base::{MAX_ALARMS, MAX_EVENTS, MAX_TASKS};
use std::alloc::{AllocError, Global};

/// Stands where a list of edges ends.
const END: usize = usize::MAX;

/// How many events all tasks may have.
const EVENTS: usize = MAX_TASKS * MAX_EVENTS;

/// What an item is.
#[derive(Clone, Copy)]
pub(crate) enum Item {
    Node(usize),
    Task(usize),
    /// What follows the wait that goes on by an event, by its number.
    Held(usize),
    /// What an event costs where it is set, by its number.
    Set(usize),
    /// What an alarm starts that pays when it is set.
    Alarm(usize),
    Section,
}

/// The number of an event of a task.
pub(crate) fn event_number(task: usize, event: usize) -> usize {
    task.saturating_mul(MAX_EVENTS).saturating_add(event)
}

/// The number of an item, where there are so many nodes.
pub(crate) fn number_of(item: Item, nodes: usize) -> usize {
    match item {
        Item::Node(node) => node,
        Item::Task(task) => nodes.saturating_add(task),
        Item::Held(event) => nodes.saturating_add(MAX_TASKS).saturating_add(event),
        Item::Set(event) => nodes
            .saturating_add(MAX_TASKS + EVENTS)
            .saturating_add(event),
        Item::Alarm(alarm) => nodes
            .saturating_add(MAX_TASKS + 2 * EVENTS)
            .saturating_add(alarm),
        Item::Section => nodes.saturating_add(MAX_TASKS + 2 * EVENTS + MAX_ALARMS),
    }
}

/// The item of a number.
pub(crate) fn item_of(number: usize, nodes: usize) -> Item {
    if number < nodes {
        return Item::Node(number);
    }
    let other = number - nodes;
    if other < MAX_TASKS {
        return Item::Task(other);
    }
    let event = other - MAX_TASKS;
    if event < EVENTS {
        Item::Held(event)
    } else if event < 2 * EVENTS {
        Item::Set(event - EVENTS)
    } else if event < 2 * EVENTS + MAX_ALARMS {
        Item::Alarm(event - 2 * EVENTS)
    } else {
        Item::Section
    }
}

/// A node at which a job of the level waits.
#[derive(Clone, Copy)]
pub(crate) struct Wait {
    pub(crate) task: usize,
    /// The events that it waits for.
    pub(crate) mask: u32,
    /// The node at which it goes on.
    pub(crate) woken: usize,
    /// The events that are used there.
    pub(crate) used: u32,
}

/// Which items need which, and what is known of each.
#[derive(Drop)]
pub(crate) struct Needs {
    /// How many there are that are nodes.
    nodes: usize,
    pub(crate) waits: Vec<Wait>,
    /// Of each node, whether who is there counts.
    counted: Vec<bool>,
    /// Of each alarm, whether it pays when it is set.
    paying: Vec<bool>,
    /// Of each item, how many that it needs aren't known.
    missing: Vec<usize>,
    /// Of each item, its first edge, to one that needs it.
    firsts: Vec<usize>,
    /// Of each edge, who needs.
    needing: Vec<usize>,
    /// Of each edge, the next one of the same item.
    others: Vec<usize>,
    /// The items that need nothing more that isn't known.
    ready: Vec<usize>,
    /// Whether an item's number is known.
    known: Vec<bool>,
    /// .. and the numbers; of what isn't a node, the greatest so far.
    values: Vec<u64>,
}

impl Needs {
    /// Of so many nodes nothing is known.
    pub(crate) fn of(alloc: Global, nodes: usize) -> Result<Self, AllocError> {
        let mut needs = Needs {
            nodes,
            waits: Vec::new(alloc),
            counted: Vec::new(alloc),
            paying: Vec::new(alloc),
            missing: Vec::new(alloc),
            firsts: Vec::new(alloc),
            needing: Vec::new(alloc),
            others: Vec::new(alloc),
            ready: Vec::new(alloc),
            known: Vec::new(alloc),
            values: Vec::new(alloc),
        };
        for _ in 0..number_of(Item::Section, nodes).saturating_add(1) {
            needs.missing.push(0)?;
            needs.firsts.push(END)?;
            needs.known.push(false)?;
            needs.values.push(0)?;
        }
        Ok(needs)
    }

    /// Says of the next node whether who is there counts. An error is want of memory.
    pub(crate) fn push_counted(&mut self, counts: bool) -> Result<(), AllocError> {
        self.counted.push(counts)?;
        Ok(())
    }

    /// Whether who is at a node counts.
    pub(crate) fn counts(&self, node: usize) -> bool {
        node < self.counted.len() && self.counted[node]
    }

    /// Says of the next alarm whether it pays when it is set. An error is want of memory.
    pub(crate) fn push_paying(&mut self, pays: bool) -> Result<(), AllocError> {
        self.paying.push(pays)?;
        Ok(())
    }

    /// Whether an alarm pays when it is set.
    pub(crate) fn pays(&self, alarm: usize) -> bool {
        alarm < self.paying.len() && self.paying[alarm]
    }

    /// The first needs the second. An error is want of memory.
    pub(crate) fn add(&mut self, who: Item, whom: Item) -> Result<(), AllocError> {
        let who = number_of(who, self.nodes);
        let whom = number_of(whom, self.nodes);
        if who < self.missing.len() && whom < self.firsts.len() {
            self.missing[who] = self.missing[who].saturating_add(1);
            let edge = self.needing.len();
            self.others.push(self.firsts[whom])?;
            self.needing.push(who)?;
            self.firsts[whom] = edge;
        }
        Ok(())
    }

    /// What is known of an item; 0 where nothing is.
    pub(crate) fn value(&self, item: Item) -> u64 {
        let number = number_of(item, self.nodes);
        if number < self.values.len() {
            self.values[number]
        } else {
            0
        }
    }

    /// Whether the number of an item is known.
    pub(crate) fn is_known(&self, item: Item) -> bool {
        let number = number_of(item, self.nodes);
        number < self.known.len() && self.known[number]
    }

    /// How many items there are.
    pub(crate) fn count(&self) -> usize {
        self.values.len()
    }

    /// All that needs nothing is ready. An error is want of memory.
    pub(crate) fn begin(&mut self) -> Result<(), AllocError> {
        for number in 0..self.missing.len() {
            if self.missing[number] == 0 {
                self.ready.push(number)?;
            }
        }
        Ok(())
    }

    /// The next item that needs nothing more.
    pub(crate) fn next(&mut self) -> Option<Item> {
        match self.ready.pop() {
            None => None,
            Some(number) => Some(item_of(number, self.nodes)),
        }
    }

    /// The number of an item.
    pub(crate) fn set(&mut self, item: Item, value: u64) {
        let number = number_of(item, self.nodes);
        if number < self.values.len() {
            self.values[number] = value;
        }
    }

    /// One that needs an item of that number knows it.
    fn tell(&mut self, who: usize, value: u64) -> Result<(), AllocError> {
        if who >= self.missing.len() || who >= self.values.len() {
            return Ok(());
        }
        if who >= self.nodes {
            self.values[who] = self.values[who].max(value);
        }
        self.missing[who] = self.missing[who].saturating_sub(1);
        if self.missing[who] == 0 {
            self.ready.push(who)?;
        }
        Ok(())
    }

    /// The number of an item is known, and told to all that need it. An error is want of memory.
    pub(crate) fn close(&mut self, item: Item) -> Result<(), AllocError> {
        let number = number_of(item, self.nodes);
        let value = self.value(item);
        if number >= self.known.len() || number >= self.firsts.len() {
            return Ok(());
        }
        self.known[number] = true;
        let mut edge = self.firsts[number];
        for _ in 0..self.needing.len() {
            if edge >= self.needing.len() || edge >= self.others.len() {
                break;
            }
            let who = self.needing[edge];
            edge = self.others[edge];
            self.tell(who, value)?;
        }
        Ok(())
    }
}
