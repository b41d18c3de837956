//! OIL: standard objects. How long the times of a counter's alarms may be.

use crate::attributes::default_of;
use crate::braces::inside;
use crate::defaults::Defaults;
use crate::items::{Item, Written, value_in};
use crate::priorities::number;
use oil_reader::AttributeName;
use osek_base::MAX_COUNTS;
use std::alloc::{AllocError, Global};

/// What a counter says of its alarms, in counts. What it says wrongly allows every time.
#[derive(Clone, Copy)]
pub(crate) struct CounterLimits<'a> {
    name: &'a str,
    /// The longest time: its MAXALLOWEDVALUE.
    pub most: u32,
    /// The shortest cycle: its MINCYCLE.
    pub least_cycle: u32,
}

/// The limits of the counters of a file.
#[derive(Drop)]
pub(crate) struct Counters<'a> {
    list: Vec<CounterLimits<'a>>,
}

/// The number of an attribute among those of a counter, or of its default.
fn number_of(
    attribute: AttributeName,
    items: &[Item<'_>],
    depth: usize,
    defaults: &Defaults<'_>,
) -> Option<u32> {
    match value_in(items, depth, attribute.word()) {
        Some("AUTO") | None => number(defaults.of(attribute).or(default_of(attribute))?),
        Some(value) => number(value),
    }
}

impl<'a> Counters<'a> {
    /// Those of the objects among items, which lie at that depth.
    pub(crate) fn new(
        alloc: Global,
        items: &[Item<'a>],
        depth: usize,
        defaults: &Defaults<'_>,
    ) -> Result<Self, AllocError> {
        let mut list = Vec::new(alloc);
        let own = depth.saturating_add(1);
        for (at, item) in items.iter().enumerate() {
            if let ("COUNTER", Written::Name(name), true) = (
                item.word,
                item.written,
                item.depth == depth,
            ) {
                let attributes = inside(items, at, depth);
                let most = number_of(AttributeName::MaxAllowedValue, attributes, own, defaults);
                let least = number_of(AttributeName::MinCycle, attributes, own, defaults);
                list.push(CounterLimits {
                    name,
                    most: most.unwrap_or(MAX_COUNTS).min(MAX_COUNTS),
                    least_cycle: least.unwrap_or(1).max(1),
                })?;
            }
        }
        Ok(Counters { list })
    }

    /// The limits of the counter of that name.
    pub(crate) fn of(&self, name: &str) -> Option<CounterLimits<'a>> {
        for counter in &self.list {
            if counter.name == name {
                return Some(*counter);
            }
        }
        None
    }
}
