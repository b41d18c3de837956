//! OSEK/VDX OS: interrupt processing, category 2. Arrivals of interrupts.

ghost use Rattle.std.specs.Prelude.{◌≡◌, ◌↔◌, IsTrue, IsSome, IfSome};
ghost use Rattle.osek_base.specs.ArrivalList.{are_in_order, is_arrival_list};

use crate::ids::IsrId;
use crate::limits::{MAX_ARRIVALS, MAX_TICKS};
use std::marker::Model;

/// A routine's interrupt arrives at a tick.
#[derive(Clone, Copy)]
pub struct Arrival {
    /// The tick, below [`MAX_TICKS`] in a list of arrivals.
    pub tick: u32,
    pub routine: IsrId,
}

/// The arrivals of a run, at most [`MAX_ARRIVALS`], at ticks that don't fall and are below [`MAX_TICKS`]. Seen as the list.
#[derive(Drop)]
pub struct Arrivals {
    list: Vec<Arrival>,
}

impl Model for Arrivals {
    ghost use Rattle.std.specs.Prelude.{List, IsTrue};
    ghost use Rattle.osek_base.specs.declared.arrivals.Arrival.{Arrival};
    ghost use Rattle.osek_base.specs.ArrivalList.{is_arrival_list};

    ghost Value = { List Arrival };

    ghost view = { λ a. a.list.items };

    ghost invariant = { λ a. IsTrue (is_arrival_list a.list.items) };
}

impl Arrivals {
    /// The arrivals in that list, where it keeps the order and the limits.
    pub fn new(list: Vec<Arrival>) -> Option<Self>
        ensures kept { IsSome result ↔ IsTrue (is_arrival_list list.items) }
        ensures value { IfSome result (λ arrivals. arrivals ≡ list.items) }
    {
        if list.len() <= MAX_ARRIVALS && are_in_order(list.as_slice()) {
            Some(Arrivals { list })
        } else {
            None
        }
    }

    /// The arrivals, in order.
    pub fn list(&self) -> &[Arrival]
        ensures value { result.now ≡ self.now }
        ensures kept { IsTrue (is_arrival_list self.now) }
    {
        self.list.as_slice()
    }
}

fn are_in_order(arrivals: &[Arrival]) -> bool
    ensures { result ≡ are_in_order 0 arrivals.now }
{
    let mut least = 0;
    for arrival in arrivals {
        if arrival.tick < least || arrival.tick >= MAX_TICKS {
            return false;
        }
        least = arrival.tick;
    }
    true
}
