//! The alarms that are due in a tick, in declaration order.

ghost use Rattle.std.specs.Prelude.{◌≡◌, ◌<◌, ◌≤◌, ◌∷◌, ◌++◌, [], length, slice_index_or};

use osek_base::{AlarmId, MAX_ALARMS};
use std::marker::Model;

/// The alarms that are due, at most [`MAX_ALARMS`]. Contracts see the list of their numbers.
#[derive(Drop)]
pub struct DueList {
    alarms: [AlarmId; MAX_ALARMS],
    len: usize,
}

impl Model for DueList {
    ghost use Rattle.std.specs.Prelude.{ℕ, List, ◌≡◌, ◌≤◌, length, take};
    ghost use Rattle.osek_base.specs.declared.limits.TheConstants.{MAX_ALARMS};

    ghost Value = { List ℕ };

    ghost view = { λ d. take d.len d.alarms };

    ghost invariant = { λ d. (d.len ≤ MAX_ALARMS) × (length d.alarms ≡ MAX_ALARMS) };
}

impl DueList {
    /// No alarm.
    pub fn new() -> Self
        ensures { result ≡ [] }
    {
        DueList {
            alarms: [AlarmId::new(0); MAX_ALARMS],
            len: 0,
        }
    }

    /// Takes all alarms out.
    #[inline(always)]
    pub fn clear(&mut self)
        ensures { self.new ≡ [] }
    {
        self.len = 0;
    }

    /// The content becomes that of another list.
    pub fn copy_from(&mut self, other: &DueList)
        ensures { self.new ≡ other.now }
    {
        self.alarms = other.alarms;
        self.len = other.len;
    }

    /// How many alarms there are.
    #[inline(always)]
    pub fn len(&self) -> usize
        ensures value { result ≡ length self.now }
        ensures few { result ≤ MAX_ALARMS }
    {
        self.len
    }

    /// Adds an alarm behind the others.
    #[inline(always)]
    pub fn push(&mut self, alarm: AlarmId)
        requires { length self.old < MAX_ALARMS }
        ensures { self.new ≡ self.old ++ alarm ∷ [] }
    {
        self.alarms[self.len] = alarm;
        self.len += 1;
    }

    /// The alarm at a place of the list.
    #[inline(always)]
    pub fn at(&self, place: usize) -> AlarmId
        requires { place < length self.now }
        ensures { result ≡ slice_index_or self.now place 0 }
    {
        self.alarms[place]
    }
}
