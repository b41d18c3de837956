//! OSEK/VDX OS: interrupt processing. The flags of pending routines.

ghost use Rattle.std.specs.Prelude.{◌≡◌, ◌<◌, IfOk, false, true, replicate, slice_index_or, slice_set, length};
ghost use Rattle.std.specs.List.{list_any};
ghost use Rattle.services.specs.Pending.{AreUnset, IsForemost};

use osek_base::{IsrId, System};
use std::alloc::{AllocError, Global};
use std::marker::Model;

/// For each routine whether an interrupt of it has arrived and not started it yet. Where none is pending, that is known
/// without going through the routines. Contracts see the list of the flags.
#[derive(Drop)]
pub struct Pending {
    flags: Vec<bool>,
    /// Unset only where no flag is set.
    some: bool,
}

impl Model for Pending {
    ghost use Rattle.std.specs.Prelude.{◌≡◌, Bool, List, false};
    ghost use Rattle.services.specs.Pending.{AreUnset};

    ghost Value = { List Bool };

    ghost view = { λ p. p.flags.items };

    ghost invariant = { λ p. p.some ≡ false → AreUnset p.flags.items };
}

impl Pending {
    /// So many routines, of which none is pending.
    pub fn new(alloc: Global, count: usize) -> Result<Self, AllocError>
        ensures { IfOk result (λ p. p ≡ replicate count false) }
    {
        Ok(Pending {
            flags: vec![in alloc; false; count]?,
            some: false,
        })
    }

    /// The flags become those of as many other routines.
    pub fn copy_from(&mut self, other: &Pending)
        requires { length self.old ≡ length other.now }
        ensures { self.new ≡ other.now }
    {
        self.flags.copy_from_slice(&other.flags);
        self.some = other.some;
    }

    /// A routine is pending.
    pub fn set(&mut self, routine: IsrId)
        requires { routine < length self.old }
        ensures { self.new ≡ slice_set self.old routine true }
    {
        self.flags[routine.number() as usize] = true;
        self.some = true;
    }

    /// A routine isn't pending any more.
    pub fn clear(&mut self, routine: IsrId)
        requires { routine < length self.old }
        ensures { self.new ≡ slice_set self.old routine false }
    {
        self.flags[routine.number() as usize] = false;
        self.some = is_any_set(&self.flags);
    }

    /// Whether a routine is pending.
    pub fn is_set(&self, routine: IsrId) -> bool
        requires { routine < length self.now }
        ensures { result ≡ slice_index_or self.now routine false }
    {
        self.flags[routine.number() as usize]
    }

    /// Whether it is known that no routine is pending.
    #[inline(always)]
    pub fn is_unset(&self) -> bool
        ensures { result ≡ true → AreUnset self.now }
    {
        !self.some
    }

    /// Among the pending routines the first declared with the greatest priority.
    #[inline(always)]
    pub fn foremost(&self, system: &System) -> Option<IsrId>
        requires { length self.now ≡ length system.now.routines }
        ensures { IsForemost system.now self.now result }
    {
        if !self.some {
            return None;
        }
        foremost_set(&self.flags, system)
    }
}

/// Whether one of the flags is set.
fn is_any_set(flags: &[bool]) -> bool
    ensures { result ≡ list_any (λ f. f) flags.now }
{
    flags.iter().any(|flag| *flag)
}

/// Among the routines whose flags are set the first declared with the greatest priority.
#[inline(never)]
fn foremost_set(flags: &[bool], system: &System) -> Option<IsrId>
    requires { length flags.now ≡ length system.now.routines }
    ensures { IsForemost system.now flags.now result }
{
    let mut best = None;
    let mut greatest = 0;
    for number in (0..system.routine_count()).rev() {
        if flags[number] {
            let routine = IsrId::new(number as u8);
            let priority = system.routine_priority(routine);
            if greatest <= priority {
                best = Some(routine);
                greatest = priority;
            }
        }
    }
    best
}
