//! What is needed, as a table of a system's tasks, routines, resources and counters.

ghost use Rattle.std.specs.Prelude.{ℕ, ◌≡◌};
ghost use Rattle.std.specs.Option.{option_map};
ghost use Rattle.search_needs.specs.Table.{entry, has, need_of};

use crate::numbers::Numbers;
use osek_base::{CounterId, Owner, REGISTERS, ResourceNumber};

/// The indices, numbers mod 64, that each register may have at a place.
pub(crate) type Row = [Numbers; REGISTERS];

/// What is needed of a task or routine: which registers, which words of its window, and at each
/// place of its program the indices that each register may have.
#[derive(Drop)]
pub struct OwnerNeeds {
    pub(crate) registers: Numbers,
    pub(crate) words: Numbers,
    pub(crate) indices: Vec<Row>,
}

/// What is needed of each task and routine, which declared resources' windows, and of which counters
/// the value.
#[derive(Drop)]
pub struct Needs {
    pub(crate) tasks: Vec<OwnerNeeds>,
    pub(crate) routines: Vec<OwnerNeeds>,
    pub(crate) shared: Numbers,
    pub(crate) counters: Numbers,
}

impl Needs {
    /// What stands here of a task or routine.
    #[inline(always)]
    fn entry(&self, owner: Owner) -> Option<&OwnerNeeds>
        ensures { option_map (λ own. own.now) result ≡ entry self.now owner }
    {
        match owner {
            Owner::Task(task) => self.tasks.get(task.number() as usize),
            Owner::Routine(routine) => self.routines.get(routine.number() as usize),
        }
    }

    /// The registers of a task or routine that are needed, as a set: bit r is set exactly where
    /// register r is in it.
    #[inline(always)]
    pub fn needed_registers(&self, owner: Owner) -> u64
        ensures { (r : ℕ) → (need_of self.now).registers owner r ≡ has result r }
    {
        match self.entry(owner) {
            None => 0,
            Some(own) => own.registers.bits(),
        }
    }

    /// The words of the window of a task or routine that are needed, as a set: bit i is set exactly
    /// where word i is in it.
    #[inline(always)]
    pub fn needed_words(&self, owner: Owner) -> u64
        ensures { (i : ℕ) → (need_of self.now).words owner i ≡ has result i }
    {
        match self.entry(owner) {
            None => 0,
            Some(own) => own.words.bits(),
        }
    }

    /// Whether the window of a declared resource is needed.
    #[inline(always)]
    pub fn needs_shared(&self, resource: ResourceNumber) -> bool
        ensures { result ≡ (need_of self.now).shared resource }
    {
        self.shared.has(resource.number())
    }

    /// Whether the value of a counter is needed.
    #[inline(always)]
    pub fn needs_value(&self, counter: CounterId) -> bool
        ensures { result ≡ (need_of self.now).counters counter }
    {
        self.counters.has(counter.number())
    }
}
