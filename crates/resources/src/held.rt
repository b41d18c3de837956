//! The resources of one job.

ghost use Rattle.osek_base.specs.declared.status.Status.{Status};
ghost use Rattle.std.specs.Prelude.{if◌then◌else◌, ◌≡◌, ◌<◌, ◌≤◌, ◌+◌, [], ◌∷◌, ◌++◌, IsFalse, length, map};
ghost use Rattle.osek_base.specs.declared.limits.TheConstants.{MAX_RESOURCES};
ghost use Rattle.osek_base.specs.Lists.{is_empty, greatest, same_resource, without_last};
ghost use Rattle.osek_base.specs.Ceiling.{ceiling};
ghost use Rattle.resources.specs.Held.{is_held, is_last, IsLow, number_of, priority_with};

use arrayvec::ArrayVec;
use osek_base::{MAX_RESOURCES, ResId, Status, System, TaskId};
use std::marker::Model;

/// The declared resources and RES_SCHEDULER.
const MOST_HELD: usize = MAX_RESOURCES + 1;

/// What one job holds: at most [`MOST_HELD`] resources, each once. Contracts see the list in the
/// order got.
#[derive(Drop)]
pub struct Held {
    resources: ArrayVec<ResId, MOST_HELD>,
}

impl Model for Held {
    ghost use Rattle.std.specs.Prelude.{List};
    ghost use Rattle.osek_base.specs.declared.ids.ResId.{ResId};
    ghost use Rattle.resources.specs.Held.{IsEachOnce};

    ghost Value = { List ResId };

    ghost view = { λ h. h.resources.items };

    ghost invariant = { λ h. IsEachOnce h.resources.items };
}

impl Held {
    /// Nothing is held.
    pub fn new() -> Self
        ensures { result ≡ [] }
    {
        Held {
            resources: ArrayVec::new(),
        }
    }

    /// Nothing is held any more.
    #[inline(always)]
    pub fn clear(&mut self)
        ensures { self.new ≡ [] }
    {
        self.resources.clear();
    }

    /// What is held becomes what another job holds, in its order.
    pub fn copy_from(&mut self, other: &Held)
        ensures { self.new ≡ other.now }
    {
        replace_all(&mut self.resources, other.resources.as_slice());
    }

    /// What is held, in the order got.
    pub fn list(&self) -> &[ResId]
        ensures value { result.now ≡ self.now }
        ensures few { length result.now ≤ MAX_RESOURCES + 1 }
    {
        self.resources.as_slice()
    }

    /// Gets a resource that isn't held: it is the last.
    pub fn get(&mut self, resource: ResId)
        requires { IsFalse (is_held resource self.old) }
        ensures { self.new ≡ self.old ++ resource ∷ [] }
    {
        let number = number_of(&resource);
        prove!(number <= MAX_RESOURCES as u8);
        self.resources.push(resource);
    }

    /// ReleaseResource: the resource that was got last isn't held any more. E_OS_NOFUNC where it is another one or isn't
    /// held; then nothing changes.
    #[inline(always)]
    pub fn release(&mut self, resource: ResId) -> Status
        ensures status { result ≡ (if is_last resource self.old then Status.Ok else Status.NoFunc) }
        ensures held { self.new
            ≡ (if is_last resource self.old then without_last self.old else self.old) }
    {
        if !self.is_last(resource) {
            return Status::NoFunc;
        }
        self.resources.pop();
        Status::Ok
    }

    /// The dynamic priority of a job of the task that holds this: the greatest of the task's priority, the ceilings of
    /// the resources and, where `taken`, the task's internal ceiling.
    #[inline(always)]
    pub fn dynamic(&self, system: &System, task: TaskId, taken: bool) -> u8
        requires { task < length system.now.tasks }
        ensures { result ≡ priority_with system.now task self.now taken }
    {
        let internal = if taken {
            system.internal_ceiling(task).unwrap_or(0)
        } else {
            0
        };
        let declared = match self.resources.as_slice().split_first() {
            None => 0,
            Some((first, rest)) => highest_from(system, *first, rest),
        };
        system.priority_of(task).max(declared.max(internal))
    }

    /// Whether nothing is held.
    #[inline(always)]
    pub fn holds_none(&self) -> bool
        ensures { result ≡ is_empty self.now }
    {
        self.resources.is_empty()
    }

    /// Whether a resource is held. Most jobs hold none.
    #[inline(always)]
    pub fn holds(&self, resource: ResId) -> bool
        ensures { result ≡ is_held resource self.now }
    {
        !self.resources.is_empty() && self.is_among(resource)
    }

    /// Whether a resource is among those that are held.
    fn is_among(&self, resource: ResId) -> bool
        ensures { result ≡ is_held resource self.now }
    {
        self.resources.iter().any(|held| is_same(resource, *held))
    }

    /// Whether a resource is the one that was got last.
    #[inline(always)]
    fn is_last(&self, resource: ResId) -> bool
        ensures { result ≡ is_last resource self.now }
    {
        match self.resources.as_slice().last() {
            None => false,
            Some(last) => is_same(*last, resource),
        }
    }
}

/// The content becomes some resources.
fn replace_all(resources: &mut ArrayVec<ResId, MOST_HELD>, others: &[ResId])
    requires { length others.now ≤ MOST_HELD }
    ensures { resources.new.items ≡ others.now }
{
    if resources.is_empty() && others.is_empty() {
        return;
    }
    resources.clear();
    match resources.try_extend_from_slice(others) {
        Ok(()) => {}
        Err(_) => unreachable!(),
    }
}

/// The greatest ceiling of some resources, 0 where there is none.
fn highest_ceiling(system: &System, resources: &[ResId]) -> u8
    ensures { result ≡ greatest (map (ceiling system.now) resources.now) }
{
    match resources.split_first() {
        None => 0,
        Some((first, rest)) => highest_ceiling(system, rest).max(system.ceiling(*first)),
    }
}

/// The greater of a resource's ceiling and the greatest of others. Most jobs hold one resource.
#[inline(always)]
fn highest_from(system: &System, first: ResId, rest: &[ResId]) -> u8
    ensures { result ≡ greatest (map (ceiling system.now) (first ∷ rest.now)) }
{
    let highest = system.ceiling(first);
    if rest.is_empty() {
        highest
    } else {
        highest_ceiling(system, rest).max(highest)
    }
}

/// Whether two resources are the same.
#[inline(always)]
fn is_same(a: ResId, b: ResId) -> bool
    ensures { result ≡ same_resource a b }
{
    match a {
        ResId::Declared(m) => match b {
            ResId::Declared(n) => m.number() == n.number(),
            ResId::Scheduler => false,
        },
        ResId::Scheduler => match b {
            ResId::Declared(_) => false,
            ResId::Scheduler => true,
        },
    }
}

/// A number for each resource, which tells it apart; RES_SCHEDULER has the one behind those of declared resources.
fn number_of(resource: &ResId) -> u8
    ensures value { result ≡ number_of resource.now }
    ensures low { IsLow resource.now }
{
    match resource {
        ResId::Declared(number) => number.number(),
        ResId::Scheduler => MAX_RESOURCES as u8,
    }
}
