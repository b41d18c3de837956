//! Partitions. The upper part of a system by itself.

ghost use Rattle.std.specs.Prelude.{◌≡◌, IfOk};
ghost use Rattle.osek_base.specs.Separable.{Separable};
ghost use Rattle.osek_base.specs.Agree.{Agree, HasUpperTasks, upper_part};
ghost use Rattle.osek_base.specs.Laws.{HaveOneView};

use crate::upper_part::UpperPart;
use osek_base::{Parts, System};
use std::alloc::{AllocError, Global};

/// The upper part of a system at p, 0 to the highest task priority, as a system by itself: the switches, modes, events,
/// counters and routines, and of the rest what is upper, that is the tasks of priority p or more,
/// the resources of ceiling p or more, and the alarms that act on such tasks. All stand in their
/// order, with their masks and programs; resources and alarms have new numbers.
///
/// It is separable at p, agrees with the system from p upward, and has the same view at p: in every
/// mode, under every arrival list and for every number of ticks. At 0 it is the whole system.
pub fn upper_only(alloc: Global, system: &System, p: u8) -> Result<System, AllocError>
    requires { Separable system.now p }
    ensures made { IfOk result (λ part. part ≡ upper_part system.now p) }
    ensures tasks { IfOk result (λ part. HasUpperTasks system.now part p) }
    ensures separable { IfOk result (λ part. Separable part p) }
    ensures agrees { IfOk result (λ part. Agree system.now part p) }
    ensures shows { IfOk result (λ part. HaveOneView system.now part p) }
    ensures whole { IfOk result (λ part. p ≡ 0 → part ≡ system.now) }
{
    system.shows_proper();
    let parts = UpperPart::new(system, p).parts(alloc)?;
    Ok(System::new(parts))
}

impl UpperPart<'_> {
    fn parts(&self, alloc: Global) -> Result<Parts, AllocError>
        ensures { IfOk result (λ parts. parts ≡ upper_part self.now.system self.now.p) }
    {
        let parts = self.system().parts();
        Ok(Parts {
            names: self.names(alloc)?,
            tasks: self.tasks(alloc)?,
            routines: self.routines(alloc)?,
            resources: self.resources(alloc)?,
            events: Vec::from_slice(alloc, parts.events.as_slice())?,
            counters: Vec::from_slice(alloc, parts.counters.as_slice())?,
            alarms: self.alarms(alloc)?,
            hooks: parts.hooks,
            use_res_scheduler: parts.use_res_scheduler,
        })
    }
}
