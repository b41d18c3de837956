//! Partitions. The part of a system from a priority upward.

ghost use Rattle.std.specs.Prelude.{◌≡◌};
ghost use Rattle.osek_base.specs.Upper.{is_upper_task, is_upper_alarm};
ghost use Rattle.osek_base.specs.Agree.{is_upper_declared};
ghost use Rattle.partition_check.specs.Above.{above};

use crate::upper::{is_upper_alarm, is_upper_resource, is_upper_task};
use osek_base::{AlarmId, ResId, ResourceNumber, System, TaskId};
use std::marker::Model;

/// The part of a system from a priority upward.
#[derive(Drop)]
pub(crate) struct UpperPart<'s> {
    system: &'s System,
    p: u8,
}

impl<'s> Model for UpperPart<'s> {
    ghost use Rattle.partition_check.specs.Above.{Above};

    ghost Value = { Above };

    ghost view = { λ u. record { system = u.system.now; p = u.p } };
}

impl<'s> UpperPart<'s> {
    pub(crate) fn new(system: &'s System, p: u8) -> Self
        ensures { result ≡ above system.now p }
    {
        UpperPart { system, p }
    }

    /// The whole system.
    pub(crate) fn system(&self) -> &'s System
        ensures { result.now ≡ self.now.system }
    {
        self.system
    }

    pub(crate) fn has_task(&self, task: TaskId) -> bool
        ensures { result ≡ is_upper_task self.now.system self.now.p task }
    {
        is_upper_task(self.system, self.p, task)
    }

    pub(crate) fn has_resource(&self, resource: ResourceNumber) -> bool
        ensures { result ≡ is_upper_declared self.now.system self.now.p resource }
    {
        is_upper_resource(self.system, self.p, ResId::Declared(resource))
    }

    pub(crate) fn has_alarm(&self, alarm: AlarmId) -> bool
        ensures { result ≡ is_upper_alarm self.now.system self.now.p alarm }
    {
        is_upper_alarm(self.system, self.p, alarm)
    }
}
