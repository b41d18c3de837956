//! Partitions. The numbers of what is upper among themselves.

ghost use Rattle.std.specs.Prelude.{◌≡◌, ◌≤◌};
ghost use Rattle.osek_base.specs.Upper.{is_upper_alarm};
ghost use Rattle.osek_base.specs.Agree.{rank, is_upper_declared};

use crate::upper_part::UpperPart;
use osek_base::{AlarmId, MAX_ALARMS, MAX_RESOURCES, ResourceNumber};

impl UpperPart<'_> {
    /// The number of a resource among the upper ones.
    pub(crate) fn resource(&self, resource: ResourceNumber) -> ResourceNumber
        ensures { result ≡ rank (is_upper_declared self.now.system self.now.p) resource }
    {
        ResourceNumber::new(self.resources_below(resource.number()))
    }

    /// The number of an alarm among the upper ones.
    pub(crate) fn alarm(&self, alarm: AlarmId) -> AlarmId
        ensures { result ≡ rank (is_upper_alarm self.now.system self.now.p) alarm }
    {
        AlarmId::new(self.alarms_below(alarm.number()))
    }

    /// How many resources with a number below this one are upper.
    #[tactic(auto, using(crate::proofs::KeptSteps::rank_in, crate::proofs::KeptSteps::rank_out))]
    fn resources_below(&self, end: u8) -> u8
        requires { end ≤ MAX_RESOURCES }
        ensures is { result ≡ rank (is_upper_declared self.now.system self.now.p) end }
        ensures low { result ≤ end }
    {
        let mut rank = 0u8;
        for number in 0..end {
            if self.has_resource(ResourceNumber::new(number)) {
                rank += 1;
            }
        }
        rank
    }

    /// How many alarms with a number below this one are upper.
    #[tactic(auto, using(crate::proofs::KeptSteps::rank_in, crate::proofs::KeptSteps::rank_out))]
    fn alarms_below(&self, end: u8) -> u8
        requires { end ≤ MAX_ALARMS }
        ensures is { result ≡ rank (is_upper_alarm self.now.system self.now.p) end }
        ensures low { result ≤ end }
    {
        let mut rank = 0u8;
        for number in 0..end {
            if self.has_alarm(AlarmId::new(number)) {
                rank += 1;
            }
        }
        rank
    }
}
