//! OSEK/VDX OS: system services; the modelled processor. What a tick works on becomes that of
//! another run of the same system.

ghost use Rattle.std.specs.Prelude.{◌≡◌};
ghost use Rattle.kernel.specs.Processor.{system_of};

use crate::blockers::Blockers;
use crate::processor::Processor;
use crate::watched::Watched;
use services::CopyQueues;

impl<'s, Q: CopyQueues> Processor<'s, Q> {
    /// All of it becomes that of another processor of the same system, whose programs it has
    /// already.
    pub fn copy_from(&mut self, other: &Processor<'s, Q>)
        requires { system_of self.old ≡ system_of other.now }
        ensures { self.new ≡ other.now }
    {
        self.core.copy_from(&other.core);
        self.windows.copy_from(&other.windows);
    }
}

impl<'s, Q: CopyQueues, B: Blockers> Watched<'s, Q, B> {
    /// All of it becomes that of another one of the same system.
    pub fn copy_from(&mut self, other: &Watched<'s, Q, B>)
        requires { system_of self.old.processor ≡ system_of other.now.processor }
        ensures { self.new ≡ other.now }
    {
        self.processor.copy_from(&other.processor);
        self.blocking.copy_from(&other.blocking);
    }
}
