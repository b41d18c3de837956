//! OSEK/VDX OS: task management, scheduling policy. Ready queues that can become others.

ghost use Rattle.std.specs.Prelude.{◌≡◌};

use ready_queues::ReadyQueues;

/// Ready queues that can become others with as much room.
pub trait CopyQueues: ReadyQueues {
    /// The tasks of each level become those of other queues. It takes no memory.
    fn copy_from(&mut self, other: &Self)
        requires { Self.room self.old ≡ Self.room other.now }
        ensures queues { Self.queues self.new ≡ Self.queues other.now }
        ensures room { Self.room self.new ≡ Self.room other.now };
}
