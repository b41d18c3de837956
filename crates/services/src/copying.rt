//! OSEK/VDX OS: system services. A running system becomes as another of the same system is.

ghost use Rattle.std.specs.Prelude.{◌≡◌, length};

use crate::copy_queues::CopyQueues;
use crate::interrupts::Active;
use crate::objects::Objects;
use crate::os_core::Core;
use crate::shared_window::SharedWindow;
use crate::slot::Slot;

impl<'s, Q: CopyQueues> Objects<'s, Q> {
    /// All of it becomes that of other objects of the same system. It takes no memory.
    pub fn copy_from(&mut self, other: &Objects<'s, Q>)
        requires { self.old.system ≡ other.now.system }
        ensures { self.new ≡ other.now }
    {
        self.ready.copy_from(&other.ready);
        copy_slots(&mut self.slots, &other.slots);
        self.running = other.running;
        self.gone = other.gone;
        self.active = copied(&other.active);
        self.pending.copy_from(&other.pending);
        self.disabled = other.disabled;
        self.suspended_all = other.suspended_all;
        self.suspended_os = other.suspended_os;
        self.alarms.copy_from(&other.alarms);
        self.masks.copy_from_slice(&other.masks);
        copy_windows(&mut self.shared, &other.shared);
        self.over = other.over;
    }
}

impl<'s, Q: CopyQueues> Core<'s, Q> {
    /// All of it becomes that of another core of the same system. It takes no memory.
    pub fn copy_from(&mut self, other: &Core<'s, Q>)
        requires { self.old.system ≡ other.now.system }
        ensures { self.new ≡ other.now }
    {
        self.objects.copy_from(&other.objects);
        self.is_dispatched = other.is_dispatched;
        self.is_settled = other.is_settled;
    }
}

/// Control blocks become those of other tasks.
fn copy_slots(slots: &mut [Slot], others: &[Slot])
    requires { length slots.old ≡ length others.now }
    ensures { slots.new ≡ others.now }
{
    for number in 0..slots.len() {
        let slot = &mut slots[number];
        slot.copy_from(&others[number]);
    }
}

/// Windows become those of other resources.
fn copy_windows(windows: &mut [SharedWindow], others: &[SharedWindow])
    requires { length windows.old ≡ length others.now }
    ensures { windows.new ≡ others.now }
{
    for number in 0..windows.len() {
        let window = &mut windows[number];
        window.copy_from(&others[number]);
    }
}

/// The active routine, if there is one, with its registers and its place.
fn copied(active: &Option<Active>) -> Option<Active>
    ensures { result ≡ active.now }
{
    match active {
        None => None,
        Some(active) => Some(active.save()),
    }
}
