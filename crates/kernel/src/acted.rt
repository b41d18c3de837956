//! OSEK/VDX OS: alarms. The alarms that acted in a tick.

ghost use Rattle.std.specs.Prelude.{◌≡◌, []};

use alarms::DueList;

/// The alarms that were due in a tick, in declaration order, and those of them whose action was
/// refused.
#[derive(Drop)]
pub struct Acted {
    pub due: DueList,
    pub refused: DueList,
}

impl Acted {
    /// No alarm was due.
    pub fn clear(&mut self)
        ensures { self.new ≡ record { due = []; refused = [] } }
    {
        self.due.clear();
        self.refused.clear();
    }

    /// Both become those of another tick.
    pub fn copy_from(&mut self, other: &Acted)
        ensures { self.new ≡ other.now }
    {
        self.due.copy_from(&other.due);
        self.refused.copy_from(&other.refused);
    }
}
