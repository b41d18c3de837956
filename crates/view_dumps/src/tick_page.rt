//! Value change dumps: the text of a tick.

ghost use Rattle.std.specs.Prelude.{◌≡◌, []};
ghost use Rattle.view_dumps.specs.Ticks.{after_tick, nothing_written, tick_text};

use crate::dump_text::DumpText;
use crate::last_values::LastValues;
use crate::time_front::TimeFront;
use osek_base::System;
use seen_ticks::Observation;

/// What the variables were last written with, the front of the time when they were, and the text
/// that is written.
#[derive(Drop)]
pub(crate) struct TickPage {
    pub values: LastValues,
    time: TimeFront,
    pub text: DumpText,
}

impl TickPage {
    /// Nothing was written yet.
    pub fn new() -> Self
        ensures { result.values ≡ nothing_written }
    {
        TickPage {
            values: LastValues::new(),
            time: TimeFront::of(0),
            text: DumpText::new(),
        }
    }

    /// The text becomes what is written of a tick, the first of those that are written or a later
    /// one.
    #[inline(always)]
    pub fn put_tick(&mut self, system: &System, is_later: bool, tick: u32, seen: &Observation)
        ensures text { self.new.text
            ≡ tick_text system.now is_later tick self.old.values seen.now }
        ensures after { self.new.values ≡ after_tick self.old.values seen.now }
    {
        let text = &mut self.text;
        self.time.put_line(tick, text);
        if is_later {
            self.values.push_later(system, tick, seen, text);
        } else {
            self.values.push_first(system, tick, seen, text);
        }
    }
}
