//! OSEK/VDX OS: alarms. Figures of an alarm.

ghost use Rattle.std.specs.Prelude.{List, [], ◌∷◌, ◌≡◌};
ghost use Rattle.view_figures.specs.declared.alarm_figures.AlarmTick.{AlarmTick};
ghost use Rattle.view_figures.specs.AlarmSums.{alarm_figures};

use crate::counts::add_where;
use crate::reached::note_first;
use seen_ticks::AlarmSeen;

/// What is seen of an alarm in a tick, and the tick.
#[derive(Clone, Copy)]
pub struct AlarmTick {
    /// The number of the tick, from 0.
    pub tick: u32,
    /// What is seen of the alarm.
    pub seen: AlarmSeen,
}

/// Figures of an alarm.
#[derive(Clone, Copy, Default)]
pub struct AlarmFigures {
    /// In how many ticks it expired.
    pub expiries: u32,
    /// How often it expired and its action was refused.
    pub refused: u32,
    /// The first tick of these.
    pub first_refusal: Option<u32>,
}

impl AlarmFigures {
    /// Nothing was seen.
    #[tactic(auto, unfolding(crate::specs::AlarmSums::alarm_figures))]
    pub fn new() -> Self
        ensures { result ≡ alarm_figures [] }
    {
        AlarmFigures {
            expiries: 0,
            refused: 0,
            first_refusal: None,
        }
    }

    /// A tick more is seen.
    #[inline(always)]
    pub fn observe(&mut self, tick: &AlarmTick)
        ensures { (before : List AlarmTick) → self.old ≡ alarm_figures before
            → self.new ≡ alarm_figures (tick.now ∷ before) }
    {
        add_where(&mut self.expiries, 1, tick.seen.has_expired);
        add_where(&mut self.refused, 1, tick.seen.is_refused);
        note_first(&mut self.first_refusal, tick.seen.is_refused, tick.tick);
    }
}
