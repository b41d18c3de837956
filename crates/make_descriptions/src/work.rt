//! Work: the instructions that take just so many ticks.

ghost use Rattle.std.specs.Prelude.{◌≡◌, ◌<◌};
ghost use Rattle.make_descriptions.specs.Work.{work_ticks};

/// The instructions of a piece of work: a loop of so many rounds, none where that is 0, and behind
/// it so many `NOP`.
#[derive(Clone, Copy)]
pub struct Work {
    pub rounds: u32,
    pub nops: u32,
}

/// The most ticks for which single instructions are no more than a loop with its rest.
const LONGEST_LINE: u32 = 5;

impl Work {
    /// The shortest instructions that take just so many ticks.
    pub fn of(ticks: u32) -> Work
        ensures { work_ticks result.rounds result.nops ≡ ticks }
    {
        if ticks <= LONGEST_LINE {
            Work {
                rounds: 0,
                nops: ticks,
            }
        } else {
            Work {
                rounds: ticks / 2 - 1,
                nops: ticks % 2,
            }
        }
    }

    /// How many instructions these are.
    pub fn instructions(self) -> usize {
        let looped = if self.rounds == 0 { 0 } else { 4 };
        (self.nops as usize).saturating_add(looped)
    }
}
