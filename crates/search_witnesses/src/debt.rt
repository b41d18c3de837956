//! OSEK/VDX OS: interrupt processing, category 2. What interrupts owe by a rule.

ghost use Rattle.std.specs.Prelude.{List, ◌∷◌, ◌≡◌, ◌==◌, ◌&&◌};
ghost use Rattle.osek_base.specs.declared.arrivals.Arrival.{Arrival};
ghost use Rattle.search_witnesses.specs.Listing.{debt_left, keeps_from};

use arrival_rules::ArrivalRule;
use osek_base::Arrival;

/// The number of the routine of an arrival.
pub(crate) fn routine_of(arrival: &Arrival) -> usize
    ensures { result ≡ arrival.now.routine }
{
    usize::from(arrival.routine.number())
}

/// Whether an arrival is of the routine of a rule.
fn is_of(rule: &ArrivalRule, arrival: &Arrival) -> bool
    ensures { result ≡ (arrival.now.routine == rule.now.routine) }
{
    routine_of(arrival) == usize::from(rule.routine.number())
}

/// What interrupts owe by a rule, at the tick of the last of them.
#[derive(Clone, Copy)]
pub(crate) struct Debt {
    /// In ticks.
    owed: u64,
    /// The tick of the last, 0 where none has come.
    since: u32,
}

impl Debt {
    /// None has come.
    pub(crate) fn none() -> Self
        ensures { result ≡ record { owed = 0; since = 0 } }
    {
        Debt { owed: 0, since: 0 }
    }

    /// What is left of it at a tick, no earlier than the last, in ticks.
    fn left(&self, tick: u32) -> u64
        ensures { result ≡ debt_left self.now.owed self.now.since tick }
    {
        self.owed
            .saturating_sub(u64::from(tick.saturating_sub(self.since)))
    }

    /// Whether an arrival, no earlier than the last, may come by the rule; where it may, it has.
    pub(crate) fn admit(&mut self, rule: &ArrivalRule, arrival: &Arrival) -> bool
        ensures { (later : List Arrival)
            → keeps_from rule.now self.old.owed self.old.since (arrival.now ∷ later)
            ≡ (result && keeps_from rule.now self.new.owed self.new.since later) }
    {
        if !is_of(rule, arrival) {
            return true;
        }
        let left = self.left(arrival.tick);
        if left >= u64::from(rule.slack) {
            return false;
        }
        self.owed = left + u64::from(rule.period);
        self.since = arrival.tick;
        true
    }

    /// The same, of one that hasn't come.
    pub(crate) fn may_admit(&self, rule: &ArrivalRule, arrival: &Arrival) -> bool {
        let mut debt = *self;
        debt.admit(rule, arrival)
    }
}
