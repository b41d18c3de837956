//! OSEK/VDX OS: interrupt processing, category 2. How interrupts of a routine come.

ghost use Rattle.std.specs.Prelude.{◌≡◌};
ghost use Rattle.arrival_rules.specs.Debts.{next_debt};

use osek_base::IsrId;

/// How interrupts of a routine come: of two of them, in ticks t and u, t first or both the same, of
/// which the later is the k-th behind the earlier, `k * period < (u - t) + slack`.
///
/// With a slack of 1 two come a period apart, or more; with `1 + J` in periods with a jitter of J
/// ticks; with `1 + (N - 1) * period` up to N may come one behind the other; with 0 none comes. A
/// routine may have several rules, and keeps all of them.
#[derive(Clone, Copy)]
pub struct ArrivalRule {
    pub routine: IsrId,
    /// In ticks.
    pub period: u32,
    /// In ticks.
    pub slack: u32,
}

impl ArrivalRule {
    /// Behind a tick, what interrupts owe by the rule, in ticks: one that comes adds a period, and
    /// each tick takes one off. At most 4,294,967,294 are told.
    #[inline(always)]
    pub fn debt_behind(&self, comes: bool, debt: u32) -> u32
        ensures { result ≡ next_debt self.now comes debt }
    {
        let owed = if comes {
            debt.saturating_add(self.period)
        } else {
            debt
        };
        owed.saturating_sub(1)
    }
}
