//! The laws, one function each. The functions are empty: the clause is the law.

ghost use Rattle.law_alarms.specs.Apart.{AlwaysApart, ApartAsSet, NeverStarted, SetAtBootOnly};
ghost use Rattle.law_alarms.specs.Expiries.{AlwaysOnTime};
ghost use Rattle.law_alarms.specs.Setting.{ServedHaveTimes};
ghost use Rattle.law_alarms.specs.Spaced.{SpacedAreFew};

/// In every run of a proper system an alarm expires in the first tick of a count, and in no other.
pub fn always_on_time()
    ensures { AlwaysOnTime }
{}

/// Whatever programs do, between two expiries of an alarm lie at least TICKSPERBASE ticks.
pub fn always_apart()
    ensures { AlwaysApart }
{}

/// Where boot and programs set an alarm no sooner than so many counts, so many counts lie between
/// two expiries, at TICKSPERBASE ticks each.
pub fn apart_as_set()
    ensures { ApartAsSet }
{}

/// Whatever isn't refused sets an increment of 1 at least, and a cycle of MINCYCLE at least, or 0.
pub fn served_have_times()
    ensures { ServedHaveTimes }
{}

/// An alarm that no program sets expires a cycle apart, in known ticks; once where its cycle is 0.
pub fn set_at_boot_only()
    ensures { SetAtBootOnly }
{}

/// An alarm that no program sets never expires in a mode in which it doesn't start.
pub fn never_started()
    ensures { NeverStarted }
{}

/// Of ticks that lie a gap apart no more stand in a row of ticks than find room there.
pub fn spaced_are_few()
    ensures { SpacedAreFew }
{}
