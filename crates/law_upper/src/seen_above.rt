//! The laws, one function each. The functions are empty: the clause is the law.

ghost use Rattle.law_upper.specs.AlarmsAbove.{AlarmsActTheSame};
ghost use Rattle.law_upper.specs.ExecutedAbove.{ExecutionsAreTheSame};
ghost use Rattle.law_upper.specs.StatesAbove.{StatesAreSeenTheSame};

/// The states of upper tasks, routines, resources and alarms are the same in each system that
/// agrees with a proper and separable one, and in its upper part by itself.
pub fn states_are_seen_the_same()
    ensures { StatesAreSeenTheSame }
{}

/// In every tick the same upper owner executes the same instruction with the same outcome, or none
/// does, and the same activations of upper tasks are answered E_OS_LIMIT.
pub fn executions_are_the_same()
    ensures { ExecutionsAreTheSame }
{}

/// In every tick the same upper alarms expire, and their actions are answered alike.
pub fn alarms_act_the_same()
    ensures { AlarmsActTheSame }
{}
