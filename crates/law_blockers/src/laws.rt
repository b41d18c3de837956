//! The laws, one function each. The functions are empty: the clause is the law.

ghost use Rattle.law_blockers.specs.Laws.{ListsBefore, ListsBehind};

/// The lists stay those of the jobs' stamps through the alarms, arrivals and the reschedule before an instruction.
pub fn lists_before()
    ensures { ListsBefore }
{}

/// And through the instruction and the reschedule behind it.
pub fn lists_behind()
    ensures { ListsBehind }
{}
