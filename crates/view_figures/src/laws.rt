//! Laws of figures. The function is empty: its clause is the law.

ghost use Rattle.view_figures.specs.StateSums.{AddUp};

/// The ticks in which a task is READY or RUNNING are those that count as executed, ready, preempted
/// or blocked, each once.
pub fn add_up()
    ensures { AddUp }
{}
