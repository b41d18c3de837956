//! Value change dumps: names as the values of variables.

ghost use Rattle.std.specs.Prelude.{◌≡◌, ◌+◌, ◌≤◌, ◌++◌, codes, length};
ghost use Rattle.osek_base.specs.Names.{name_at};
ghost use Rattle.view_dumps.specs.Lines.{executor_name, string_line};

use crate::dump_text::{DumpText, TEXT_SIZE, push_string};
use crate::variable::Variable;
use osek_base::{Name, Names, Owner, ResId};

/// What stands for a name, behind the `s` of a string, where nobody executes, or a resource is
/// free. No task has this name.
const NOBODY: &[u8; 2] = b"s-";

/// What stands before the name of a task, and of a routine that executes. No task's name begins
/// with the mark of a routine.
const TASK: &[u8; 1] = b"s";

const ROUTINE: &[u8; 5] = b"sISR.";

/// The name of that number, empty where there is none.
pub(crate) fn name_at(names: &[Name], number: u8) -> &str
    ensures same { result.now ≡ name_at names.now number }
    ensures short { length result.now ≤ 32 }
{
    match names.get(number as usize) {
        Some(name) => name.as_str(),
        None => "",
    }
}

/// Appends who executes: the name of a task or routine, so marked that it says which of the two,
/// `-` where nobody does.
#[inline(never)]
pub(crate) fn push_executor(names: &Names, executor: &Option<Owner>, text: &mut DumpText)
    requires { length text.old + 41 ≤ TEXT_SIZE }
    ensures same { text.new
        ≡ text.old ++ string_line Variable.Executor (executor_name names.now executor.now) }
    ensures short { length text.new ≤ length text.old + 41 }
{
    let Some(owner) = executor else {
        return push_string(Variable::Executor, NOBODY, "", text);
    };
    match owner {
        Owner::Task(task) => {
            let name = name_at(names.tasks.as_slice(), task.number());
            push_string(Variable::Executor, TASK, name, text);
        }
        Owner::Routine(routine) => {
            let name = name_at(names.routines.as_slice(), routine.number());
            push_string(Variable::Executor, ROUTINE, name, text);
        }
    }
}

/// A resource is free.
#[inline(never)]
pub(crate) fn push_free(resource: ResId, text: &mut DumpText)
    requires { length text.old + 41 ≤ TEXT_SIZE }
    ensures same { text.new ≡ text.old ++ string_line (Variable.Holder resource) (codes "-") }
    ensures short { length text.new ≤ length text.old + 37 }
{
    push_string(Variable::Holder(resource), NOBODY, "", text);
}

/// A task holds a resource.
#[inline(never)]
pub(crate) fn push_held(names: &Names, resource: ResId, task: u8, text: &mut DumpText)
    requires { length text.old + 41 ≤ TEXT_SIZE }
    ensures same { text.new
        ≡ text.old ++ string_line (Variable.Holder resource) (name_at names.now.tasks task) }
    ensures short { length text.new ≤ length text.old + 37 }
{
    let name = name_at(names.tasks.as_slice(), task);
    push_string(Variable::Holder(resource), TASK, name, text);
}
