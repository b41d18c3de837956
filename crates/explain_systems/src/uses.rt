//! What programs and alarms use.

use crate::declared::{inner, is_set, object, word_of};
use crate::instructions::{named_kind, owner_word};
use explain_texts::{CodeWord, Part};
use oil_reader::{Kind, Object, SyntaxTree};
use task_asm::ProgramKind;

/// Whether a word of a program names an object of a kind.
fn names_kind(word: CodeWord<'_>, kind: Kind) -> bool {
    match word.part {
        Part::Operand { mnemonic, number } => named_kind(mnemonic, number) == Some(kind),
        _ => false,
    }
}

/// Whether a word is the first operand of one of these mnemonics.
fn is_operand_of(word: CodeWord<'_>, mnemonics: &[&str]) -> bool {
    match word.part {
        Part::Operand { mnemonic, number } => number == 0 && mnemonics.contains(&mnemonic),
        _ => false,
    }
}

/// Whether a program names the object of that kind and name.
pub(crate) fn is_named(words: &[CodeWord<'_>], kind: Kind, name: &str) -> bool {
    for word in words {
        if word.text == name && names_kind(*word, kind) {
            return true;
        }
    }
    false
}

/// Whether a program sets an alarm.
pub(crate) fn is_started(words: &[CodeWord<'_>], alarm: &str) -> bool {
    for word in words {
        if word.text == alarm && is_operand_of(*word, &["SREL", "SABS"]) {
            return true;
        }
    }
    false
}

/// Whether a program other than its own activates a task.
fn is_activated_by_code(words: &[CodeWord<'_>], task: &str) -> bool {
    let own = match owner_word(words, ProgramKind::Task, task) {
        Some(owner) => owner.program,
        None => 0,
    };
    for word in words {
        if word.text == task && word.program != own && is_operand_of(*word, &["ACT", "CHAIN"]) {
            return true;
        }
    }
    false
}

/// Whether an alarm's action of that word names an object in a setting of that word.
pub(crate) fn is_acted_on(tree: &SyntaxTree<'_>, action: &str, word: &str, name: &str) -> bool {
    for alarm in &tree.objects {
        if alarm.kind == Kind::Alarm && is_set(alarm, "ACTION", action) {
            if let Some(setting) = inner(alarm, "ACTION", word) {
                if word_of(setting.value) == name {
                    return true;
                }
            }
        }
    }
    false
}

/// Whether a mode, an alarm or another's program activates a task.
pub(crate) fn is_activated(
    tree: &SyntaxTree<'_>,
    words: &[CodeWord<'_>],
    task: &Object<'_>,
) -> bool {
    let name = task.name.text;
    is_set(task, "AUTOSTART", "TRUE")
        || is_acted_on(tree, "ACTIVATETASK", "TASK", name)
        || is_activated_by_code(words, name)
}

/// Whether an object of a kind has an attribute of that word with that value.
pub(crate) fn is_listed(tree: &SyntaxTree<'_>, kind: Kind, word: &str, name: &str) -> bool {
    for object in &tree.objects {
        if object.kind == kind && is_set(object, word, name) {
            return true;
        }
    }
    false
}

/// Whether the task of a name has an attribute of that word with that value.
pub(crate) fn task_lists(tree: &SyntaxTree<'_>, task: &str, word: &str, name: &str) -> bool {
    match object(tree, Kind::Task, task) {
        Some(task) => is_set(task, word, name),
        None => false,
    }
}
