//! Programs in a program text: where their instructions stand, and what these name.

use explain_texts::{CodeWord, Part};
use oil_reader::Kind;
use task_asm::ProgramKind;

/// The instructions whose first operand names a task.
const ON_TASKS: [&str; 5] = ["ACT", "CHAIN", "GTST", "SETE", "GETE"];

/// Those whose first operand names a resource.
const ON_RESOURCES: [&str; 4] = ["GETR", "RELR", "LDR", "STR"];

/// Those whose first operand names an alarm.
const ON_ALARMS: [&str; 5] = ["SREL", "SABS", "CANA", "GALM", "GBAS"];

/// Those that name events: SETE behind its first operand.
const ON_EVENTS: [&str; 3] = ["SETE", "CLRE", "WAIT"];

/// The kind of object that an operand of a mnemonic names: the first operand, of number 0, or a
/// later one.
pub fn named_kind(mnemonic: &str, number: usize) -> Option<Kind> {
    if number == 0 && ON_TASKS.contains(&mnemonic) {
        Some(Kind::Task)
    } else if number == 0 && ON_RESOURCES.contains(&mnemonic) {
        Some(Kind::Resource)
    } else if number == 0 && ON_ALARMS.contains(&mnemonic) {
        Some(Kind::Alarm)
    } else if ON_EVENTS.contains(&mnemonic) {
        Some(Kind::Event)
    } else {
        None
    }
}

/// The name behind the directive of the program of that kind and name.
pub fn owner_word<'a>(
    words: &[CodeWord<'a>],
    kind: ProgramKind,
    name: &str,
) -> Option<CodeWord<'a>> {
    for word in words {
        if word.part == Part::Owner(kind) && word.text == name {
            return Some(*word);
        }
    }
    None
}

/// Whether a word is a mnemonic of a program.
fn is_mnemonic_of(word: CodeWord<'_>, program: usize) -> bool {
    word.part == Part::Mnemonic && word.program == program
}

/// The mnemonic of the instruction at a place of a program, from 0 on.
pub fn mnemonic_at<'a>(
    words: &[CodeWord<'a>],
    program: usize,
    place: usize,
) -> Option<CodeWord<'a>> {
    let mut left = place;
    for word in words {
        if is_mnemonic_of(*word, program) {
            if left == 0 {
                return Some(*word);
            }
            left = left.saturating_sub(1);
        }
    }
    None
}

/// The mnemonic of a program's last instruction.
pub fn last_mnemonic<'a>(words: &[CodeWord<'a>], program: usize) -> Option<CodeWord<'a>> {
    let mut last = None;
    for word in words {
        if is_mnemonic_of(*word, program) {
            last = Some(*word);
        }
    }
    last
}

/// The first instruction of a program with a mnemonic.
pub fn first_of<'a>(
    words: &[CodeWord<'a>],
    program: usize,
    mnemonic: &str,
) -> Option<CodeWord<'a>> {
    for word in words {
        if is_mnemonic_of(*word, program) && word.text == mnemonic {
            return Some(*word);
        }
    }
    None
}

/// The first operand of the instruction with a mnemonic, where it is a word.
pub fn operand_of<'a>(words: &[CodeWord<'a>], mnemonic: CodeWord<'a>) -> Option<CodeWord<'a>> {
    for word in words {
        if word.place > mnemonic.place {
            return match word.part {
                Part::Operand { .. } => Some(*word),
                _ => None,
            };
        }
    }
    None
}
