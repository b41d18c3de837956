//! OIL: standard objects and their attributes. Which attributes there are, what they take, and what
//! they are where they are missing.

use crate::items::{Item, Written};
use crate::reasons;
use oil_reader::{AttributeName, Ident, Kind, Value};
use osek_base::MAX_NAME;
use osek_base::words::{is_word_byte, number_at};

/// The kind of that word.
pub(crate) fn kind_of(word: &str) -> Option<Kind> {
    match word {
        "OS" => Some(Kind::Os),
        "APPMODE" => Some(Kind::AppMode),
        "TASK" => Some(Kind::Task),
        "ISR" => Some(Kind::Isr),
        "RESOURCE" => Some(Kind::Resource),
        "EVENT" => Some(Kind::Event),
        "COUNTER" => Some(Kind::Counter),
        "ALARM" => Some(Kind::Alarm),
        _ => None,
    }
}

/// Whether a word is that of a CPU. Some tools write OSEK.
pub(crate) fn is_cpu(word: &str) -> bool {
    matches!(word, "CPU" | "OSEK")
}

/// Whether an attribute says that calls or alarms count a counter up, and not the time.
pub(crate) fn is_software_counter(kind: Kind, item: &Item<'_>) -> bool {
    match (kind, item.word, item.written) {
        (Kind::Counter, "TYPE", Written::Word("SOFTWARE")) => true,
        _ => false,
    }
}

/// Whether objects of a kind that isn't known are those of communication or network management.
pub(crate) fn is_of_communication(word: &str) -> bool {
    matches!(word, "COM" | "MESSAGE" | "NETWORKMESSAGE" | "IPDU" | "NM")
}

/// The attribute of that word.
pub(crate) fn attribute_of(scope: &[AttributeName], word: &str) -> Option<AttributeName> {
    for attribute in scope {
        if attribute.word() == word {
            return Some(*attribute);
        }
    }
    None
}

/// Whether a word has the form of a NAME.
fn is_name(word: &str) -> bool {
    if word.len() > MAX_NAME {
        return false;
    }
    match word.as_bytes() {
        [] => false,
        [b'0'..=b'9', ..] => false,
        bytes => are_word_bytes(bytes),
    }
}

pub(crate) fn are_word_bytes(bytes: &[u8]) -> bool {
    for byte in bytes {
        if !is_word_byte(*byte) {
            return false;
        }
    }
    true
}

/// Whether a CPU may have that name.
pub(crate) fn is_cpu_name(word: &str) -> bool {
    is_name(word)
}

/// Whether an object may have that name.
pub(crate) fn is_object_name(word: &str) -> bool {
    let is_reserved = matches!(
        word,
        "INVALID" | "r0" | "r1" | "r2" | "r3" | "r4" | "r5" | "r6" | "r7"
    );
    is_name(word) && !is_reserved
}

/// The value that a word is.
pub(crate) fn value_of(word: &str) -> Option<Value<'_>> {
    if let Some(number) = number_at(word.as_bytes()) {
        return (number.len == word.len()).then_some(Value::Number(number.value));
    }
    if !is_name(word) || word.is_empty() || word.len() > MAX_NAME {
        return None;
    }
    Some(Value::Name(Ident { text: word }))
}

/// The objects that an attribute names, where it names some.
pub(crate) fn named_by(attribute: AttributeName) -> Option<Kind> {
    match attribute {
        AttributeName::TaskResource => Some(Kind::Resource),
        AttributeName::TaskEvent | AttributeName::ActionEvent => Some(Kind::Event),
        AttributeName::AlarmCounter => Some(Kind::Counter),
        AttributeName::ActionTask => Some(Kind::Task),
        AttributeName::StartMode => Some(Kind::AppMode),
        _ => None,
    }
}

/// Whether an attribute means nothing here: what asks for it is the code of hooks.
pub(crate) fn is_of_hook_code(attribute: AttributeName) -> bool {
    matches!(
        attribute,
        AttributeName::UseGetServiceId | AttributeName::UseParameterAccess
    )
}

pub(crate) fn is_hook(attribute: AttributeName) -> bool {
    matches!(
        attribute,
        AttributeName::StartupHook
            | AttributeName::ErrorHook
            | AttributeName::ShutdownHook
            | AttributeName::PreTaskHook
            | AttributeName::PostTaskHook
    )
}

/// What an attribute is where it is missing.
pub(crate) fn default_of(attribute: AttributeName) -> Option<&'static str> {
    match attribute {
        AttributeName::Status => Some("EXTENDED"),
        AttributeName::UseResScheduler => Some("TRUE"),
        AttributeName::Schedule => Some("FULL"),
        AttributeName::Activation | AttributeName::TicksPerBase | AttributeName::MinCycle => {
            Some("1")
        }
        AttributeName::TaskAutostart | AttributeName::AlarmAutostart => Some("FALSE"),
        AttributeName::IsrPriority => Some("0"),
        AttributeName::ResourceProperty => Some("STANDARD"),
        AttributeName::EventMask => Some("AUTO"),
        _ if is_hook(attribute) => Some("FALSE"),
        _ => None,
    }
}

/// Why an attribute doesn't take a value.
pub(crate) fn reason_against(attribute: AttributeName) -> &'static str {
    match attribute {
        AttributeName::Status => reasons::EXTENDED_STATUS,
        AttributeName::TaskPriority => reasons::PRIORITIES_OF_TASKS,
        AttributeName::IsrPriority => reasons::PRIORITIES_OF_ROUTINES,
        AttributeName::Schedule => reasons::SCHEDULES,
        AttributeName::Activation => reasons::ACTIVATIONS,
        AttributeName::Category => reasons::CATEGORIES,
        AttributeName::ResourceProperty => reasons::PROPERTIES,
        AttributeName::EventMask => reasons::MASKS,
        AttributeName::AlarmAction => reasons::ACTIONS,
        AttributeName::MaxAllowedValue
        | AttributeName::TicksPerBase
        | AttributeName::MinCycle
        | AttributeName::AlarmTime
        | AttributeName::CycleTime => reasons::NUMBERS,
        _ if named_by(attribute).is_some() => reasons::BAD_NAME,
        _ => reasons::SWITCH,
    }
}
