//! OIL: standard objects and their attributes. What becomes of an attribute, and what is told of it.

use crate::attributes::{default_of, is_hook, reason_against, value_of};
use crate::bends::is_other_category;
use crate::items::Item;
use crate::messages::{Message, Subject, Verdict};
use crate::priorities::number;
use crate::reasons;
use crate::sources::Place;
use oil_reader::{AttributeName, Value};
use osek_base::MAX_COUNTS;

/// What becomes of an attribute: the value that it has, where it has one, and what is told of it.
#[derive(Clone, Copy)]
pub(crate) struct Taken<'a> {
    pub value: Option<&'a str>,
    pub message: Option<Message<'a>>,
}

pub(crate) const NOTHING: Taken<'static> = Taken {
    value: None,
    message: None,
};

/// An attribute that nothing is taken for, and why.
pub(crate) fn untaken<'a>(
    place: Place,
    verdict: Verdict,
    subject: Subject<'a>,
    reason: &'static str,
) -> Taken<'a> {
    Taken {
        value: None,
        message: Some(Message {
            place,
            verdict,
            subject,
            reason,
        }),
    }
}

/// A value that is set for an attribute of that word, and why.
pub(crate) fn set<'a>(
    place: Place,
    word: &'a str,
    value: &'a str,
    reason: &'static str,
) -> Taken<'a> {
    Taken {
        value: Some(value),
        message: Some(Message {
            place,
            verdict: Verdict::Set,
            subject: Subject::Setting(word, value),
            reason,
        }),
    }
}

/// The value for AUTO.
pub(crate) fn automatic<'a>(attribute: AttributeName, item: &Item<'a>) -> Taken<'a> {
    let place = item.written_place;
    match default_of(attribute) {
        Some(value) => set(place, item.word, value, reasons::AUTOMATIC),
        None => {
            let subject = Subject::Setting(item.word, "AUTO");
            untaken(place, Verdict::Refused, subject, reasons::NOT_CHOSEN)
        }
    }
}

/// What a value says here that it may not say elsewhere.
fn meaning(attribute: AttributeName, value: &str) -> Option<&'static str> {
    if is_hook(attribute) && value == "TRUE" {
        return Some(reasons::HOOK);
    }
    if attribute == AttributeName::TicksPerBase && !is_one(value) {
        return Some(reasons::DIVIDES);
    }
    None
}

/// A value that is taken as it is written, and what it says here.
pub(crate) fn kept<'a>(attribute: AttributeName, item: &Item<'a>, value: &'a str) -> Taken<'a> {
    let message = match meaning(attribute, value) {
        Some(reason) => Some(Message {
            place: item.place,
            verdict: Verdict::Kept,
            subject: Subject::Setting(item.word, value),
            reason,
        }),
        None => None,
    };
    Taken {
        value: Some(value),
        message,
    }
}

/// A value that is taken as another one, and why.
pub(crate) fn bent<'a>(
    item: &Item<'a>,
    value: &'a str,
    subject: Subject<'a>,
    reason: &'static str,
) -> Taken<'a> {
    Taken {
        value: Some(value),
        message: Some(Message {
            place: item.place,
            verdict: Verdict::Kept,
            subject,
            reason,
        }),
    }
}

/// A priority that is numbered anew, told where it becomes another one.
pub(crate) fn renumbered<'a>(item: &Item<'a>, value: &'a str, becomes: u32) -> Taken<'a> {
    if number(value) == Some(becomes) {
        return Taken {
            value: Some(value),
            message: None,
        };
    }
    let subject = Subject::Renumbered(item.word, value, becomes);
    bent(item, value, subject, reasons::RENUMBERED)
}

/// The greatest MAXALLOWEDVALUE of a counter, as a word.
const FARTHEST: &str = "2147483647";

/// Whether a value is that of a counter that counts farther than one does here.
pub(crate) fn is_too_far(attribute: AttributeName, value: &str) -> bool {
    let is_most = attribute == AttributeName::MaxAllowedValue;
    is_most && number(value).is_some_and(|count| count > MAX_COUNTS)
}

/// The MAXALLOWEDVALUE of a counter that counts farther than one does here.
pub(crate) fn cut<'a>(item: &Item<'a>, value: &'a str) -> Taken<'a> {
    let subject = Subject::Renumbered(item.word, value, MAX_COUNTS);
    bent(item, FARTHEST, subject, reasons::TOO_FAR)
}

/// Why a number is none that a system may have, though the attribute takes it.
pub(crate) fn out_of_counts(attribute: AttributeName, value: &str) -> Option<&'static str> {
    let count = number(value)?;
    match attribute {
        AttributeName::MaxAllowedValue | AttributeName::TicksPerBase | AttributeName::MinCycle
            if count == 0 => { Some(reasons::NOT_ZERO) }
        _ => None,
    }
}

/// Whether an attribute says that status is standard.
pub(crate) fn is_standard(attribute: AttributeName, value: &str) -> bool {
    attribute == AttributeName::Status && value == "STANDARD"
}

/// What stands for an attribute that is missing, by the default of an IMPLEMENTATION.
pub(crate) fn implemented<'a>(attribute: AttributeName, value: &'a str, end: Place) -> Taken<'a> {
    let word = attribute.word();
    let subject = Subject::Setting(word, value);
    if is_standard(attribute, value) {
        return set(end, word, "EXTENDED", reasons::STANDARD_STATUS);
    }
    if is_too_far(attribute, value) {
        return set(end, word, FARTHEST, reasons::TOO_FAR);
    }
    if is_other_category(attribute, value) {
        return untaken(end, Verdict::Refused, subject, reasons::OTHER_CATEGORY);
    }
    let Some(read) = value_of(value) else {
        return untaken(end, Verdict::Refused, subject, reason_against(attribute));
    };
    if !attribute.block(read).is_empty() {
        return untaken(end, Verdict::Refused, subject, reasons::BLOCK_OF_DEFAULT);
    }
    if !attribute.accepts(read) {
        return untaken(end, Verdict::Refused, subject, reason_against(attribute));
    }
    match out_of_counts(attribute, value) {
        Some(reason) => untaken(end, Verdict::Refused, subject, reason),
        None => set(end, word, value, reasons::IMPLEMENTED),
    }
}

/// What is said of an attribute that is left out, since it asks for the code of hooks.
pub(crate) fn without_hook_code<'a>(item: &Item<'a>, value: &'a str) -> Taken<'a> {
    if value == "FALSE" {
        return NOTHING;
    }
    let subject = Subject::Setting(item.word, value);
    untaken(item.place, Verdict::LeftOut, subject, reasons::NO_HOOK_CODE)
}

/// Whether an attribute takes that word.
pub(crate) fn is_accepted(attribute: AttributeName, word: &str) -> bool {
    match value_of(word) {
        Some(value) => attribute.accepts(value),
        None => false,
    }
}

/// Whether a word is the number 1.
pub(crate) fn is_one(word: &str) -> bool {
    match value_of(word) {
        Some(Value::Number(number)) => number == 1,
        _ => false,
    }
}
