//! OIL: standard objects and their attributes. The attributes that each kind of object has.

ghost use Rattle.std.specs.Prelude.{◌≡◌, ◌∷◌, []};
ghost use Rattle.oil_reader.specs.Table.{word_of, presence_of, is_list, may_lack, attributes_of, accepts, block_of, is_one_of};
ghost use Rattle.oil_reader.specs.Grammar.{Named, Numeric};
ghost use Rattle.oil_reader.specs.Trees.{value_of};

use crate::syntax::{Kind, Value};
use osek_base::{MAX_ACTIVATION, MAX_ROUTINE_PRIORITY, MAX_TASK_PRIORITY};

/// The attributes of objects, and of the blocks behind a value.
#[derive(Clone, Copy, PartialEq, Eq)]
pub enum AttributeName {
    Status,
    StartupHook,
    ErrorHook,
    ShutdownHook,
    PreTaskHook,
    PostTaskHook,
    UseResScheduler,
    UseGetServiceId,
    UseParameterAccess,
    TaskPriority,
    Schedule,
    Activation,
    TaskAutostart,
    TaskResource,
    TaskEvent,
    Category,
    IsrPriority,
    ResourceProperty,
    EventMask,
    MaxAllowedValue,
    TicksPerBase,
    MinCycle,
    AlarmCounter,
    AlarmAction,
    AlarmAutostart,
    /// In the block of an ACTION, the task that is activated or gets the event.
    ActionTask,
    /// In the block of an ACTION, the event that is set.
    ActionEvent,
    AlarmTime,
    CycleTime,
    /// In the block of an AUTOSTART, a mode in which the object starts by itself.
    StartMode,
}

/// How often an attribute stands.
#[derive(Clone, Copy)]
pub enum Presence {
    /// Once.
    Required,
    /// Once, or not at all.
    Optional,
    /// At least once, each time with another name.
    SomeNames,
    /// Any number of times, each time with another name.
    AnyNames,
}

impl Presence {
    /// Whether it may stand several times.
    pub fn is_list(self) -> bool
        ensures { result ≡ is_list self }
    {
        match self {
            Presence::SomeNames | Presence::AnyNames => true,
            Presence::Required | Presence::Optional => false,
        }
    }

    /// Whether it may be left out.
    pub fn may_lack(self) -> bool
        ensures { result ≡ may_lack self }
    {
        match self {
            Presence::Optional | Presence::AnyNames => true,
            Presence::Required | Presence::SomeNames => false,
        }
    }
}

impl AttributeName {
    /// The word in the file.
    pub fn word(self) -> &'static str
        ensures { result.now ≡ word_of self }
    {
        match self {
            AttributeName::Status => "STATUS",
            AttributeName::StartupHook => "STARTUPHOOK",
            AttributeName::ErrorHook => "ERRORHOOK",
            AttributeName::ShutdownHook => "SHUTDOWNHOOK",
            AttributeName::PreTaskHook => "PRETASKHOOK",
            AttributeName::PostTaskHook => "POSTTASKHOOK",
            AttributeName::UseResScheduler => "USERESSCHEDULER",
            AttributeName::UseGetServiceId => "USEGETSERVICEID",
            AttributeName::UseParameterAccess => "USEPARAMETERACCESS",
            AttributeName::TaskPriority | AttributeName::IsrPriority => "PRIORITY",
            AttributeName::Schedule => "SCHEDULE",
            AttributeName::Activation => "ACTIVATION",
            AttributeName::TaskAutostart | AttributeName::AlarmAutostart => "AUTOSTART",
            AttributeName::TaskResource => "RESOURCE",
            AttributeName::TaskEvent | AttributeName::ActionEvent => "EVENT",
            AttributeName::Category => "CATEGORY",
            AttributeName::ResourceProperty => "RESOURCEPROPERTY",
            AttributeName::EventMask => "MASK",
            AttributeName::MaxAllowedValue => "MAXALLOWEDVALUE",
            AttributeName::TicksPerBase => "TICKSPERBASE",
            AttributeName::MinCycle => "MINCYCLE",
            AttributeName::AlarmCounter => "COUNTER",
            AttributeName::AlarmAction => "ACTION",
            AttributeName::ActionTask => "TASK",
            AttributeName::AlarmTime => "ALARMTIME",
            AttributeName::CycleTime => "CYCLETIME",
            AttributeName::StartMode => "APPMODE",
        }
    }

    /// How often it stands.
    pub fn presence(self) -> Presence
        ensures { result ≡ presence_of self }
    {
        match self {
            AttributeName::UseResScheduler
            | AttributeName::UseGetServiceId
            | AttributeName::UseParameterAccess
            | AttributeName::IsrPriority => Presence::Optional,
            AttributeName::StartMode => Presence::SomeNames,
            AttributeName::TaskResource | AttributeName::TaskEvent => Presence::AnyNames,
            _ => Presence::Required,
        }
    }

    /// Whether the value is in the attribute's range.
    pub fn accepts(self, value: Value<'_>) -> bool
        ensures { result ≡ accepts self (value_of value.entry) }
    {
        match value {
            Value::Name(word) => self.accepts_word(word.text),
            Value::Number(number) => self.accepts_number(number),
        }
    }

    fn accepts_number(self, number: u32) -> bool
        ensures { result ≡ accepts self (Numeric number) }
    {
        match self {
            AttributeName::TaskPriority => number <= MAX_TASK_PRIORITY as u32,
            AttributeName::IsrPriority => number <= MAX_ROUTINE_PRIORITY as u32,
            AttributeName::Activation => 1 <= number && number <= MAX_ACTIVATION as u32,
            AttributeName::Category => number == 2,
            AttributeName::EventMask => 1 <= number,
            AttributeName::MaxAllowedValue
            | AttributeName::TicksPerBase
            | AttributeName::MinCycle
            | AttributeName::AlarmTime
            | AttributeName::CycleTime => true,
            _ => false,
        }
    }

    fn accepts_word(self, word: &str) -> bool
        ensures { result ≡ accepts self (Named word.now) }
    {
        match self {
            AttributeName::Status => word == "EXTENDED",
            AttributeName::StartupHook
            | AttributeName::ErrorHook
            | AttributeName::ShutdownHook
            | AttributeName::PreTaskHook
            | AttributeName::PostTaskHook
            | AttributeName::UseResScheduler
            | AttributeName::TaskAutostart
            | AttributeName::AlarmAutostart => is_either(word, "TRUE", "FALSE"),
            AttributeName::UseGetServiceId | AttributeName::UseParameterAccess => word == "FALSE",
            AttributeName::Schedule => is_either(word, "NON", "FULL"),
            AttributeName::ResourceProperty => is_either(word, "STANDARD", "INTERNAL"),
            AttributeName::EventMask => word == "AUTO",
            AttributeName::AlarmAction => is_either(word, "ACTIVATETASK", "SETEVENT"),
            AttributeName::TaskResource
            | AttributeName::TaskEvent
            | AttributeName::AlarmCounter
            | AttributeName::ActionTask
            | AttributeName::ActionEvent
            | AttributeName::StartMode => true,
            _ => false,
        }
    }

    /// The attributes of the block behind a value; none for a value that has no block.
    pub fn block(self, value: Value<'_>) -> &'static [AttributeName]
        ensures { result.now ≡ block_of self (value_of value.entry) }
    {
        match value {
            Value::Name(word) => self.block_behind(word.text),
            Value::Number(_) => &[],
        }
    }

    fn block_behind(self, word: &str) -> &'static [AttributeName]
        ensures { result.now ≡ block_of self (Named word.now) }
    {
        match self {
            AttributeName::TaskAutostart if word == "TRUE" => &[AttributeName::StartMode],
            AttributeName::AlarmAutostart if word == "TRUE" => &[
                AttributeName::AlarmTime,
                AttributeName::CycleTime,
                AttributeName::StartMode,
            ],
            AttributeName::AlarmAction if word == "ACTIVATETASK" => &[AttributeName::ActionTask],
            AttributeName::AlarmAction if word == "SETEVENT" => &[
                AttributeName::ActionTask,
                AttributeName::ActionEvent,
            ],
            _ => &[],
        }
    }
}

/// Whether a word is one of two.
fn is_either(word: &str, one: &str, other: &str) -> bool
    ensures { result ≡ is_one_of (one.now ∷ other.now ∷ []) word.now }
{
    word == one || word == other
}

/// The attributes of a kind of object, in the order of OIL's table.
pub fn attributes_of(kind: Kind) -> &'static [AttributeName]
    ensures { result.now ≡ attributes_of kind }
{
    match kind {
        Kind::Os => &[
            AttributeName::Status,
            AttributeName::StartupHook,
            AttributeName::ErrorHook,
            AttributeName::ShutdownHook,
            AttributeName::PreTaskHook,
            AttributeName::PostTaskHook,
            AttributeName::UseResScheduler,
            AttributeName::UseGetServiceId,
            AttributeName::UseParameterAccess,
        ],
        Kind::AppMode => &[],
        Kind::Task => &[
            AttributeName::TaskPriority,
            AttributeName::Schedule,
            AttributeName::Activation,
            AttributeName::TaskAutostart,
            AttributeName::TaskResource,
            AttributeName::TaskEvent,
        ],
        Kind::Isr => &[AttributeName::Category, AttributeName::IsrPriority],
        Kind::Resource => &[AttributeName::ResourceProperty],
        Kind::Event => &[AttributeName::EventMask],
        Kind::Counter => &[
            AttributeName::MaxAllowedValue,
            AttributeName::TicksPerBase,
            AttributeName::MinCycle,
        ],
        Kind::Alarm => &[
            AttributeName::AlarmCounter,
            AttributeName::AlarmAction,
            AttributeName::AlarmAutostart,
        ],
    }
}
