//! What an attribute takes, in words.

use oil_reader::AttributeName;

/// What attributes take that don't take a name.
const VALUES: [(AttributeName, &str); 24] = [
    (AttributeName::Status, "EXTENDED"),
    (AttributeName::StartupHook, "TRUE FALSE"),
    (AttributeName::ErrorHook, "TRUE FALSE"),
    (AttributeName::ShutdownHook, "TRUE FALSE"),
    (AttributeName::PreTaskHook, "TRUE FALSE"),
    (AttributeName::PostTaskHook, "TRUE FALSE"),
    (AttributeName::UseResScheduler, "TRUE FALSE"),
    (AttributeName::UseGetServiceId, "FALSE"),
    (AttributeName::UseParameterAccess, "FALSE"),
    (AttributeName::TaskPriority, "0 to 63"),
    (AttributeName::Schedule, "NON FULL"),
    (AttributeName::Activation, "1 to 15"),
    (AttributeName::TaskAutostart, "TRUE FALSE"),
    (AttributeName::Category, "2"),
    (AttributeName::IsrPriority, "0 to 31"),
    (AttributeName::ResourceProperty, "STANDARD INTERNAL"),
    (AttributeName::EventMask, "AUTO, or 1 to 4294967295"),
    (AttributeName::MaxAllowedValue, "a number"),
    (AttributeName::TicksPerBase, "a number"),
    (AttributeName::MinCycle, "a number"),
    (AttributeName::AlarmAction, "ACTIVATETASK SETEVENT"),
    (AttributeName::AlarmAutostart, "TRUE FALSE"),
    (AttributeName::AlarmTime, "a number"),
    (AttributeName::CycleTime, "a number"),
];

/// What an attribute takes.
pub(crate) fn allowed_values(attribute: AttributeName) -> &'static str {
    for (name, values) in &VALUES {
        if *name == attribute {
            return *values;
        }
    }
    "a name"
}
