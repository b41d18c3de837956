//! OSEK/VDX OS: error codes, task states and conformance classes. What services answer.

ghost use Rattle.std.specs.Prelude.{◌≡◌};
ghost use Rattle.osek_base.specs.Classes.{class_name};
ghost use Rattle.osek_base.specs.Service.{state_number};
ghost use Rattle.osek_base.specs.Tick.{status_number};

/// The status of a service: E_OK, the standard's errors E_OS_ACCESS and so on, and E_OS_SYS_DISABLED, the answer while
/// interrupts are off.
#[derive(Clone, Copy, PartialEq, Eq)]
pub enum Status {
    Ok,
    Access,
    CallLevel,
    Id,
    Limit,
    NoFunc,
    Resource,
    State,
    Value,
    SysDisabled,
}

impl Status {
    /// The number of the status: the standard's 0 to 8, and 32 for E_OS_SYS_DISABLED.
    pub const fn number(self) -> u8
        ensures { result ≡ status_number self }
    {
        match self {
            Status::Ok => 0,
            Status::Access => 1,
            Status::CallLevel => 2,
            Status::Id => 3,
            Status::Limit => 4,
            Status::NoFunc => 5,
            Status::Resource => 6,
            Status::State => 7,
            Status::Value => 8,
            Status::SysDisabled => 32,
        }
    }
}

/// The states of a task, as GetTaskState answers them.
#[derive(Clone, Copy, PartialEq, Eq)]
pub enum TaskState {
    Running,
    Waiting,
    Ready,
    Suspended,
}

impl TaskState {
    /// The number of the state, 0 to 3.
    pub const fn number(self) -> u8
        ensures { result ≡ state_number self }
    {
        match self {
            TaskState::Running => 0,
            TaskState::Waiting => 1,
            TaskState::Ready => 2,
            TaskState::Suspended => 3,
        }
    }
}

/// The conformance classes.
#[derive(Clone, Copy)]
pub enum Class {
    Bcc1,
    Bcc2,
    Ecc1,
    Ecc2,
}

impl Class {
    /// The class as the standard writes it: `BCC1`, `BCC2`, `ECC1` or `ECC2`.
    pub const fn name(self) -> &'static str
        ensures { result.now ≡ class_name self }
    {
        match self {
            Class::Bcc1 => "BCC1",
            Class::Bcc2 => "BCC2",
            Class::Ecc1 => "ECC1",
            Class::Ecc2 => "ECC2",
        }
    }
}
