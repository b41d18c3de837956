//! What a description has. Names are those of the text; places are those of the keys or values that
//! say so.

/// One step of a body.
#[derive(Clone, Copy)]
pub enum Does<'a> {
    /// So many ticks, 1 to 1,000,000.
    Work(u32),
    Get(&'a str),
    Release(&'a str),
    Activate(&'a str),
    Chain(&'a str),
    /// Sets events for a task. The number is that of the node of the list of their names.
    Set(&'a str, usize),
    /// Waits for events, where `within` is said no longer than so many ticks, 1 to 1,000,000.
    Wait { events: usize, within: Option<u32> },
    /// Clears events.
    Clear(usize),
    /// The steps up to the `End` of the same depth, so many times, 1 to 1,000,000.
    Repeat(u32),
    End,
    /// Interrupts are off up to the `Resume` of the same depth.
    Suspend,
    Resume,
    /// Lets a job of greater priority run that the task keeps away.
    Schedule,
}

/// The instructions of a limited wait, a tick each: the ticks are loaded, an alarm is set, the task
/// waits, the alarm is cancelled, and its event is cleared.
pub const LIMITED_WAIT: usize = 5;

impl Does<'_> {
    /// Whether it waits no longer than so many ticks, for which its task has an alarm and an event.
    pub fn is_limited_wait(self) -> bool {
        matches!(
            self,
            Does::Wait {
                within: Some(_),
                ..
            }
        )
    }

    /// Whether it ends the job, so that no step behind it is reached.
    pub fn is_chain(self) -> bool {
        matches!(self, Does::Chain(_))
    }
}

/// A step, and the place of its value.
#[derive(Clone, Copy)]
pub struct Step<'a> {
    pub place: usize,
    pub does: Does<'a>,
}

/// The steps of a task or of a routine.
#[derive(Drop)]
pub struct Body<'a> {
    /// The place of the list, or of the section where there is none.
    pub place: usize,
    pub steps: Vec<Step<'a>>,
    /// Whether it is repeated for ever, and so has no end.
    pub is_looped: bool,
}

/// At which ticks an interrupt arrives.
#[derive(Clone, Copy)]
pub enum Arriving {
    Never,
    /// At `offset`, and then every `period` ticks, each time later by up to `jitter`.
    Periodic {
        period: u32,
        offset: u32,
        jitter: u32,
        seed: u32,
    },
    /// At each tick of a list, which has the number of a node; no two of them nearer than `least`,
    /// where that is said.
    Listed {
        list: usize,
        least: Option<u32>,
    },
    /// Each `least` to `most` ticks behind the one before, the first behind tick 0.
    Random {
        least: u32,
        most: u32,
        seed: u32,
    },
}

impl Arriving {
    /// The greatest distance in ticks that all such arrivals keep, but for jitter, where one is said.
    /// Listed ticks alone are those of one run, and say none.
    pub fn distance(self) -> Option<u32> {
        match self {
            Arriving::Periodic { period, .. } => Some(period),
            Arriving::Random { least, .. } => Some(least),
            Arriving::Listed { least, .. } => least,
            Arriving::Never => None,
        }
    }

    /// By how many ticks one may come later than its period says, where it may.
    pub fn jitter(self) -> Option<u32> {
        match self {
            Arriving::Periodic { jitter, .. } if jitter > 0 => Some(jitter),
            _ => None,
        }
    }
}

/// How the jobs of a task come about, besides those that others activate.
#[derive(Clone, Copy)]
pub enum Release {
    Others,
    /// By an alarm of its own, first at `offset`.
    Periodic { period: u32, offset: u32 },
    /// By a routine of its own.
    Sporadic(Arriving),
}

/// The name of an internal resource, and its place.
#[derive(Clone, Copy)]
pub struct Internal<'a> {
    pub name: &'a str,
    pub place: usize,
}

#[derive(Drop)]
pub struct Task<'a> {
    pub name: &'a str,
    pub place: usize,
    pub priority: u32,
    pub activations: u32,
    pub activations_place: usize,
    pub is_non: bool,
    pub starts: bool,
    /// The number of the node of the list of the modes in which it is started, by itself or by its
    /// period; none where it is in all.
    pub modes: Option<usize>,
    /// The internal resource that it lists.
    pub internal: Option<Internal<'a>>,
    pub release: Release,
    /// The longest response time allowed, in ticks.
    pub deadline: Option<u32>,
    pub body: Body<'a>,
}

#[derive(Drop)]
pub struct Interrupt<'a> {
    pub name: &'a str,
    pub place: usize,
    pub priority: u32,
    pub arriving: Arriving,
    /// The longest latency allowed, in ticks.
    pub deadline: Option<u32>,
    pub body: Body<'a>,
}

/// What an alarm does.
#[derive(Clone, Copy)]
pub enum Action<'a> {
    Activate(&'a str),
    /// Sets an event for a task.
    Set(&'a str, &'a str),
}

/// An alarm that expires first at `offset`, and then every `period` ticks.
#[derive(Drop)]
pub struct Alarm<'a> {
    pub name: &'a str,
    pub place: usize,
    pub action_place: usize,
    pub period: u32,
    pub offset: u32,
    /// As of a task.
    pub modes: Option<usize>,
    pub action: Action<'a>,
}

/// A whole description.
#[derive(Drop)]
pub struct Described<'a> {
    pub name: &'a str,
    /// Its modes, at least one.
    pub modes: Vec<&'a str>,
    /// Interrupts arrive before this tick.
    pub ticks: u32,
    pub tasks: Vec<Task<'a>>,
    pub interrupts: Vec<Interrupt<'a>>,
    pub alarms: Vec<Alarm<'a>>,
}
