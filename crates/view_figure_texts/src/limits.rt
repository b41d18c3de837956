//! Limits on figures, for who checks a run, or all runs, by the exit status.

/// How many ticks the responses of a task, or the latency of a routine, may take.
#[derive(Clone, Copy)]
pub struct Limit<'a> {
    /// The task's or the routine's name.
    pub name: &'a str,
    pub ticks: u32,
}

/// What a run has to keep, or each run.
#[derive(Clone, Copy)]
pub struct Limits<'a> {
    /// The limits on times.
    pub times: &'a [Limit<'a>],
    /// Whether no interrupt may be lost.
    pub no_loss: bool,
    /// Whether no activation and no alarm's action may be refused.
    pub no_refusal: bool,
}
