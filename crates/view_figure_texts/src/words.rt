//! The words of figures, of one run and of every run.

ghost use Rattle.std.specs.Prelude.{◌≡◌};
ghost use Rattle.view_figure_texts.specs.Words.{word_text};

/// The word of a figure. A figure of one run and its bound have the same one.
#[derive(Clone, Copy)]
pub enum Word {
    Ticks,
    Idle,
    Load,
    Activations,
    Refused,
    Ended,
    Unfinished,
    Errors,
    Blockers,
    Jobs,
    Responses,
    Least,
    Mean,
    Greatest,
    GreatestAt,
    Oldest,
    Executed,
    Ready,
    Preempted,
    Blocked,
    Waiting,
    Arrivals,
    Starts,
    Losses,
    Latency,
    LatencyAt,
    Pending,
    Gets,
    Longest,
    LongestAt,
    Expiries,
    Comes,
}

impl Word {
    /// Its text.
    pub fn text(self) -> &'static str
        ensures { result.now ≡ word_text self }
    {
        match self {
            Word::Ticks => "ticks",
            Word::Idle => "idle",
            Word::Load => "load",
            Word::Activations => "activations",
            Word::Refused => "refused",
            Word::Ended => "ended",
            Word::Unfinished => "unfinished",
            Word::Errors => "errors",
            Word::Blockers => "blockers",
            Word::Jobs => "jobs",
            Word::Responses => "responses",
            Word::Least => "least",
            Word::Mean => "mean",
            Word::Greatest => "greatest",
            Word::GreatestAt => "greatest_at",
            Word::Oldest => "oldest",
            Word::Executed => "executed",
            Word::Ready => "ready",
            Word::Preempted => "preempted",
            Word::Blocked => "blocked",
            Word::Waiting => "waiting",
            Word::Arrivals => "arrivals",
            Word::Starts => "starts",
            Word::Losses => "losses",
            Word::Latency => "latency",
            Word::LatencyAt => "latency_at",
            Word::Pending => "pending",
            Word::Gets => "gets",
            Word::Longest => "longest",
            Word::LongestAt => "longest_at",
            Word::Expiries => "expiries",
            Word::Comes => "comes",
        }
    }
}
