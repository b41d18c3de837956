//! What a line of rules can say.

/// What a line says.
#[derive(Clone, Copy)]
pub(crate) enum RuleKind {
    /// The period of a routine's interrupts.
    Apart,
    /// By how much each of them may come later.
    Jitter,
    /// How far apart they come in any case.
    Least,
    /// None of them comes.
    Never,
    /// The greatest time that a task or routine may have.
    Limit,
    /// No interrupt may be lost.
    NoLoss,
    /// No activation and no alarm's action may be refused.
    NoRefusal,
    /// The time from which on none is told.
    Longest,
    /// How many states may be kept.
    States,
}

/// All of them.
const KINDS: [RuleKind; 9] = [
    RuleKind::Apart,
    RuleKind::Jitter,
    RuleKind::Least,
    RuleKind::Never,
    RuleKind::Limit,
    RuleKind::NoLoss,
    RuleKind::NoRefusal,
    RuleKind::Longest,
    RuleKind::States,
];

/// The first words of lines.
pub(crate) const WORDS: [&str; 9] = [
    "apart",
    "jitter",
    "least",
    "never",
    "limit",
    "no-loss",
    "no-refusal",
    "longest",
    "states",
];

impl RuleKind {
    /// What a line says that begins with a word.
    pub(crate) fn of(word: &str) -> Option<Self> {
        for kind in &KINDS {
            if kind.word() == word {
                return Some(*kind);
            }
        }
        None
    }

    /// The first word of its lines.
    pub(crate) fn word(self) -> &'static str {
        match self {
            RuleKind::Apart => "apart",
            RuleKind::Jitter => "jitter",
            RuleKind::Least => "least",
            RuleKind::Never => "never",
            RuleKind::Limit => "limit",
            RuleKind::NoLoss => "no-loss",
            RuleKind::NoRefusal => "no-refusal",
            RuleKind::Longest => "longest",
            RuleKind::States => "states",
        }
    }

    /// The form of its lines.
    pub(crate) fn form(self) -> &'static str {
        match self {
            RuleKind::Apart => "apart ROUTINE TICKS",
            RuleKind::Jitter => "jitter ROUTINE TICKS",
            RuleKind::Least => "least ROUTINE TICKS",
            RuleKind::Never => "never ROUTINE",
            RuleKind::Limit => "limit TASK greatest TICKS, or limit ROUTINE latency TICKS",
            RuleKind::Longest => "longest TICKS",
            RuleKind::States => "states N",
            RuleKind::NoLoss | RuleKind::NoRefusal => "the word by itself",
        }
    }

    /// How many words its lines have.
    pub(crate) fn len(self) -> usize {
        match self {
            RuleKind::Apart | RuleKind::Jitter | RuleKind::Least => 3,
            RuleKind::Limit => 4,
            RuleKind::NoLoss | RuleKind::NoRefusal => 1,
            RuleKind::Never | RuleKind::Longest | RuleKind::States => 2,
        }
    }
}
