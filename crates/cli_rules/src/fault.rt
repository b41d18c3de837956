//! What is wrong with a file of rules.

/// What is wrong at a place.
#[derive(Clone, Copy)]
pub enum RuleWrong {
    /// No rule begins with the word.
    NoRule,
    /// The line ends too soon; what its form is.
    Short(&'static str),
    /// The line goes on; what its form is.
    Long(&'static str),
    /// No number, or none from the least to the greatest.
    Number(u32, u32),
    /// No routine has the name.
    NoRoutine,
    /// Neither a task nor a routine has the name.
    NoThing,
    /// A task and a routine have the name.
    TwoThings,
    /// No limit is on such a figure of the thing; the figure that one is on.
    OtherFigure(&'static str),
    /// It was said before, at that place.
    Twice(usize),
}

/// What is wrong, and where.
#[derive(Clone, Copy)]
pub struct RuleFault<'t> {
    /// In bytes from the beginning of the text.
    pub place: usize,
    /// The word there; empty where a line ends.
    pub word: &'t str,
    pub wrong: RuleWrong,
}
