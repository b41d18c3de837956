//! The laws, one function each. The functions are empty: the clause is the law.

ghost use Rattle.law_lines.specs.HeldWords.{RunsHoldWords};
ghost use Rattle.law_lines.specs.LineLengths.{LinesAreShort, NumberedLinesAreShort};
ghost use Rattle.law_lines.specs.LineLengths.{ViewLinesAreShort};

/// In every run of a proper system registers, words and masks have 32 bits, and an alarm that is
/// on has fewer than 2^32 counts left.
pub fn runs_hold_words()
    ensures { RunsHoldWords }
{}

/// Each line of the trace of such a run, of 1,000,000 ticks at most, has at most 121 bytes.
pub fn lines_are_short()
    ensures { LinesAreShort }
{}

/// With the numbers of blockers each has at most 125.
pub fn numbered_lines_are_short()
    ensures { NumberedLinesAreShort }
{}

/// Each line of a view of such a run has at most 121.
pub fn view_lines_are_short()
    ensures { ViewLinesAreShort }
{}
