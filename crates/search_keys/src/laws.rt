//! The laws, one function each. The functions are empty: the clause is the law.

ghost use Rattle.search_keys.specs.InRange.{AlikeHaveOneKey, KeysTell, RunsAreInRange};

/// States in range whose keys are equal are alike in what is needed, where no word is needed beyond
/// the windows of the system's tasks and routines.
pub fn keys_tell()
    ensures { KeysTell }
{}

/// States in range that are alike in what is needed have equal keys.
pub fn alike_have_one_key()
    ensures { AlikeHaveOneKey }
{}

/// What is kept after each tick of every run of a proper system is in range.
pub fn runs_are_in_range()
    ensures { RunsAreInRange }
{}
