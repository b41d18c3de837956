//! Measures by their words.

ghost use Rattle.std.specs.Prelude.{◌≡◌};
ghost use Rattle.std.specs.Option.{option_map};
ghost use Rattle.view_figure_texts.specs.Tables.{is_asked, is_measure as is_any_measure, measure_of as first_measure, measure_word, place_of as told_place, word_of};

use crate::words::Word;
use view_measures::{KINDS, Kind, Measure};

/// Which word a measure has.
fn figure(measure: Measure) -> Word
    ensures { result ≡ word_of measure }
{
    match measure {
        Measure::Response => Word::Greatest,
        Measure::Blocked => Word::Blocked,
        Measure::Blockers => Word::Blockers,
        Measure::Jobs => Word::Jobs,
        Measure::Latency => Word::Latency,
        Measure::Loss => Word::Losses,
        Measure::Hold => Word::Longest,
        Measure::Refusal | Measure::RefusedAction => Word::Refused,
        Measure::Errors | Measure::RoutineErrors => Word::Errors,
        Measure::Shutdown => Word::Comes,
    }
}

/// The word of a measure, that of the same figure of one run.
pub fn measure_word(measure: Measure) -> &'static str
    ensures { result.now ≡ measure_word measure }
{
    figure(measure).text()
}

/// Whether a measure has a word, where one is said.
fn is_asked(measure: Measure, word: Option<&str>) -> bool
    ensures { result ≡ is_asked (option_map (λ w. w.now) word.entry) measure }
{
    match word {
        Some(word) => word == measure_word(measure),
        None => true,
    }
}

/// The measure of a kind that has that word; its first, where no word is said.
pub fn measure_of(kind: Kind, word: Option<&str>) -> Option<Measure>
    ensures { result ≡ first_measure kind (option_map (λ w. w.now) word.entry) }
{
    for measure in kind.measures() {
        if is_asked(*measure, word) {
            return Some(*measure);
        }
    }
    None
}

/// The place of a service that a word tells, as a figure is told by the word of its measure.
pub fn place_of(word: &str) -> Option<u16>
    ensures { result ≡ told_place word.now }
{
    word.parse::<u16>().ok()
}

/// Whether a measure has that word.
pub fn is_measure(word: &str) -> bool
    ensures { result ≡ is_any_measure word.now }
{
    for kind in &KINDS {
        if measure_of(*kind, Some(word)).is_some() {
            return true;
        }
    }
    false
}
