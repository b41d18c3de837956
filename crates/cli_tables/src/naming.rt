//! Figures by the names of objects and the words of measures.

ghost use Rattle.std.specs.Prelude.{◌≡◌};
ghost use Rattle.osek_base.specs.Names.{number_of};
ghost use Rattle.view_measures.specs.Kinds.{names_of};

use crate::failed_service::name_of;
use osek_base::System;
use search_nodes::Bounds;
use view_figure_texts::{measure_of, measure_word, place_of};
use view_measures::{Figure, KINDS, Kind};

/// A figure, with the words of its kind and of its measure.
#[derive(Clone, Copy)]
pub struct NamedFigure {
    pub figure: Figure,
    pub kind: &'static str,
    pub column: &'static str,
}

/// The number of the object of a kind that has that name.
pub(crate) fn number_of(system: &System, kind: Kind, name: &str) -> Option<usize>
    ensures { result ≡ number_of name.now (names_of system.now kind) }
{
    for number in 0..kind.count(system) {
        if kind.name(system, number) == name {
            return Some(number);
        }
    }
    None
}

/// The figure of that name and word, of the first kind that has them, in the order of the tables;
/// where no word is said, of the first measure.
pub fn figure_named(system: &System, name: &str, word: Option<&str>) -> Option<NamedFigure> {
    for kind in &KINDS {
        if let Some(number) = number_of(system, *kind, name) {
            if let Some(measure) = measure_of(*kind, word) {
                return Some(NamedFigure {
                    figure: Figure { measure, number },
                    kind: kind.word(),
                    column: measure_word(measure),
                });
            }
        }
    }
    None
}

/// Whether a word may be asked for of the thing of a name: that of a measure, or of a task or
/// routine the place of a service.
pub fn is_known(system: &System, name: &str, word: Option<&str>) -> bool {
    if figure_named(system, name, word).is_some() {
        return true;
    }
    let is_owner = number_of(system, Kind::Task, name).is_some()
        || number_of(system, Kind::Routine, name).is_some();
    match word {
        Some(word) => is_owner && place_of(word).is_some(),
        None => false,
    }
}

/// The number of the first service that may be answered other than E_OK, of the task or routine of
/// that name, at the place that a word tells.
pub fn service_named(
    system: &System,
    found: &Bounds,
    name: &str,
    word: Option<&str>,
) -> Option<usize> {
    let place = place_of(word?)?;
    for (number, failure) in found.peaks.failures().iter().enumerate() {
        if name_of(system, failure.owner) == name && failure.place.number() == place {
            return Some(number);
        }
    }
    None
}
