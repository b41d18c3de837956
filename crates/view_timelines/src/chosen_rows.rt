//! Which rows of a picture are drawn.

ghost use Rattle.std.specs.Prelude.{◌≡◌};

use crate::timeline::Timeline;
use crate::track::Track;
use osek_base::{Name, System};

/// Whether a name stands in a list with commas between its names.
fn is_listed(list: &str, name: &str) -> bool {
    for word in list.split(',') {
        if word == name {
            return true;
        }
    }
    false
}

fn has_name(names: &[Name], wanted: &str) -> bool {
    for name in names {
        if name.as_str() == wanted {
            return true;
        }
    }
    false
}

/// The first name of a list, with commas between its names, that neither a task nor a routine has.
pub fn unknown_row<'n>(system: &System, list: &'n str) -> Option<&'n str> {
    let names = system.names();
    for word in list.split(',') {
        let is_task = has_name(names.tasks.as_slice(), word);
        if !is_task && !has_name(names.routines.as_slice(), word) {
            return Some(word);
        }
    }
    None
}

fn choose_tracks(tracks: &mut [Track], names: &[Name], list: &str)
    ensures { tracks.new ≡ tracks.old }
{
    for (number, track) in tracks.iter_mut().enumerate() {
        if let Some(name) = names.get(number) {
            track.choose(is_listed(list, name.as_str()));
        }
    }
}

/// How many of some tracks are drawn.
pub(crate) fn drawn_count(tracks: &[Track]) -> usize {
    tracks.iter().filter(|track| track.is_drawn).count()
}

impl Timeline {
    /// From here on only the rows are drawn whose names stand in a list with commas between its
    /// names: a task and a routine of one name are both drawn. What is kept of each stays.
    pub fn choose_rows(&mut self, system: &System, list: &str)
        ensures { self.new ≡ self.old }
    {
        let names = system.names();
        choose_tracks(
            self.routines.as_mut_slice(),
            names.routines.as_slice(),
            list,
        );
        choose_tracks(self.tasks.as_mut_slice(), names.tasks.as_slice(), list);
    }
}
