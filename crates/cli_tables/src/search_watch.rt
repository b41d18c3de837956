//! How far a search through all runs is.

use search::Progress as Found;
use search_nodes::Watch;
use std::io::Write;
use view_runs::Progress;

/// Tells how far a search is, where that is shown.
#[derive(Drop)]
pub struct SearchWatch<'w, 'e, E> {
    progress: &'w mut Progress<'e, E>,
}

impl<'w, 'e, E> SearchWatch<'w, 'e, E> {
    pub fn new(progress: &'w mut Progress<'e, E>) -> Self {
        SearchWatch { progress }
    }
}

impl<E: Write> Watch for SearchWatch<'_, '_, E> {
    fn searched(&mut self, found: Found, bytes: u64) {
        let Found {
            nodes,
            open_nodes,
            visits,
            levels,
            ..
        } = found;
        self.progress
            .note_search(visits, nodes, open_nodes, levels, bytes);
    }
}
