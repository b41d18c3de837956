//! What of a run is written.

/// All records; all, with the number of blockers; or those of the view at a priority.
#[derive(Clone, Copy)]
pub enum Shown {
    All,
    /// Behind the first instruction of a job since it became ready stands how many blockers it had.
    Blocking,
    View(u8),
}
