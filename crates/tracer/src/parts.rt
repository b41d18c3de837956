//! Whether views of a run are written.

ghost use Rattle.std.specs.Prelude.{◌≡◌, Bool, true, false};

/// Whether what is written of a run is a view. It is known by a type, so that a run of which all is
/// written tests nothing of it at each tick.
pub(crate) trait Parts {
    /// Whether it is.
    ghost are_views: { Bool };

    /// Whether it is.
    fn are_views() -> bool
        ensures { result ≡ are_views };
}

/// All records are written.
pub(crate) struct Whole;

impl Parts for Whole {
    ghost are_views = { false };

    #[inline(always)]
    fn are_views() -> bool {
        false
    }
}

/// Those of a view are written.
pub(crate) struct Views;

impl Parts for Views {
    ghost are_views = { true };

    #[inline(always)]
    fn are_views() -> bool {
        true
    }
}
