//! OSEK/VDX OS: error handling. A service that is answered other than E_OK.

use osek_base::{Owner, Place, Status};

/// A service that is answered other than E_OK: by whom it is asked, at which place of its program,
/// and how it is answered.
#[derive(Clone, Copy, PartialEq, Eq)]
pub struct Failure {
    pub owner: Owner,
    pub place: Place,
    pub status: Status,
}
