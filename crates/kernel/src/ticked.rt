//! What a tick did, by where the record of what it executed stands.

use osek_base::Executed;

/// What a tick did.
#[derive(Clone, Copy)]
pub enum Ticked {
    /// The record of what it executed is its first.
    First(Executed),
    /// What it executed, if anybody did, and the records before and behind it stand apart.
    Any,
    /// Nothing: a ShutdownOS ended the run before.
    Over,
}
