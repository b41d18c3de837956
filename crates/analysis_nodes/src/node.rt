//! Nodes: what is told of a job or a routine as it stands.

use crate::switch::Switch;
use osek_base::{Owner, REGISTERS, ResId};

/// A job or a routine as it stands, of whose registers some aren't known, and of whose events some
/// are used. Whether a job is begun, and whether its internal resource is taken, isn't told.
#[derive(Drop)]
pub struct Node {
    pub owner: Owner,
    pub switch: Switch,
    /// The resources that it holds, in the order got.
    pub held: Vec<ResId>,
    /// The events that it waits for, as a mask, if it waits.
    pub waits_for: Option<u32>,
    /// The events that may be set and pay for nothing any more, as a mask. Others may be set
    /// besides.
    pub used: u32,
    /// The place of its next instruction.
    pub place: u32,
    /// None is a value that isn't known.
    pub registers: [Option<u32>; REGISTERS],
}
