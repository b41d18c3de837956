//! Names in lists, the one that is nearest to a word, and the name that no description declares.

use std::alloc::{AllocError, Global};
use strsim::osa_distance;

/// The resource that is there without being declared, and that no task lists.
pub const SCHEDULER: &str = "RES_SCHEDULER";

/// Whether a name stands in a list.
pub fn is_among(names: &[&str], name: &str) -> bool {
    for other in names {
        if *other == name {
            return true;
        }
    }
    false
}

/// Adds a name where it isn't there yet.
pub fn add<'a>(names: &mut Vec<&'a str>, name: &'a str) -> Result<(), AllocError> {
    if !is_among(names, name) {
        names.push(name)?;
    }
    Ok(())
}

/// The name that is nearest to a word, where one is near: at most a third of the word's letters are
/// changed.
pub fn nearest(
    alloc: Global,
    word: &str,
    names: &[&'static str],
) -> Result<Option<&'static str>, AllocError> {
    let mut found = None;
    let mut least = word.len().max(3) / 3;
    for name in names {
        let distance = osa_distance(alloc, word, *name)?;
        if distance < least || (distance == least && found.is_none()) {
            found = Some(*name);
            least = distance;
        }
    }
    Ok(found)
}
