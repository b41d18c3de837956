//! The lines behind what is shown of a text: what is allowed, the nearest name, and the like.

use std::alloc::{AllocError, Global};
use std::collections::BTreeSet;
use std::io::{self, Write};
use strsim::osa_distance;

/// How many names are listed at most, where a text may have any number of them.
const LISTED: usize = 20;

/// The name that is nearest to a word, where one is near: equal but for case, or with at most a
/// third of the word's letters changed.
pub(crate) fn nearest<'a>(
    alloc: Global,
    word: &str,
    names: &[&'a str],
) -> Result<Option<&'a str>, AllocError> {
    let mut found = None;
    let mut least = word.len().max(3) / 3;
    for name in names {
        if name.eq_ignore_ascii_case(word) {
            return Ok(Some(*name));
        }
        let distance = osa_distance(alloc, word, *name)?;
        if distance < least || (distance == least && found.is_none()) {
            found = Some(*name);
            least = distance;
        }
    }
    Ok(found)
}

/// The numbers of those of many names that are nearest to a word, each behind its distance, as many
/// as are listed.
fn nearest_numbers(
    alloc: Global,
    word: &str,
    names: &[&str],
) -> Result<BTreeSet<(usize, usize)>, AllocError> {
    let mut near = BTreeSet::new(alloc);
    for (number, name) in names.iter().enumerate() {
        near.insert((osa_distance(alloc, word, *name)?, number))?;
        if near.len() > LISTED {
            let _ = near.pop_last();
        }
    }
    Ok(near)
}

/// Those names, the nearest first.
fn nearest_names<'a>(
    alloc: Global,
    word: &str,
    names: &[&'a str],
) -> Result<Vec<&'a str>, AllocError> {
    let near = nearest_numbers(alloc, word, names)?;
    let mut found = Vec::new(alloc);
    for (_, number) in &near {
        if let Some(name) = names.get(*number) {
            found.push(*name)?;
        }
    }
    Ok(found)
}

/// Writes ` TITLE: NAME NAME ..`, or ` TITLE: none`, without a line end.
fn write_list<W: Write>(title: &str, names: &[&str], out: &mut W) -> io::Result<()> {
    write!(out, " {title}:")?;
    if names.is_empty() {
        return out.write_all(b" none");
    }
    for name in names {
        write!(out, " {name}")?;
    }
    Ok(())
}

/// Writes a line ` TITLE: NAME NAME ..`, or ` TITLE: none`. An error is a failed write.
pub fn write_names<W: Write>(title: &str, names: &[&str], out: &mut W) -> io::Result<()> {
    write_list(title, names, out)?;
    out.write_all(b"\n")
}

/// The same with the first 20 names, and how many more there are.
pub fn write_first_names<W: Write>(title: &str, names: &[&str], out: &mut W) -> io::Result<()> {
    let (first, rest) = names.split_at(LISTED.min(names.len()));
    write_list(title, first, out)?;
    if !rest.is_empty() {
        write!(out, " and {} more", rest.len())?;
    }
    out.write_all(b"\n")
}

/// Writes the name that is nearest to a word, where one is near. An error is a failed write or want
/// of memory.
pub(crate) fn write_nearest<W: Write>(
    alloc: Global,
    word: &str,
    names: &[&str],
    out: &mut W,
) -> io::Result<()> {
    match nearest(alloc, word, names)? {
        Some(name) => write_names("nearest", &[name], out),
        None => Ok(()),
    }
}

/// Writes the names that are allowed, of more than 20 those that are nearest to a word and how many
/// more there are, and the one that is nearest to it. An error is a failed write or want of memory.
pub fn write_choice<W: Write>(
    alloc: Global,
    word: &str,
    names: &[&str],
    out: &mut W,
) -> io::Result<()> {
    if names.len() > LISTED {
        let near = nearest_names(alloc, word, names)?;
        write_list("allowed", &near, out)?;
        writeln!(out, " and {} more", names.len().saturating_sub(near.len()))?;
    } else {
        write_names("allowed", names, out)?;
    }
    write_nearest(alloc, word, names, out)
}
