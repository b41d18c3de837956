//! Names on a command line that nothing of the system has.

use crate::notes::write_choice;
use crate::pieces::kind_word;
use crate::source::Source;
use crate::trees::{names, tree_of};
use oil_reader::{Kind, SyntaxTree};
use std::alloc::{AllocError, Global};
use std::io::{self, Write};

/// The kind of the first object of an OIL file that has a name.
fn kind_named(tree: &SyntaxTree<'_>, name: &str) -> Option<Kind> {
    for object in &tree.objects {
        if object.name.text == name {
            return Some(object.kind);
        }
    }
    None
}

/// Whether an object of one of some kinds has a name.
fn is_named(tree: &SyntaxTree<'_>, kinds: &[Kind], name: &str) -> bool {
    for object in &tree.objects {
        if object.name.text == name && kinds.contains(&object.kind) {
            return true;
        }
    }
    false
}

/// The names of the objects of some kinds, kind by kind.
fn all_names<'a>(
    alloc: Global,
    tree: &SyntaxTree<'a>,
    kinds: &[Kind],
) -> Result<Vec<&'a str>, AllocError> {
    let mut all = Vec::new(alloc);
    for kind in kinds {
        for name in &names(alloc, tree, *kind)? {
            all.push(*name)?;
        }
    }
    Ok(all)
}

/// Writes `FILE: there is no KIND, KIND or KIND NAME`.
fn write_missing<W: Write>(
    oil: Source<'_>,
    kinds: &[Kind],
    name: &str,
    out: &mut W,
) -> io::Result<()> {
    write!(out, "{}: there is no", oil.name)?;
    for (number, kind) in kinds.iter().enumerate() {
        let before = match number {
            0 => " ",
            _ if number.saturating_add(1) == kinds.len() => " or ",
            _ => ", ",
        };
        write!(out, "{before}{}", kind_word(*kind))?;
    }
    writeln!(out, " {name}")
}

/// Explains a name of a command line that stands for no object of some kinds of what is asked for:
/// what else has it, which names there are, and the nearest. Where an object of these kinds has it
/// all the same, `else_what` says why that doesn't count. An error is a failed write, or want of
/// memory for the explanation.
pub fn explain_name<W: Write>(
    alloc: Global,
    oil: Source<'_>,
    kinds: &[Kind],
    name: &str,
    else_what: &str,
    out: &mut W,
) -> io::Result<()> {
    let Some(tree) = tree_of(alloc, oil.text) else {
        return Ok(());
    };
    if is_named(&tree, kinds, name) {
        return writeln!(out, "{}: {name} {else_what}", oil.name);
    }
    write_missing(oil, kinds, name, out)?;
    if let Some(kind) = kind_named(&tree, name) {
        writeln!(out, " hint: {name} is of the kind {}", kind_word(kind))?;
    }
    write_choice(alloc, name, &all_names(alloc, &tree, kinds)?, out)
}
