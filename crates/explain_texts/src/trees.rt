//! The trees of OIL texts.

use oil_reader::{Kind, SyntaxTree, parse, tokenize};
use std::alloc::{AllocError, Global};

/// The tree of an OIL text, where its syntax is right and memory suffices.
pub fn tree_of(alloc: Global, text: &[u8]) -> Option<SyntaxTree<'_>> {
    match tokenize(alloc, text) {
        Ok(tokens) => parse(alloc, text.len(), &tokens).ok(),
        Err(_) => None,
    }
}

/// The names of the objects of a kind, in order. An error is want of memory.
pub fn names<'a>(
    alloc: Global,
    tree: &SyntaxTree<'a>,
    kind: Kind,
) -> Result<Vec<&'a str>, AllocError> {
    let mut found = Vec::new(alloc);
    for object in &tree.objects {
        if object.kind == kind {
            found.push(object.name.text)?;
        }
    }
    Ok(found)
}
