//! The two texts of a system.

use explain_texts::{CodeWord, Source, code_words, tree_of};
use oil_reader::SyntaxTree;
use std::alloc::{AllocError, Global};
use task_asm::tokenize;

/// The two texts of a system, and what they consist of.
#[derive(Clone, Copy)]
pub struct Parsed<'t, 'a> {
    pub oil: Source<'a>,
    pub tree: &'t SyntaxTree<'a>,
    pub asm: Source<'a>,
    pub words: &'t [CodeWord<'a>],
}

/// What the two texts of a system consist of.
#[derive(Drop)]
pub struct Parts<'a> {
    tree: SyntaxTree<'a>,
    words: Vec<CodeWord<'a>>,
}

impl<'a> Parts<'a> {
    /// The parts of two texts, where both can be read.
    pub fn of(alloc: Global, oil: Source<'a>, asm: Source<'a>) -> Result<Option<Self>, AllocError> {
        let Some(tree) = tree_of(alloc, oil.text) else {
            return Ok(None);
        };
        let Ok(tokens) = tokenize(alloc, asm.text) else {
            return Ok(None);
        };
        let words = code_words(alloc, &tokens)?;
        Ok(Some(Parts { tree, words }))
    }

    /// The two texts with their parts.
    pub fn parsed(&self, oil: Source<'a>, asm: Source<'a>) -> Parsed<'_, 'a> {
        Parsed {
            oil,
            tree: &self.tree,
            asm,
            words: &self.words,
        }
    }
}
