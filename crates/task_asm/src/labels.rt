//! Program texts: the labels of a program.

ghost use Rattle.std.specs.Prelude.{◌≡◌, ℕ, List, IfOk, length};
ghost use Rattle.task_asm.specs.Walk.{program_size, definition_from, finds, Knows};

use crate::statements::{Item, Statement};
use std::alloc::{AllocError, Global};
use std::collections::BTreeMap;

/// Where a label is defined: how many statements and how many instructions of its program stand
/// before it.
#[derive(Clone, Copy)]
pub struct Definition {
    pub statement: usize,
    pub place: usize,
}

/// The labels of a program, each where it is first defined, and how many instructions the program
/// has.
#[derive(Drop)]
pub struct Labels<'a> {
    pub definitions: BTreeMap<&'a str, Definition>,
    pub instructions: usize,
}

/// How many instructions the program has whose statements stand first.
fn program_size(statements: &[Statement<'_>]) -> usize
    ensures { result ≡ program_size statements.now }
{
    let mut size = 0;
    'statements: for statement in statements {
        match &statement.item {
            Item::Instruction(_) => size += 1,
            Item::Program(_, _) => return size,
            _ => {}
        }
    }
    size
}

/// The first definitions of the labels of the program whose statements stand first.
fn definitions<'a>(
    alloc: Global,
    statements: &[Statement<'a>],
) -> Result<BTreeMap<&'a str, Definition>, AllocError>
    ensures { IfOk result (λ m. (w : List ℕ) → finds m w ≡ definition_from 0 0 statements.now w) }
{
    let mut definitions = BTreeMap::new(alloc);
    let mut place = 0;
    let mut at = 0;
    'statements: while at < statements.len() {
        let statement = &statements[at];
        match &statement.item {
            Item::Label(word) => {
                let defined = Definition {
                    statement: at,
                    place,
                };
                if let Some(first) = definitions.insert(*word, defined)? {
                    definitions.insert(*word, first)?;
                }
            }
            Item::Instruction(_) => place += 1,
            Item::Program(_, _) => return Ok(definitions),
            Item::Unknown => {}
        }
        at += 1;
    }
    Ok(definitions)
}

impl<'a> Labels<'a> {
    /// The labels of the program whose statements stand first.
    pub fn of(alloc: Global, statements: &[Statement<'a>]) -> Result<Self, AllocError>
        ensures { IfOk result (λ labels. Knows labels statements.now) }
    {
        Ok(Labels {
            definitions: definitions(alloc, statements)?,
            instructions: program_size(statements),
        })
    }

    /// Where a label is first defined.
    pub fn find(&self, word: &str) -> Option<Definition>
        ensures { result ≡ finds self.now.definitions word.now }
    {
        self.definitions.get(word).copied()
    }
}
