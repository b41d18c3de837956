//! OIL of AUTOSAR: the execution budgets of tasks and routines. Plain OIL has none; they are told
//! beside it.

use crate::attributes::value_of;
use crate::items::{Item, Written};
use oil_reader::{Kind, Value};
use std::alloc::{AllocError, Global};

/// The EXECUTIONBUDGET of a task or a routine.
#[derive(Clone, Copy)]
pub struct Budget<'a> {
    kind: Kind,
    name: &'a str,
    /// As it is written, of letters, digits, `_`, `.`, `+` and `-`.
    pub text: &'a str,
    /// The number that it is, where it is a whole one.
    pub number: Option<u32>,
}

/// The budgets of a file, at most one an object.
#[derive(Drop)]
pub struct Budgets<'a> {
    list: Vec<Budget<'a>>,
}

impl<'a> Budgets<'a> {
    pub(crate) fn new(alloc: Global) -> Self {
        Budgets {
            list: Vec::new(alloc),
        }
    }

    /// Notes the first budget among what stands in the braces of an object, however deep.
    pub(crate) fn note(
        &mut self,
        kind: Kind,
        name: &'a str,
        items: &[Item<'a>],
    ) -> Result<(), AllocError> {
        for item in items {
            if let ("EXECUTIONBUDGET", Written::Word(text)) = (item.word, item.written) {
                let number = match value_of(text) {
                    Some(Value::Number(number)) => Some(number),
                    _ => None,
                };
                self.list.push(Budget {
                    kind,
                    name,
                    text,
                    number,
                })?;
                return Ok(());
            }
        }
        Ok(())
    }

    /// The budget of the object of that kind and name.
    pub fn of(&self, kind: Kind, name: &str) -> Option<Budget<'a>> {
        for budget in &self.list {
            if budget.kind == kind && budget.name == name {
                return Some(*budget);
            }
        }
        None
    }
}
