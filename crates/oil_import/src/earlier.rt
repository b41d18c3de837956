//! OIL: standard objects and their attributes. What an object or a block has had so far.

use oil_reader::AttributeName;
use std::alloc::{AllocError, Global};

/// The attributes that an object or a block has had so far, those that list names once a name.
#[derive(Drop)]
pub(crate) struct EarlierAttributes<'a> {
    list: Vec<Had<'a>>,
}

/// An attribute, and the value that was taken for it.
#[derive(Clone, Copy)]
struct Had<'a> {
    attribute: AttributeName,
    value: Option<&'a str>,
}

impl<'a> EarlierAttributes<'a> {
    pub(crate) fn new(alloc: Global) -> Self {
        EarlierAttributes {
            list: Vec::new(alloc),
        }
    }

    pub(crate) fn has(&self, attribute: AttributeName) -> bool {
        for had in &self.list {
            if had.attribute == attribute {
                return true;
            }
        }
        false
    }

    /// The names that a list attribute has had so far.
    pub(crate) fn names(
        &self,
        alloc: Global,
        attribute: AttributeName,
    ) -> Result<Vec<&'a str>, AllocError> {
        let mut names = Vec::new(alloc);
        for had in &self.list {
            if let (true, Some(name)) = (had.attribute == attribute, had.value) {
                names.push(name)?;
            }
        }
        Ok(names)
    }

    pub(crate) fn lists(&self, attribute: AttributeName, name: &str) -> bool {
        for had in &self.list {
            if had.attribute == attribute && had.value == Some(name) {
                return true;
            }
        }
        false
    }

    pub(crate) fn add(
        &mut self,
        attribute: AttributeName,
        value: Option<&'a str>,
    ) -> Result<(), AllocError> {
        if value.is_some() || !self.has(attribute) {
            self.list.push(Had { attribute, value })?;
        }
        Ok(())
    }
}
