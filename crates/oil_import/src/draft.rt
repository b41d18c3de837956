//! OIL: grammar. What is written of an import before it is read and printed.

use std::alloc::{AllocError, Global};
use std::fmt::Write;

/// Plain OIL so far.
#[derive(Drop)]
pub(crate) struct Draft {
    text: String,
}

impl Draft {
    pub(crate) fn new(alloc: Global) -> Self {
        Draft {
            text: String::new(alloc),
        }
    }

    pub(crate) fn as_bytes(&self) -> &[u8] {
        self.text.as_bytes()
    }

    /// The first lines, up to the CPU's opening brace.
    pub(crate) fn open_file(&mut self, cpu: &str) -> Result<(), AllocError> {
        self.text.push_str("OIL_VERSION = \"2.5\";\nCPU ")?;
        self.text.push_str(cpu)?;
        self.text.push_str(" {\n")
    }

    pub(crate) fn close_file(&mut self) -> Result<(), AllocError> {
        self.text.push_str("};\n")
    }

    /// The first line of an object.
    pub(crate) fn open_object(&mut self, kind: &str, name: &str) -> Result<(), AllocError> {
        self.text.push_str(kind)?;
        self.text.push_str(" ")?;
        self.text.push_str(name)?;
        self.text.push_str(" {\n")
    }

    pub(crate) fn close_object(&mut self) -> Result<(), AllocError> {
        self.text.push_str("};\n")
    }

    /// An attribute without its semicolon.
    pub(crate) fn open_setting(&mut self, word: &str, value: &str) -> Result<(), AllocError> {
        self.text.push_str(word)?;
        self.text.push_str(" = ")?;
        self.text.push_str(value)
    }

    /// The same of a number.
    pub(crate) fn open_number(&mut self, word: &str, number: u32) -> Result<(), AllocError> {
        write!(self.text, "{word} = {number}")
    }

    pub(crate) fn close_setting(&mut self) -> Result<(), AllocError> {
        self.text.push_str(";\n")
    }

    /// An attribute.
    pub(crate) fn setting(&mut self, word: &str, value: &str) -> Result<(), AllocError> {
        self.open_setting(word, value)?;
        self.close_setting()
    }

    /// An attribute that is a number.
    pub(crate) fn number(&mut self, word: &str, number: u32) -> Result<(), AllocError> {
        self.open_number(word, number)?;
        self.close_setting()
    }

    pub(crate) fn open_block(&mut self) -> Result<(), AllocError> {
        self.text.push_str(" {\n")
    }

    pub(crate) fn close_block(&mut self) -> Result<(), AllocError> {
        self.text.push_str("}")
    }
}
