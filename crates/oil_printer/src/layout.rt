//! OIL: grammar. Settings, lines and blocks as text.

ghost use Rattle.std.specs.Prelude.{◌≡◌, ◌++◌, map, OnOk};
ghost use Rattle.std.specs.List.{flat_map};
ghost use Rattle.std.specs.String.{string_bytes};
ghost use Rattle.oil_reader.specs.Grammar.{Named, Numeric};
ghost use Rattle.oil_printer.specs.Layout.{setting_text, sub_text, attribute_text, block_start, block_end};
ghost use Rattle.oil_printer.specs.Printed.{setting, line, switch_word};

use itoa::Buffer;
use osek_base::Name;
use std::alloc::AllocError;

#[tactic(auto, unfolding(crate::specs::Layout::setting_text))]
fn push_setting(text: &mut String, word: &str, value: &str) -> Result<(), AllocError>
    ensures { OnOk result
        (string_bytes text.new
        ≡ string_bytes text.old ++ setting_text (setting word.now (Named value.now))) }
{
    text.push_str(word)?;
    text.push_str(" = ")?;
    text.push_str(value)
}

/// A setting of a block: a space, the setting and its semicolon.
#[tactic(auto, unfolding(crate::specs::Layout::sub_text))]
pub fn push_sub(text: &mut String, word: &str, value: &str) -> Result<(), AllocError>
    ensures { OnOk result
        (string_bytes text.new
        ≡ string_bytes text.old ++ sub_text (setting word.now (Named value.now))) }
{
    text.push_str(" ")?;
    push_setting(text, word, value)?;
    text.push_str(";")
}

/// A setting of a block whose value is a number.
#[tactic(auto, unfolding(crate::specs::Layout::sub_text, crate::specs::Layout::setting_text))]
pub fn push_number_sub(text: &mut String, word: &str, number: u32) -> Result<(), AllocError>
    ensures { OnOk result
        (string_bytes text.new
        ≡ string_bytes text.old ++ sub_text (setting word.now (Numeric number))) }
{
    let mut buffer = Buffer::new();
    push_sub(text, word, buffer.format(number))
}

/// A list attribute of a block, once for each name.
pub fn push_subs(text: &mut String, word: &str, names: &[Name]) -> Result<(), AllocError>
    ensures { OnOk result
        (string_bytes text.new
        ≡ string_bytes text.old
        ++ flat_map sub_text (map (λ name. setting word.now (Named name)) names.now)) }
{
    for name in names {
        push_sub(text, word, name.as_str())?;
    }
    Ok(())
}

/// An attribute without a block, on its line.
#[tactic(auto, unfolding(crate::specs::Layout::attribute_text))]
pub fn push_line(text: &mut String, word: &str, value: &str) -> Result<(), AllocError>
    ensures { OnOk result
        (string_bytes text.new
        ≡ string_bytes text.old ++ attribute_text (line word.now (Named value.now))) }
{
    text.push_str("    ")?;
    push_setting(text, word, value)?;
    text.push_str(";\n")
}

/// An attribute whose value is a number.
#[tactic(auto, unfolding(crate::specs::Layout::attribute_text, crate::specs::Layout::setting_text))]
pub fn push_number_line(text: &mut String, word: &str, number: u32) -> Result<(), AllocError>
    ensures { OnOk result
        (string_bytes text.new
        ≡ string_bytes text.old ++ attribute_text (line word.now (Numeric number))) }
{
    let mut buffer = Buffer::new();
    push_line(text, word, buffer.format(number))
}

/// An attribute that is TRUE or FALSE.
pub fn push_switch(text: &mut String, word: &str, on: bool) -> Result<(), AllocError>
    ensures { OnOk result
        (string_bytes text.new
        ≡ string_bytes text.old ++ attribute_text (line word.now (Named (switch_word on)))) }
{
    push_line(text, word, if on { "TRUE" } else { "FALSE" })
}

/// A list attribute, a line for each name.
pub fn push_lines(text: &mut String, word: &str, names: &[Name]) -> Result<(), AllocError>
    ensures { OnOk result
        (string_bytes text.new
        ≡ string_bytes text.old
        ++ flat_map attribute_text (map (λ name. line word.now (Named name)) names.now)) }
{
    for name in names {
        push_line(text, word, name.as_str())?;
    }
    Ok(())
}

/// An attribute up to the opening brace of its block.
#[tactic(auto, unfolding(crate::specs::Layout::block_start))]
pub fn open_block(text: &mut String, word: &str, value: &str) -> Result<(), AllocError>
    ensures { OnOk result
        (string_bytes text.new
        ≡ string_bytes text.old ++ block_start (setting word.now (Named value.now))) }
{
    text.push_str("    ")?;
    push_setting(text, word, value)?;
    text.push_str(" {")
}

/// The end of a block and of its attribute.
#[tactic(auto, unfolding(crate::specs::Layout::block_end))]
pub fn close_block(text: &mut String) -> Result<(), AllocError>
    ensures { OnOk result (string_bytes text.new ≡ string_bytes text.old ++ block_end) }
{
    text.push_str(" };\n")
}
