//! OIL: grammar and standard objects. The text of a whole file.

ghost use Rattle.std.specs.Prelude.{◌≡◌, ◌++◌, OnOk, IfOk, IsTrue};
ghost use Rattle.std.specs.String.{string_bytes};
ghost use Rattle.oil_reader.specs.Checked.{is_checked};
ghost use Rattle.oil_reader.specs.Configuration.{Configuration};
ghost use Rattle.oil_reader.specs.Faults.{Means};
ghost use Rattle.oil_printer.specs.Layout.{version_line, file_start, file_end};
ghost use Rattle.oil_printer.specs.Printed.{printed};

use crate::attributes::push_os;
use crate::printed_object::push_all;
use oil_reader::OilFile;
use osek_base::Name;
use std::alloc::{AllocError, Global};

/// The first line.
#[tactic(auto, unfolding(crate::specs::Layout::version_line))]
fn push_version(text: &mut String) -> Result<(), AllocError>
    ensures { OnOk result (string_bytes text.new ≡ string_bytes text.old ++ version_line) }
{
    text.push_str("OIL_VERSION = \"2.5\";\n")
}

/// The first lines, up to the CPU's opening brace.
#[tactic(auto, unfolding(crate::specs::Layout::file_start))]
fn open_file(text: &mut String, cpu: &Name) -> Result<(), AllocError>
    ensures { OnOk result (string_bytes text.new ≡ string_bytes text.old ++ file_start cpu.now) }
{
    push_version(text)?;
    text.push_str("CPU ")?;
    text.push_str(cpu.as_str())?;
    text.push_str(" {\n")
}

/// The CPU's closing brace.
#[tactic(auto, unfolding(crate::specs::Layout::file_end))]
fn close_file(text: &mut String) -> Result<(), AllocError>
    ensures { OnOk result (string_bytes text.new ≡ string_bytes text.old ++ file_end) }
{
    text.push_str("};\n")
}

/// Prints an OIL file (OIL 2.5: grammar, standard objects and their attributes).
///
/// Kinds stand in the order of OIL's table, objects in the order of the file, attributes a line
/// each, and numbers are decimal. The text is read as the file again. The only error is want of
/// memory.
pub fn print_oil(alloc: Global, file: &OilFile) -> Result<String, AllocError>
    ensures printed { IfOk result (λ text. string_bytes text ≡ printed file.now) }
    ensures read_again { IfOk result (λ text. Means (string_bytes text) file.now) }
{
    let mut text = String::new(alloc);
    open_file(&mut text, file.cpu())?;
    push_os(&mut text, file.os())?;
    push_all(&mut text, file.app_modes())?;
    push_all(&mut text, file.tasks())?;
    push_all(&mut text, file.routines())?;
    push_all(&mut text, file.resources())?;
    push_all(&mut text, file.events())?;
    push_all(&mut text, file.counters())?;
    push_all(&mut text, file.alarms())?;
    close_file(&mut text)?;
    Ok(text)
}

/// A law of the definitions: the printed text of a file that was checked means that file.
pub fn printed_means()
    ensures { (c : Configuration) → IsTrue (is_checked c) → Means (printed c) c }
{}
