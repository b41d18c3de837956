//! The text of a list of arrivals.

ghost use Rattle.std.specs.Prelude.{◌≡◌, ◌++◌, ◌⊎◌, ℕ, List, Some, IfOk, IfErr, OnOk, length};
ghost use Rattle.std.specs.String.{string_bytes};
ghost use Rattle.osek_base.specs.Names.{name_at};
ghost use Rattle.arrival_reader.specs.ArrivalText.{IsArrivalList, is_name};
ghost use Rattle.arrival_reader.specs.PrintedArrivals.{printed_line, printed_list, first_unnamed};
ghost use Rattle.arrival_reader.specs.declared.irq_fault.IrqFault.{IrqFault};

use crate::arrival_line::is_name;
use crate::irq_fault::IrqFault;
use itoa::Buffer;
use osek_base::{Arrival, Arrivals, IsrId, Name, System};
use std::alloc::{AllocError, Global};

/// The name of a routine, empty where there is none.
fn routine_name(routines: &[Name], routine: IsrId) -> &str
    ensures { result.now ≡ name_at routines.now routine }
{
    match routines.get(routine.number() as usize) {
        Some(name) => name.as_str(),
        None => "",
    }
}

/// Whether a line can have the routine's name.
fn has_name(routines: &[Name], routine: IsrId) -> bool
    ensures { result ≡ is_name (name_at routines.now routine) }
{
    is_name(routine_name(routines, routine).as_bytes())
}

/// The first line, counted from 1, that would be of a routine without a NAME.
fn first_unnamed(routines: &[Name], arrivals: &[Arrival]) -> Option<usize>
    ensures { result ≡ first_unnamed routines.now 1 arrivals.now }
{
    'arrivals: for (i, arrival) in arrivals.iter().enumerate() {
        if !has_name(routines, arrival.routine) {
            return Some(i + 1);
        }
    }
    None
}

#[tactic(auto, unfolding(crate::specs::PrintedArrivals::printed_line))]
fn push_line(text: &mut String, routines: &[Name], arrival: Arrival) -> Result<(), AllocError>
    ensures { OnOk result
        (string_bytes text.new ≡ string_bytes text.old ++ printed_line routines.now arrival) }
{
    let mut buffer = Buffer::new();
    text.push_str(buffer.format(arrival.tick))?;
    text.push_str(" ")?;
    text.push_str(routine_name(routines, arrival.routine))?;
    text.push_str("\n")
}

fn push_lines(text: &mut String, routines: &[Name], list: &[Arrival]) -> Result<(), AllocError>
    ensures { OnOk result
        (string_bytes text.new ≡ string_bytes text.old ++ printed_list routines.now list.now) }
{
    for arrival in list {
        push_line(text, routines, *arrival)?;
    }
    Ok(())
}

/// Prints a list of arrivals: a line each, its tick, a space and the name of its routine.
///
/// The text is read as the same list again. An error is want of memory, or `UnknownIsr` with the
/// first line, counted from 1, whose routine has no name that a line can have.
pub fn print_arrivals(
    alloc: Global,
    system: &System,
    arrivals: &Arrivals,
) -> Result<String, IrqFault>
    ensures printed { IfOk result
        (λ text. string_bytes text ≡ printed_list system.now.names.routines arrivals.now) }
    ensures read_again { IfOk result
        (λ text. IsArrivalList system.now.names (string_bytes text) arrivals.now) }
    ensures fault { IfErr result (λ fault. (fault ≡ IrqFault.Memory)
        ⊎ ((n : ℕ) × (first_unnamed system.now.names.routines 1 arrivals.now ≡ Some n)
        × (fault ≡ IrqFault.UnknownIsr n))) }
{
    let names = system.names();
    let routines = names.routines.as_slice();
    let list = arrivals.list();
    if let Some(line) = first_unnamed(routines, list) {
        return Err(IrqFault::UnknownIsr(line));
    }
    let mut text = String::new(alloc);
    push_lines(&mut text, routines, list)?;
    Ok(text)
}
