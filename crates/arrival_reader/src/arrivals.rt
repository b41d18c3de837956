//! Arrival lists: when the interrupts of routines arrive.

ghost use Rattle.std.specs.Prelude.{◌≡◌, ◌<◌, ◌⊎◌, ℕ, List, IfOk, IfErr, OnOk, [], ◌∷◌, ◌++◌, length};
ghost use Rattle.std.specs.List.{All};
ghost use Rattle.osek_base.specs.Names.{Names};
ghost use Rattle.osek_base.specs.declared.arrivals.Arrival.{Arrival};
ghost use Rattle.arrival_reader.specs.declared.irq_fault.IrqFault.{IrqFault};
ghost use Rattle.arrival_reader.specs.ArrivalText.{lines_of, IsArrivalList, IsFirstFault};

use crate::arrival_line::{place_of, read_line};
use crate::irq_fault::IrqFault;
use osek_base::{Arrival, Arrivals, System};
use std::alloc::{AllocError, Global};

/// The first line of a text, and what follows its end.
fn first_line(text: &[u8]) -> (&[u8], &[u8])
    requires { 0 < length text.now }
    ensures lines { lines_of text.now ≡ result.0.now ∷ lines_of result.1.now }
    ensures shorter { length result.1.now < length text.now }
{
    match place_of(b'\n', text) {
        Some(end) => (&text[..end], &text[end + 1..]),
        None => (text, &text[text.len()..]),
    }
}

fn push_arrival(list: &mut Vec<Arrival>, arrival: Arrival) -> Result<(), AllocError>
    ensures { OnOk result (list.new.items ≡ list.old.items ++ arrival ∷ []) }
{
    list.push(arrival)?;
    Ok(())
}

/// Reads an arrival list: on each line a tick in decimal without leading zeros, one space and a
/// routine's name. Lines end with LF, which the last may lack. Ticks don't fall from line to line.
pub fn read_arrivals(alloc: Global, text: &[u8], system: &System) -> Result<Arrivals, IrqFault>
    ensures read { IfOk result (λ arrivals. IsArrivalList system.now.names text.now arrivals) }
    ensures known { IfOk result
        (λ arrivals. All (λ a. a.routine < length system.now.routines) arrivals) }
    ensures fault { IfErr result
        (λ fault. (fault ≡ IrqFault.Memory) ⊎ IsFirstFault system.now.names text.now fault) }
{
    let names = system.names();
    let mut list = Vec::new(alloc);
    let mut rest = text;
    let mut number = 0;
    let mut before = 0;
    'lines: while !rest.is_empty() {
        let (line, after) = first_line(rest);
        number += 1;
        let arrival = read_line(names, number, before, line)?;
        before = arrival.tick;
        rest = after;
        push_arrival(&mut list, arrival)?;
    }
    Ok(Arrivals::new(list).unwrap())
}

/// A law of the definitions: a text is one arrival list, or has one first fault, and never both.
/// Want of memory is no fault of a text.
pub fn one_meaning()
    ensures lists { (names : Names) (text : List ℕ) (all other : List Arrival)
        → IsArrivalList names text all → IsArrivalList names text other → all ≡ other }
    ensures faults { (names : Names) (text : List ℕ) (e f : IrqFault) → IsFirstFault names text e
        → IsFirstFault names text f → e ≡ f }
    ensures apart { (names : Names) (text : List ℕ) (all : List Arrival) (e : IrqFault)
        → IsArrivalList names text all → IsFirstFault names text e → ⊥ }
{}
