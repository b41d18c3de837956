//! Passes over the programs, each of which adds to a table what their instructions ask for.

ghost use Rattle.std.specs.Prelude.{◌<◌};
ghost use Rattle.osek_base.specs.declared.limits.TheConstants.{MAX_INSTRUCTIONS};

use crate::closed::{routine_lines, task_lines};
use crate::counters::add_all_asked;
use crate::data::declared;
use crate::indices::indices_at;
use crate::numbers::Numbers;
use crate::table::{Needs, OwnerNeeds, Row};
use osek_base::{
    Instr, Line, MAX_INSTRUCTIONS, Plain, REGISTERS, Register, ResId, Service, System, WINDOW_WORDS,
};

fn needs(own: &OwnerNeeds, register: Register) -> bool {
    own.registers.has(register.number())
}

fn add(own: &mut OwnerNeeds, register: Register) {
    own.registers.add(register.number());
}

fn add_both(own: &mut OwnerNeeds, a: Register, b: Register) {
    add(own, a);
    add(own, b);
}

/// The indices that a register may have at a place; none where the list has no such place.
fn known_indices(rows: &[Row], place: usize, register: Register) -> Numbers {
    if rows.len() <= place {
        return Numbers::below(0);
    }
    indices_at(rows, place, register)
}

/// A register may have more indices at a place.
fn widen(rows: &mut [Row], place: usize, register: Register, more: Numbers) {
    if place < rows.len() {
        rows[place][register.number() as usize].add_all(more);
    }
}

/// What register `a` may have at a place, `d` may have at `to`.
fn pass_on(rows: &mut [Row], place: usize, a: Register, to: usize, d: Register) {
    let more = known_indices(rows, place, a);
    widen(rows, to, d, more);
}

fn pass_all(rows: &mut [Row], place: usize, to: usize) {
    for number in 0..REGISTERS {
        let register = Register::new(number as u8);
        pass_on(rows, place, register, to, register);
    }
}

fn pass_others(rows: &mut [Row], place: usize, but: Register)
    requires { place < MAX_INSTRUCTIONS }
{
    for number in 0..REGISTERS {
        let register = Register::new(number as u8);
        if register.number() != but.number() {
            pass_on(rows, place, register, place + 1, register);
        }
    }
}

fn add_plain_indices(rows: &mut [Row], place: usize, plain: &Plain)
    requires { place < MAX_INSTRUCTIONS }
{
    match plain {
        Plain::Li(d, number) => {
            pass_others(rows, place, *d);
            let index = (number % WINDOW_WORDS as u32) as u8;
            let mut more = Numbers::below(0);
            more.add(index);
            widen(rows, place + 1, *d, more);
        }
        Plain::Mov(d, a) => {
            pass_others(rows, place, *d);
            pass_on(rows, place, *a, place + 1, *d);
        }
        Plain::Compute(_, d, _, _) => add_result(rows, place, *d),
        Plain::Ld(d, _) => add_result(rows, place, *d),
        Plain::Jmp(to) => pass_all(rows, place, to.number() as usize),
        Plain::JumpIf(_, _, _, to) => {
            pass_all(rows, place, place + 1);
            pass_all(rows, place, to.number() as usize);
        }
        Plain::Nop => pass_all(rows, place, place + 1),
        Plain::St(_, _) => pass_all(rows, place, place + 1),
    }
}

fn add_result(rows: &mut [Row], place: usize, d: Register)
    requires { place < MAX_INSTRUCTIONS }
{
    pass_others(rows, place, d);
    widen(rows, place + 1, d, Numbers::below(WINDOW_WORDS));
}

fn add_answers(rows: &mut [Row], place: usize)
    requires { place < MAX_INSTRUCTIONS }
{
    pass_all(rows, place, place + 1);
    for number in 0..4 {
        widen(
            rows,
            place + 1,
            Register::new(number),
            Numbers::below(WINDOW_WORDS),
        );
    }
}

fn add_load(own: &mut OwnerNeeds, place: usize, d: Register, a: Register) {
    if needs(own, d) {
        add(own, a);
        own.words.add_all(known_indices(&own.indices, place, a));
    }
}

fn add_store(own: &mut OwnerNeeds, place: usize, a: Register, b: Register) {
    if own.words.is_empty() {
        return;
    }
    add(own, a);
    if !known_indices(&own.indices, place, a).is_apart(own.words) {
        add(own, b);
    }
}

fn add_plain_data(own: &mut OwnerNeeds, place: usize, plain: &Plain) {
    match plain {
        Plain::Mov(d, a) => {
            if needs(own, *d) {
                add(own, *a);
            }
        }
        Plain::Compute(_, d, a, b) => {
            if needs(own, *d) {
                add_both(own, *a, *b);
            }
        }
        Plain::Ld(d, a) => add_load(own, place, *d, *a),
        Plain::St(a, b) => add_store(own, place, *a, *b),
        Plain::JumpIf(_, a, b, _) => add_both(own, *a, *b),
        _ => {}
    }
}

fn add_shared_load(
    own: &mut OwnerNeeds,
    shared: &mut Numbers,
    operand: &Option<ResId>,
    index: Register,
) {
    if let Some(number) = declared(operand) {
        if needs(own, Register::new(1)) {
            add(own, index);
            shared.add(number.number());
        }
    }
}

fn add_shared_store(
    own: &mut OwnerNeeds,
    shared: Numbers,
    operand: &Option<ResId>,
    index: Register,
    value: Register,
) {
    if let Some(number) = declared(operand) {
        if shared.has(number.number()) {
            add_both(own, index, value);
        }
    }
}

fn add_service(own: &mut OwnerNeeds, shared: &mut Numbers, service: &Service<Register>) {
    match service {
        Service::SetRelAlarm(_, a, b) => add_both(own, *a, *b),
        Service::SetAbsAlarm(_, a, b) => add_both(own, *a, *b),
        Service::LoadShared(operand, index) => add_shared_load(own, shared, operand, *index),
        Service::StoreShared(operand, index, value) => {
            add_shared_store(own, *shared, operand, *index, *value)
        }
        _ => {}
    }
}

/// What an instruction asks for.
fn add_instr(own: &mut OwnerNeeds, shared: &mut Numbers, place: usize, instr: &Instr)
    requires { place < MAX_INSTRUCTIONS }
{
    match instr {
        Instr::Plain(plain) => {
            add_plain_data(own, place, plain);
            add_plain_indices(&mut own.indices, place, plain);
        }
        Instr::Service(service) => {
            add_service(own, shared, service);
            add_answers(&mut own.indices, place);
        }
        Instr::Control(_) => pass_all(&mut own.indices, place, place + 1),
    }
}

pub(crate) fn add_program(own: &mut OwnerNeeds, shared: &mut Numbers, lines: &[Line]) {
    for place in 0..lines.len().min(MAX_INSTRUCTIONS) {
        let line = &lines[place];
        add_instr(own, shared, place, line.instr());
    }
}

/// What a program asks for, in the entry of that number.
fn add_entry(owners: &mut [OwnerNeeds], number: usize, shared: &mut Numbers, lines: &[Line]) {
    if number < owners.len() {
        add_program(&mut owners[number], shared, lines);
    }
}

/// One pass over all programs.
pub(crate) fn add_all(system: &System, needs: &mut Needs) {
    add_all_asked(system, &mut needs.counters);
    for number in 0..system.task_count() {
        let lines = task_lines(system, number);
        add_entry(&mut needs.tasks, number, &mut needs.shared, lines);
    }
    for number in 0..system.routine_count() {
        let lines = routine_lines(system, number);
        add_entry(&mut needs.routines, number, &mut needs.shared, lines);
    }
}
