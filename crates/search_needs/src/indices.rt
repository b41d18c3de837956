//! Whether registers may have, where an instruction leads, what it leaves in them.

ghost use Rattle.std.specs.Prelude.{ℕ, ◌≡◌, ◌+◌, ◌<◌, ◌≢◌, IsTrue, length};
ghost use Rattle.osek_base.specs.declared.instr.Plain.{Plain};
ghost use Rattle.law_future.specs.Need.{MayHoldAll, Passes, PassesBut, IndicesFollow};
ghost use Rattle.search_needs.specs.Table.{has, allows};

use crate::numbers::Numbers;
use crate::table::Row;
use osek_base::{Plain, REGISTERS, Register, WINDOW_WORDS};

/// The indices that a register may have at a place.
pub(crate) fn indices_at(rows: &[Row], place: usize, register: Register) -> Numbers
    requires { place < length rows.now }
    ensures { (i : ℕ) → allows rows.now place register i ≡ has result i }
{
    let row = &rows[place];
    row[register.number() as usize]
}

/// Whether what register `a` may have at a place, `d` may have at `to`.
fn passes(rows: &[Row], place: usize, a: Register, to: usize, d: Register) -> bool
    requires { place < length rows.now }
    ensures { IsTrue result → (i : ℕ) → IsTrue (allows rows.now place a i)
        → IsTrue (allows rows.now to d i) }
{
    if rows.len() <= to {
        return true;
    }
    indices_at(rows, place, a).is_within(indices_at(rows, to, d))
}

/// Whether a register may have an index at a place.
pub(crate) fn may_hold(rows: &[Row], place: usize, register: Register, index: u8) -> bool
    requires { index < 64 }
    ensures { IsTrue result → IsTrue (allows rows.now place register index) }
{
    if rows.len() <= place {
        return true;
    }
    indices_at(rows, place, register).has(index)
}

/// Whether a register may have each index at a place.
fn may_hold_all(rows: &[Row], place: usize, register: Register) -> bool
    ensures { IsTrue result → MayHoldAll (allows rows.now place) register }
{
    if rows.len() <= place {
        return true;
    }
    Numbers::below(WINDOW_WORDS).is_within(indices_at(rows, place, register))
}

/// Whether what registers may have at a place, they may have at `to`.
pub(crate) fn all_pass(rows: &[Row], place: usize, to: usize) -> bool
    requires { place < length rows.now }
    ensures { IsTrue result → Passes (allows rows.now place) (allows rows.now to) }
{
    for number in 0..REGISTERS {
        let register = Register::new(number as u8);
        if !passes(rows, place, register, to, register) {
            return false;
        }
    }
    true
}

/// Whether what all registers but one may have at a place, they may have at the next.
fn others_pass(rows: &[Row], place: usize, but: Register) -> bool
    requires { place < length rows.now }
    ensures { IsTrue result → PassesBut but (allows rows.now place) (allows rows.now (place + 1)) }
{
    for number in 0..REGISTERS {
        let register = Register::new(number as u8);
        if !passes_unless(rows, place, register, but) {
            return false;
        }
    }
    true
}

/// Whether what a register may have at a place, it may have at the next, or is another one.
fn passes_unless(rows: &[Row], place: usize, register: Register, but: Register) -> bool
    requires { place < length rows.now }
    ensures { IsTrue result → register ≢ but → (i : ℕ) → IsTrue (allows rows.now place register i)
        → IsTrue (allows rows.now (place + 1) register i) }
{
    if register.number() == but.number() {
        return true;
    }
    passes(rows, place, register, place + 1, register)
}

fn number_follows(rows: &[Row], place: usize, d: Register, number: u32) -> bool
    requires { place < length rows.now }
    ensures { IsTrue result → IndicesFollow (allows rows.now) place (Plain.Li d number) }
{
    if !others_pass(rows, place, d) {
        return false;
    }
    may_hold(rows, place + 1, d, (number % WINDOW_WORDS as u32) as u8)
}

fn copy_follows(rows: &[Row], place: usize, d: Register, a: Register) -> bool
    requires { place < length rows.now }
    ensures { IsTrue result → IndicesFollow (allows rows.now) place (Plain.Mov d a) }
{
    if !others_pass(rows, place, d) {
        return false;
    }
    passes(rows, place, a, place + 1, d)
}

fn result_follows(rows: &[Row], place: usize, d: Register) -> bool
    requires { place < length rows.now }
    ensures others { IsTrue result
        → PassesBut d (allows rows.now place) (allows rows.now (place + 1)) }
    ensures all { IsTrue result → MayHoldAll (allows rows.now (place + 1)) d }
{
    if !others_pass(rows, place, d) {
        return false;
    }
    may_hold_all(rows, place + 1, d)
}

fn jump_follows(rows: &[Row], place: usize, to: usize) -> bool
    requires { place < length rows.now }
    ensures next { IsTrue result → Passes (allows rows.now place) (allows rows.now (place + 1)) }
    ensures to { IsTrue result → Passes (allows rows.now place) (allows rows.now to) }
{
    if !all_pass(rows, place, place + 1) {
        return false;
    }
    all_pass(rows, place, to)
}

/// Whether a plain instruction's indices follow; at true they do.
pub(crate) fn indices_follow(rows: &[Row], place: usize, plain: &Plain) -> bool
    requires { place < length rows.now }
    ensures { IsTrue result → IndicesFollow (allows rows.now) place plain.now }
{
    match plain {
        Plain::Li(d, number) => number_follows(rows, place, *d, *number),
        Plain::Mov(d, a) => copy_follows(rows, place, *d, *a),
        Plain::Compute(_, d, _, _) => result_follows(rows, place, *d),
        Plain::Ld(d, _) => result_follows(rows, place, *d),
        Plain::Jmp(to) => all_pass(rows, place, to.number() as usize),
        Plain::JumpIf(_, _, _, to) => jump_follows(rows, place, to.number() as usize),
        Plain::Nop => all_pass(rows, place, place + 1),
        Plain::St(_, _) => all_pass(rows, place, place + 1),
    }
}

/// Whether a service may leave each index in r0 to r3, and passes the other registers on.
pub(crate) fn answers_follow(rows: &[Row], place: usize) -> bool
    requires { place < length rows.now }
    ensures passes { IsTrue result → Passes (allows rows.now place) (allows rows.now (place + 1)) }
    ensures all { IsTrue result → (r : ℕ) → r < 4 → MayHoldAll (allows rows.now (place + 1)) r }
{
    for number in 0..4 {
        if !may_hold_all(rows, place + 1, Register::new(number)) {
            return false;
        }
    }
    all_pass(rows, place, place + 1)
}
