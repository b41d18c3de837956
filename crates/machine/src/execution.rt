//! The plain instructions.

ghost use Rattle.std.specs.Prelude.{◌≡◌, ◌<◌, ◌+◌, ◌%◌, ℕ, true};
ghost use Rattle.osek_base.specs.declared.ids.Owner.{Owner};
ghost use Rattle.osek_base.specs.Instruction.{plain, sets, operate, holds};
ghost use Rattle.osek_base.specs.State.{words_after};
ghost use Rattle.machine.specs.Windows.{word};
ghost use Rattle.machine.specs.Execution.{HasNext};
ghost use Rattle.machine.specs.Packed.{instr_of, is_plain, plain_of};

use crate::cpu::Cpu;
use crate::packed_instr::PackedInstr;
use crate::windows::Windows;
use osek_base::{
    Comparison, Effect, MAX_INSTRUCTIONS, Operation, Owner, Plain, Register, WINDOW_WORDS,
};

/// Executes a plain instruction of an owner. A load reads one word of the owner's own window, a store writes one, at the
/// address modulo
/// the words of a window; no other word is touched. Sums, differences and products wrap. At the last place only a jump may
/// stand.
#[inline(always)]
pub fn exec_plain(cpu: &mut Cpu, windows: &mut Windows, owner: Owner, instruction: &Plain) -> Effect
    requires { HasNext instruction.now cpu.old }
    ensures effect { result ≡ (plain instruction.now cpu.old (word windows.old owner)).effect }
    ensures context { cpu.new ≡ (plain instruction.now cpu.old (word windows.old owner)).context }
    ensures words { (o : Owner) (i : ℕ)
        → word windows.new o i ≡ words_after (word windows.old) owner result o i }
{
    match *instruction {
        Plain::Nop => {
            cpu.go_on();
            Effect::Nothing
        }
        Plain::Li(to, number) => set(cpu, to, number),
        Plain::Mov(to, from) => set(cpu, to, cpu.value(from)),
        Plain::Compute(operation, to, a, b) => {
            set(cpu, to, compute(operation, cpu.value(a), cpu.value(b)))
        }
        Plain::Ld(to, address) => set(cpu, to, windows.word(owner, index_of(cpu.value(address)))),
        Plain::St(address, from) => {
            let index = index_of(cpu.value(address));
            let stored = cpu.value(from);
            windows.store(owner, index, stored);
            cpu.go_on();
            Effect::Stored(index, stored)
        }
        Plain::Jmp(to) => {
            cpu.jump(to);
            Effect::Nothing
        }
        Plain::JumpIf(test, a, b, to) => {
            if compare(test, cpu.value(a), cpu.value(b)) {
                cpu.jump(to);
            } else {
                cpu.go_on();
            }
            Effect::Nothing
        }
    }
}

/// Executes the plain instruction of a word, as [`exec_plain`].
#[inline(always)]
pub fn exec_packed(
    cpu: &mut Cpu,
    windows: &mut Windows,
    owner: Owner,
    packed: PackedInstr,
) -> Effect
    requires plain { is_plain (instr_of packed) ≡ true }
    requires next { HasNext (plain_of (instr_of packed)) cpu.old }
    ensures effect { result
        ≡ (plain (plain_of (instr_of packed)) cpu.old (word windows.old owner)).effect }
    ensures context { cpu.new
        ≡ (plain (plain_of (instr_of packed)) cpu.old (word windows.old owner)).context }
    ensures words { (o : Owner) (i : ℕ)
        → word windows.new o i ≡ words_after (word windows.old) owner result o i }
{
    exec_plain(cpu, windows, owner, &packed.plain())
}

/// Gives a register a value, which is shown, and goes on.
#[inline(always)]
fn set(cpu: &mut Cpu, to: Register, new: u32) -> Effect
    requires { cpu.old.place + 1 < MAX_INSTRUCTIONS }
    ensures effect { result ≡ (sets cpu.old to new).effect }
    ensures context { cpu.new ≡ (sets cpu.old to new).context }
{
    cpu.set(to, new);
    cpu.go_on();
    Effect::Value(new)
}

/// The index that an address means in a window.
#[inline(always)]
fn index_of(address: u32) -> u8
    ensures value { result ≡ address % WINDOW_WORDS }
    ensures low { result < WINDOW_WORDS }
{
    (address % WINDOW_WORDS as u32) as u8
}

/// Sums, differences and products of 32 bits wrap.
#[inline(always)]
fn compute(operation: Operation, a: u32, b: u32) -> u32
    ensures { result ≡ operate operation a b }
{
    match operation {
        Operation::Add => a.wrapping_add(b),
        Operation::Sub => a.wrapping_sub(b),
        Operation::Mul => a.wrapping_mul(b),
        Operation::And => a & b,
        Operation::Or => a | b,
        Operation::Xor => a ^ b,
    }
}

/// Whether a jump is taken.
#[inline(always)]
fn compare(test: Comparison, a: u32, b: u32) -> bool
    ensures { result ≡ holds test a b }
{
    match test {
        Comparison::Equal => a == b,
        Comparison::NotEqual => a != b,
        Comparison::Less => a < b,
    }
}
