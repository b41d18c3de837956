//! The modelled processor: what is known of values. None is a value that isn't known.

ghost use Rattle.std.specs.Prelude.{◌≡◌};
ghost use Rattle.osek_base.specs.Instruction.{holds, operate};
ghost use Rattle.law_nodes.specs.Values.{know_no_more, known, knows_no_more, of_known};

use osek_base::{Comparison, Operation, REGISTERS, Register};

/// The values of the registers, as far as they are known.
pub(crate) type Registers = [Option<u32>; REGISTERS];

/// The value of a register.
pub(crate) fn known(registers: &Registers, register: Register) -> Option<u32>
    ensures { result ≡ known registers.now register }
{
    registers[register.number() as usize]
}

/// Sums, differences and products of 32 bits wrap.
fn operate(operation: Operation, a: u32, b: u32) -> u32
    ensures { result ≡ operate operation a b }
{
    match operation {
        Operation::Add => a.wrapping_add(b),
        Operation::Sub => a.wrapping_sub(b),
        Operation::Mul => a.wrapping_mul(b),
        Operation::And => a & b,
        Operation::Or => a | b,
        Operation::Xor => a ^ b,
    }
}

/// Whether a jump is taken.
fn holds(test: Comparison, a: u32, b: u32) -> bool
    ensures { result ≡ holds test a b }
{
    match test {
        Comparison::Equal => a == b,
        Comparison::NotEqual => a != b,
        Comparison::Less => a < b,
    }
}

/// What an operation comes to.
pub(crate) fn computed(operation: Operation, a: Option<u32>, b: Option<u32>) -> Option<u32>
    ensures { result ≡ of_known (operate operation) a b }
{
    match a {
        None => None,
        Some(a) => match b {
            None => None,
            Some(b) => Some(operate(operation, a, b)),
        },
    }
}

/// Whether a jump is taken, as far as it is known.
pub(crate) fn decided(test: Comparison, a: Option<u32>, b: Option<u32>) -> Option<bool>
    ensures { result ≡ of_known (holds test) a b }
{
    match a {
        None => None,
        Some(a) => match b {
            None => None,
            Some(b) => Some(holds(test, a, b)),
        },
    }
}

/// Whether the first is the second, or isn't known.
pub(crate) fn knows_no_more(a: Option<u32>, b: Option<u32>) -> bool
    ensures { result ≡ knows_no_more a b }
{
    match a {
        None => true,
        Some(a) => match b {
            None => false,
            Some(b) => a == b,
        },
    }
}

/// The same of some registers, one by one.
pub(crate) fn know_no_more(few: &[Option<u32>], more: &[Option<u32>]) -> bool
    ensures { result ≡ know_no_more few.now more.now }
{
    match few.split_first() {
        None => more.is_empty(),
        Some((first, rest)) => match more.split_first() {
            None => false,
            Some((other, others)) => {
                if knows_no_more(*first, *other) {
                    know_no_more(rest, others)
                } else {
                    false
                }
            }
        },
    }
}
