//! Instructions and their words, counted by hand from their layout (docs/OUTPUTS.md).

use crate::three_tasks::three_tasks;
use arrayvec::ArrayString;
use machine::{pack, unpack};
use osek_base::System;
use std::test::Fail;
use task_asm::instr_text;

/// Words, each with the text of its instruction; of a word of none it is empty. Task 1 is A, task 2
/// is B; 253 is no resource, 64 no task, 8 no register and 1024 no place.
const WORDS: [(u64, &str); 33] = [
    (0x0, "NOP"),
    (0x0000_0009_0000_0101, "LI r1, 9"),
    (0x0002_0702, "MOV r7, r2"),
    (0x0402_0503, "ADD r5, r2, r4"),
    (0x0706_0508, "XOR r5, r6, r7"),
    (0x0003_0209, "LD r2, r3"),
    (0x0003_020A, "ST r2, r3"),
    (0x0000_03FF_0000_000B, "JMP 1023"),
    (0x0000_0005_0002_010C, "JEQ r1, r2, 5"),
    (0x0000_0004_0001_000E, "JLT r0, r1, 4"),
    (0xFF0F, "ACT INVALID"),
    (0x10, "TERM"),
    (0x0211, "CHAIN B"),
    (0xFE15, "GETR RES_SCHEDULER"),
    (0x0316, "RELR R3"),
    (0x0000_0001_0000_0117, "SETE A, 0x00000001"),
    (0x8000_0000_0000_0018, "CLRE 0x80000000"),
    (0x0302_FF1B, "SREL INVALID, r2, r3"),
    (0x0100_FF1C, "SABS INVALID, r0, r1"),
    (0xFF1F, "GBAS INVALID"),
    (0x20, "DAI"),
    (0x25, "ROI"),
    (0x0000_0009_0000_0026, "SHUT 9"),
    (0x27, "RETI"),
    (0x28, "LDR R0, r0"),
    (0x0201_0329, "STR R3, r1, r2"),
    (0x0000_0001_0000_0000, ""),
    (0x2A, ""),
    (0x0801, ""),
    (0x400F, ""),
    (0xFD15, ""),
    (0x0000_0400_0000_000B, ""),
    (0xFFFF_FFFF_FFFF_FFFF, ""),
];

/// Whether a word has the instruction of that text, and that has the word; at an empty text, whether
/// it has none.
fn is_word_of(system: &System, word: u64, wanted: &str) -> bool {
    match unpack(word) {
        None => wanted.is_empty(),
        Some(instr) => {
            let mut text = ArrayString::new();
            instr_text(&instr, system.names(), &mut text);
            pack(&instr) == word && text.as_str() == wanted
        }
    }
}

/// The first word of the table that isn't the one of its text.
fn first_wrong(system: &System) -> Option<u64> {
    for (word, wanted) in &WORDS {
        if !is_word_of(system, *word, *wanted) {
            return Some(*word);
        }
    }
    None
}

#[test]
fn words_of_instructions(rt: HostRuntime) -> Result<(), Fail> {
    let system = three_tasks(rt.alloc())?;
    assert_eq!(rt; first_wrong(&system), None);
    Ok(())
}
