//! The mnemonics, and how their instructions are written.

/// All mnemonics.
pub(crate) const MNEMONICS: [&str; 42] = [
    "NOP", "LI", "MOV", "ADD", "SUB", "MUL", "AND", "OR", "XOR", "LD", "ST", "JMP", "JEQ", "JNE",
    "JLT", "ACT", "TERM", "CHAIN", "SCHED", "GTID", "GTST", "GETR", "RELR", "LDR", "STR", "SETE",
    "CLRE", "GETE", "WAIT", "SREL", "SABS", "CANA", "GALM", "GBAS", "DAI", "EAI", "SAI", "RAI",
    "SOI", "ROI", "SHUT", "RETI",
];

/// How the instructions that have operands are written.
const FORMS: [&str; 31] = [
    "LI REGISTER, NUMBER",
    "MOV REGISTER, REGISTER",
    "ADD REGISTER, REGISTER, REGISTER",
    "SUB REGISTER, REGISTER, REGISTER",
    "MUL REGISTER, REGISTER, REGISTER",
    "AND REGISTER, REGISTER, REGISTER",
    "OR REGISTER, REGISTER, REGISTER",
    "XOR REGISTER, REGISTER, REGISTER",
    "LD REGISTER, REGISTER",
    "ST REGISTER, REGISTER",
    "JMP LABEL",
    "JEQ REGISTER, REGISTER, LABEL",
    "JNE REGISTER, REGISTER, LABEL",
    "JLT REGISTER, REGISTER, LABEL",
    "ACT TASK",
    "CHAIN TASK",
    "GTST TASK",
    "GETR RESOURCE",
    "RELR RESOURCE",
    "LDR RESOURCE, REGISTER",
    "STR RESOURCE, REGISTER, REGISTER",
    "SETE TASK, EVENT + EVENT ..",
    "CLRE EVENT + EVENT ..",
    "GETE TASK",
    "WAIT EVENT + EVENT ..",
    "SREL ALARM, REGISTER, REGISTER",
    "SABS ALARM, REGISTER, REGISTER",
    "CANA ALARM",
    "GALM ALARM",
    "GBAS ALARM",
    "SHUT NUMBER",
];

/// How an instruction with a mnemonic is written.
pub(crate) fn form(mnemonic: &str) -> &'static str {
    for form in &FORMS {
        if form.split(' ').next() == Some(mnemonic) {
            return *form;
        }
    }
    "the mnemonic alone"
}
