//! Faults of a program text.

use crate::mnemonics::{MNEMONICS, form};
use crate::notes::{write_choice, write_names, write_nearest};
use crate::oil_texts::explain_run;
use crate::pieces::Piece::{self, Text};
use crate::source::Source;
use crate::unseen::mark_at;
use crate::words::{CodeWord, Part, code_words};
use std::alloc::{AllocError, Global};
use std::io::{self, Write};
use task_asm::{AsmFault, Placed, Token, tokenize};

/// The word at a place.
fn word_at<'a>(words: &[CodeWord<'a>], place: usize) -> Option<CodeWord<'a>> {
    for word in words {
        if word.place == place {
            return Some(*word);
        }
    }
    None
}

/// Explains a fault of the tokens.
fn explain_token<W: Write>(source: Source<'_>, place: usize, out: &mut W) -> io::Result<()> {
    if !source.word(place).is_empty() {
        return explain_run(source, place, out);
    }
    let what = [Text(mark_at(source.from(place)).unwrap_or("no token begins here"))];
    let allowed = ".task .isr, words, numbers, the signs , : + and comments behind ;";
    source.note_bytes(place, 1, &what, "allowed", &[Text(allowed)], out)
}

/// Explains a token that begins no instruction.
fn explain_mnemonic<W: Write>(
    alloc: Global,
    source: Source<'_>,
    words: &[CodeWord<'_>],
    place: usize,
    out: &mut W,
) -> io::Result<()> {
    let Some(word) = word_at(words, place) else {
        let wanted = Text("a label and :, a mnemonic, .task or .isr");
        return source.note(
            place,
            &[Text("no instruction begins so")],
            "wanted",
            &[wanted],
            out,
        );
    };
    if word.program == 0 {
        let wanted = Text(".task TASK or .isr ISR");
        return source.note(
            place,
            &[Text("no program has begun")],
            "wanted",
            &[wanted],
            out,
        );
    }
    source.tell(
        place,
        &[Text("there is no instruction "), Text(word.text)],
        out,
    )?;
    write_names("allowed", &MNEMONICS, out)?;
    write_nearest(alloc, word.text, &MNEMONICS, out)
}

/// Whether a directive stands at a place.
fn is_directive(tokens: &[Placed<'_>], place: usize) -> bool {
    for placed in tokens {
        if placed.place == place {
            return matches!(placed.token, Token::Directive(_));
        }
    }
    false
}

/// The hint at a name where a number is loaded.
const NAMED_EVENTS: &[u8] =
    b" hint: SETE, CLRE and WAIT take names of events; LI takes a mask, which osek show tells\n";

/// Whether a word is a register.
fn is_register(word: &str) -> bool {
    matches!(word, "r0" | "r1" | "r2" | "r3" | "r4" | "r5" | "r6" | "r7")
}

/// Whether the second operand of the instruction at a place is a name.
fn is_second_named(words: &[CodeWord<'_>], place: usize) -> bool {
    for word in words {
        if word.place <= place {
            continue;
        }
        let Part::Operand { number, .. } = word.part else {
            return false;
        };
        if number == 1 {
            return !is_register(word.text);
        }
    }
    false
}

/// Explains an instruction or directive whose operands are wrong.
fn explain_operand<W: Write>(
    source: Source<'_>,
    tokens: &[Placed<'_>],
    words: &[CodeWord<'_>],
    place: usize,
    out: &mut W,
) -> io::Result<()> {
    if is_directive(tokens, place) {
        let what = [Text("the line doesn't go on with one name")];
        let wanted = Text(".task TASK or .isr ISR");
        return source.note_bytes(place, 1, &what, "wanted", &[wanted], out);
    }
    let word = source.word(place);
    let what = [
        Text("the line doesn't go on with the operands of "),
        Text(word),
    ];
    source.note(place, &what, "wanted", &[Text(form(word))], out)?;
    if word == "LI" && is_second_named(words, place) {
        out.write_all(NAMED_EVENTS)?;
    }
    Ok(())
}

/// The labels of a program.
fn labels<'a>(
    alloc: Global,
    words: &[CodeWord<'a>],
    program: usize,
) -> Result<Vec<&'a str>, AllocError> {
    let mut found = Vec::new(alloc);
    for word in words {
        if word.part == Part::Label && word.program == program {
            found.push(word.text)?;
        }
    }
    Ok(found)
}

/// Explains a label that isn't there, or that no instruction follows.
fn explain_label<W: Write>(
    alloc: Global,
    source: Source<'_>,
    words: &[CodeWord<'_>],
    place: usize,
    out: &mut W,
) -> io::Result<()> {
    let Some(word) = word_at(words, place) else {
        return Ok(());
    };
    let label = word.text;
    if word.part == Part::Label {
        let what = [
            Text("no instruction of its program follows the label "),
            Text(label),
        ];
        let wanted = Text("an instruction behind it");
        return source.note(place, &what, "wanted", &[wanted], out);
    }
    source.tell(
        place,
        &[Text("the program has no label "), Text(label)],
        out,
    )?;
    write_choice(alloc, label, &labels(alloc, words, word.program)?, out)
}

/// The place of the first word that has the text and the part of another; of a label only in its
/// program.
fn first_place(words: &[CodeWord<'_>], second: CodeWord<'_>) -> usize {
    let is_label = second.part == Part::Label;
    for word in words {
        let is_near = !is_label || word.program == second.program;
        if is_near && word.text == second.text && word.part == second.part {
            return word.place;
        }
    }
    second.place
}

/// Explains a label or program that stands a second time.
fn explain_twice<W: Write>(
    source: Source<'_>,
    words: &[CodeWord<'_>],
    place: usize,
    out: &mut W,
) -> io::Result<()> {
    let Some(second) = word_at(words, place) else {
        return Ok(());
    };
    let name = Text(second.text);
    let what: [Piece<'_>; 3] = match second.part {
        Part::Label => [Text("a second label "), name, Text(" in its program")],
        _ => [Text("a second program of "), name, Text("")],
    };
    source.tell_second(place, &what, first_place(words, second), out)
}

fn explain_length<W: Write>(source: Source<'_>, place: usize, out: &mut W) -> io::Result<()> {
    let what = [Text("the program is too long")];
    source.note(place, &what, "allowed", &[Text("1024 instructions")], out)
}

/// Explains why a text holds no programs. Want of memory has no explanation. An error is a failed
/// write, or want of memory for the explanation.
pub fn explain_programs<W: Write>(
    alloc: Global,
    source: Source<'_>,
    fault: &AsmFault,
    out: &mut W,
) -> io::Result<()> {
    if let AsmFault::Token(place) = *fault {
        return explain_token(source, place, out);
    }
    let Ok(tokens) = tokenize(alloc, source.text) else {
        return Ok(());
    };
    let words = code_words(alloc, &tokens)?;
    match *fault {
        AsmFault::UnknownMnemonic(place) => explain_mnemonic(alloc, source, &words, place, out),
        AsmFault::Operand(place) => explain_operand(source, &tokens, &words, place, out),
        AsmFault::UnknownLabel(place) => explain_label(alloc, source, &words, place, out),
        AsmFault::Twice(place) => explain_twice(source, &words, place, out),
        AsmFault::TooLong(place) => explain_length(source, place, out),
        AsmFault::Token(_) | AsmFault::Memory => Ok(()),
    }
}
