//! The words of a program text, each with the part that it plays.

use std::alloc::{AllocError, Global};
use task_asm::{Placed, ProgramKind, Sign, Token};

/// What a word of a program text is.
#[derive(Clone, Copy, PartialEq, Eq)]
pub enum Part<'a> {
    /// The name behind `.task` or `.isr`.
    Owner(ProgramKind),
    Label,
    Mnemonic,
    /// Behind a mnemonic, so many words behind it: 0 is the first.
    Operand { mnemonic: &'a str, number: usize },
}

/// A word of a program text.
#[derive(Clone, Copy)]
pub struct CodeWord<'a> {
    pub text: &'a str,
    pub place: usize,
    pub part: Part<'a>,
    /// How many directives stand before it: 0 before the first.
    pub program: usize,
}

/// What is seen up to a token.
#[derive(Clone, Copy)]
struct BeforeToken<'a> {
    /// What the next word is, where it is no label.
    next: Part<'a>,
    /// How many directives there were.
    program: usize,
}

fn is_colon(token: Option<&Placed<'_>>) -> bool {
    match token {
        Some(placed) => placed.token == Token::Sign(Sign::Colon),
        None => false,
    }
}

/// The word of a token, behind what was seen.
fn word_at<'a>(seen: BeforeToken<'a>, placed: &Placed<'a>, is_label: bool) -> Option<CodeWord<'a>> {
    let Token::Word(text) = placed.token else {
        return None;
    };
    let part = match seen.next {
        Part::Mnemonic if is_label => Part::Label,
        part => part,
    };
    Some(CodeWord {
        text,
        place: placed.place,
        part,
        program: seen.program,
    })
}

/// What is seen with a word.
fn behind_word<'a>(word: CodeWord<'a>) -> BeforeToken<'a> {
    let next = match word.part {
        Part::Owner(kind) => Part::Owner(kind),
        Part::Label => Part::Mnemonic,
        Part::Mnemonic => Part::Operand {
            mnemonic: word.text,
            number: 0,
        },
        Part::Operand { mnemonic, number } => Part::Operand {
            mnemonic,
            number: number.saturating_add(1),
        },
    };
    BeforeToken {
        next,
        program: word.program,
    }
}

/// What is seen with a token that is no word.
fn behind<'a>(seen: BeforeToken<'a>, token: Token<'a>) -> BeforeToken<'a> {
    match token {
        Token::LineEnd => BeforeToken {
            next: Part::Mnemonic,
            program: seen.program,
        },
        Token::Directive(kind) => BeforeToken {
            next: Part::Owner(kind),
            program: seen.program.saturating_add(1),
        },
        _ => seen,
    }
}

/// The words of a program text. An error is want of memory.
pub fn code_words<'a>(
    alloc: Global,
    tokens: &[Placed<'a>],
) -> Result<Vec<CodeWord<'a>>, AllocError> {
    let mut words = Vec::new(alloc);
    let mut seen = BeforeToken {
        next: Part::Mnemonic,
        program: 0,
    };
    for (number, placed) in tokens.iter().enumerate() {
        let is_label = is_colon(tokens.get(number.saturating_add(1)));
        match word_at(seen, placed, is_label) {
            Some(word) => {
                words.push(word)?;
                seen = behind_word(word);
            }
            None => seen = behind(seen, placed.token),
        }
    }
    Ok(words)
}
