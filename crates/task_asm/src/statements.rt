//! Program texts: what the tokens of a text say, line by line.

ghost use Rattle.std.specs.Prelude.{◌≡◌, ◌≤◌, IfOk, MatchOption, Some, None, length, IsTrue};
ghost use Rattle.task_asm.specs.Tokens.{lexemes_of, lexeme_of};
ghost use Rattle.task_asm.specs.Statements.{Reads, Item, item_value, head, line_len, label_at, is_line_end};

use crate::instructions::Written;
use crate::mnemonic::Mnemonic;
use crate::operands::{Operands, Refusal, Title};
use crate::program::ProgramKind;
use crate::tokens::{Placed, Sign, Token};
use std::alloc::{AllocError, Global};
use std::marker::Model;

/// What a label, an instruction or a directive says. None: its line doesn't go on with just its
/// operands.
#[derive(Drop)]
pub enum Item<'a> {
    Label(&'a str),
    Instruction(Option<Written<'a>>),
    Program(ProgramKind, Option<Title>),
    /// Where a label, a directive or a mnemonic is wanted, and none stands.
    Unknown,
}

/// What stands in a text, with the place of its first token.
#[derive(Drop)]
pub struct Statement<'a> {
    pub place: usize,
    pub item: Item<'a>,
}

impl<'a> Model for Statement<'a> {
    ghost use Rattle.task_asm.specs.Statements.{Statement as Said, item_value};

    ghost Value = { Said };

    ghost view = { λ e. record { place = e.place; item = item_value e.item } };
}

fn is_line_end(token: &Placed<'_>) -> bool
    ensures { result ≡ is_line_end (lexeme_of token.now) }
{
    match token.token {
        Token::LineEnd => true,
        _ => false,
    }
}

/// How many tokens stand before the line's end.
fn line_len(tokens: &[Placed<'_>]) -> usize
    ensures len { result ≡ line_len (lexemes_of tokens.now) }
    ensures within { result ≤ length tokens.now }
{
    let mut n = 0;
    'line: while n < tokens.len() {
        let token = tokens[n];
        if is_line_end(&token) {
            return n;
        }
        n += 1;
    }
    n
}

/// The label at the front: a word and a colon.
fn label_at<'a>(tokens: &[Placed<'a>]) -> Option<&'a str>
    ensures { MatchOption result (label_at (lexemes_of tokens.now) ≡ None)
        (λ w. label_at (lexemes_of tokens.now) ≡ Some w.now) }
{
    if tokens.len() < 2 {
        return None;
    }
    let colon = tokens[1];
    let word = tokens[0];
    match colon.token {
        Token::Sign(Sign::Colon) => match word.token {
            Token::Word(word) => Some(word),
            _ => None,
        },
        _ => None,
    }
}

/// What a line's first token behind its labels says, with the tokens behind it on the line.
fn head<'a>(alloc: Global, token: &Placed<'a>, line: &[Placed<'a>]) -> Result<Item<'a>, AllocError>
    ensures { IfOk result (λ i. item_value i ≡ head (lexeme_of token.now) (lexemes_of line.now)) }
{
    match token.token {
        Token::Word(word) => match Mnemonic::of(word) {
            Some(mnemonic) => {
                let mut operands = Operands::new(line);
                match operands.instruction(alloc, mnemonic) {
                    Ok(written) => Ok(Item::Instruction(Some(written))),
                    Err(Refusal::Operand) => Ok(Item::Instruction(None)),
                    Err(Refusal::Memory) => Err(AllocError),
                }
            }
            None => Ok(Item::Unknown),
        },
        Token::Directive(kind) => {
            let mut operands = Operands::new(line);
            Ok(Item::Program(kind, operands.title()))
        }
        _ => Ok(Item::Unknown),
    }
}

/// What the tokens say, in order.
pub fn read_statements<'a>(
    alloc: Global,
    tokens: &[Placed<'a>],
) -> Result<Vec<Statement<'a>>, AllocError>
    ensures { IfOk result (λ es. Reads (lexemes_of tokens.now) es.items) }
{
    let mut statements = Vec::new(alloc);
    let mut next = 0;
    'tokens: while next < tokens.len() {
        let token = tokens[next];
        let place = token.place;
        if let Some(word) = label_at(&tokens[next..]) {
            statements.push(Statement {
                place,
                item: Item::Label(word),
            })?;
            next += 2;
        } else if is_line_end(&token) {
            next += 1;
        } else {
            let len = line_len(&tokens[next + 1..]);
            let item = head(alloc, &token, &tokens[next + 1..next + 1 + len])?;
            statements.push(Statement { place, item })?;
            next += 1 + len;
        }
    }
    Ok(statements)
}
