//! Program texts: the operands of a line.

ghost use Rattle.std.specs.Prelude.{◌≡◌, ◌≤◌, option_map, length};
ghost use Rattle.task_asm.specs.declared.tokens.Sign.TheVariants as sign;
ghost use Rattle.task_asm.specs.Lines.{
  Takes,
  TakesSurely,
  AnswersSurely,
  TakesToken,
  Answers,
  TakesLabel,
  TakesPlus,
  LabelAnswers,
  register_number,
  name_in,
  object_in,
  a_mark,
  a_register,
  a_number,
  a_label,
  a_name,
  an_object,
  events,
  next_register,
  next_number,
  next_label,
  next_events,
  ended,
  one_number,
  one_label,
  one_object,
  only_events,
  two_registers,
  register_and_number,
  three_registers,
  object_and_events,
  object_and_register,
  object_and_registers,
  one_title,
};

use crate::program::EventNames;
use crate::tokens::{Placed, Sign, Token};
use osek_base::{Name, Register};
use std::alloc::{AllocError, Global};

/// Why the operands of a line could not be read: they are others than the mnemonic wants, or memory
/// was refused.
#[derive(Drop)]
pub enum Refusal {
    Operand,
    Memory,
}

impl From<AllocError> for Refusal {
    ghost use Rattle.task_asm.specs.declared.operands.Refusal.TheVariants.{Memory};

    ghost from_gives = { λ _ e. e ≡ Memory };

    fn from(_e: AllocError) -> Refusal {
        Refusal::Memory
    }
}

/// A label as an operand, and the place of its first byte.
#[derive(Clone, Copy)]
pub struct Label<'a> {
    pub place: usize,
    pub word: &'a str,
}

/// The name behind a directive, and the place of its first byte.
#[derive(Drop)]
pub struct Title {
    pub place: usize,
    pub name: Name,
}

/// The tokens of a line behind its mnemonic that are still to be read.
#[derive(Drop)]
pub struct Operands<'t, 'a> {
    tokens: &'t [Placed<'a>],
    next: usize,
    ghost in_range: { next ≤ length tokens.now },
}

fn register_number(word: &str) -> Option<Register>
    ensures { result ≡ register_number word.now }
{
    match word.as_bytes() {
        [b'r', digit @ b'0'..=b'7'] => Some(Register::new(digit - b'0')),
        _ => None,
    }
}

/// A name, which no register is.
fn name_in(word: &str) -> Option<Name>
    ensures { result ≡ name_in word.now }
{
    match register_number(word) {
        Some(_) => None,
        None => Name::new(word),
    }
}

fn object_in(word: &str) -> Option<Option<Name>>
    ensures { result ≡ object_in word.now }
{
    if word == "INVALID" {
        return Some(None);
    }
    match name_in(word) {
        Some(name) => Some(Some(name)),
        None => None,
    }
}

impl<'t, 'a> Operands<'t, 'a> {
    ghost use Rattle.task_asm.specs.Rest.{rest_of};
    ghost use Rattle.task_asm.specs.Tokens.{lexemes_of};

    pub fn new(tokens: &'t [Placed<'a>]) -> Self
        ensures { rest_of result ≡ lexemes_of tokens.now }
    {
        Operands { tokens, next: 0 }
    }

    fn token(&mut self) -> Result<Placed<'a>, Refusal>
        ensures { TakesToken (rest_of self.old) result (rest_of self.new) }
    {
        if self.next >= self.tokens.len() {
            return Err(Refusal::Operand);
        }
        let token = self.tokens[self.next];
        self.next += 1;
        Ok(token)
    }

    pub(crate) fn end(&mut self) -> Result<(), Refusal>
        ensures { AnswersSurely (ended (rest_of self.old) tt) result }
    {
        match self.token() {
            Ok(_) => Err(Refusal::Operand),
            Err(_) => Ok(()),
        }
    }

    fn mark(&mut self, wanted: Sign) -> Result<(), Refusal>
        ensures { TakesSurely (a_mark wanted (rest_of self.old)) result (rest_of self.new) }
    {
        match self.token()?.token {
            Token::Sign(found) if found == wanted => Ok(()),
            _ => Err(Refusal::Operand),
        }
    }

    pub(crate) fn register(&mut self) -> Result<Register, Refusal>
        ensures { Takes (a_register (rest_of self.old)) result (rest_of self.new) }
    {
        match self.token()?.token {
            Token::Word(word) => register_number(word).ok_or(Refusal::Operand),
            _ => Err(Refusal::Operand),
        }
    }

    fn number(&mut self) -> Result<u32, Refusal>
        ensures { Takes (a_number (rest_of self.old)) result (rest_of self.new) }
    {
        match self.token()?.token {
            Token::Number(number) => Ok(number),
            _ => Err(Refusal::Operand),
        }
    }

    fn label(&mut self) -> Result<Label<'a>, Refusal>
        ensures { TakesLabel (a_label (rest_of self.old)) result (rest_of self.new) }
    {
        let token = self.token()?;
        match token.token {
            Token::Word(word) => Ok(Label {
                place: token.place,
                word,
            }),
            _ => Err(Refusal::Operand),
        }
    }

    fn name(&mut self) -> Result<Name, Refusal>
        ensures { Takes (a_name (rest_of self.old)) result (rest_of self.new) }
    {
        match self.token()?.token {
            Token::Word(word) => name_in(word).ok_or(Refusal::Operand),
            _ => Err(Refusal::Operand),
        }
    }

    fn object(&mut self) -> Result<Option<Name>, Refusal>
        ensures { Takes (an_object (rest_of self.old)) result (rest_of self.new) }
    {
        match self.token()?.token {
            Token::Word(word) => object_in(word).ok_or(Refusal::Operand),
            _ => Err(Refusal::Operand),
        }
    }

    pub(crate) fn next_register(&mut self) -> Result<Register, Refusal>
        ensures { Takes (next_register (rest_of self.old)) result (rest_of self.new) }
    {
        self.mark(Sign::Comma)?;
        self.register()
    }

    fn next_number(&mut self) -> Result<u32, Refusal>
        ensures { Takes (next_number (rest_of self.old)) result (rest_of self.new) }
    {
        self.mark(Sign::Comma)?;
        self.number()
    }

    pub(crate) fn one_number(&mut self) -> Result<u32, Refusal>
        ensures { Answers (one_number (rest_of self.old)) result }
    {
        let number = self.number()?;
        self.end()?;
        Ok(number)
    }

    pub(crate) fn one_object(&mut self) -> Result<Option<Name>, Refusal>
        ensures { Answers (one_object (rest_of self.old)) result }
    {
        let object = self.object()?;
        self.end()?;
        Ok(object)
    }

    pub(crate) fn two_registers(&mut self) -> Result<(Register, Register), Refusal>
        ensures { Answers (two_registers (rest_of self.old)) result }
    {
        let first = self.register()?;
        let second = self.next_register()?;
        self.end()?;
        Ok((first, second))
    }

    pub(crate) fn register_and_number(&mut self) -> Result<(Register, u32), Refusal>
        ensures { Answers (register_and_number (rest_of self.old)) result }
    {
        let register = self.register()?;
        let number = self.next_number()?;
        self.end()?;
        Ok((register, number))
    }

    pub(crate) fn three_registers(&mut self) -> Result<(Register, Register, Register), Refusal>
        ensures { Answers (three_registers (rest_of self.old)) result }
    {
        let first = self.register()?;
        let second = self.next_register()?;
        let third = self.next_register()?;
        self.end()?;
        Ok((first, second, third))
    }

    pub(crate) fn object_and_register(&mut self) -> Result<(Option<Name>, Register), Refusal>
        ensures { Answers (object_and_register (rest_of self.old)) result }
    {
        let object = self.object()?;
        let register = self.next_register()?;
        self.end()?;
        Ok((object, register))
    }

    pub(crate) fn object_and_registers(
        &mut self,
    ) -> Result<(Option<Name>, Register, Register), Refusal>
        ensures { Answers (object_and_registers (rest_of self.old)) result }
    {
        let object = self.object()?;
        let first = self.next_register()?;
        let second = self.next_register()?;
        self.end()?;
        Ok((object, first, second))
    }

    pub(crate) fn next_label(&mut self) -> Result<Label<'a>, Refusal>
        ensures { TakesLabel (next_label (rest_of self.old)) result (rest_of self.new) }
    {
        self.mark(Sign::Comma)?;
        self.label()
    }

    pub(crate) fn one_label(&mut self) -> Result<Label<'a>, Refusal>
        ensures { LabelAnswers (one_label (rest_of self.old)) result }
    {
        let label = self.label()?;
        self.end()?;
        Ok(label)
    }

    /// Takes a `+`, where one stands next, and says whether it did.
    fn plus(&mut self) -> bool
        ensures { TakesPlus (rest_of self.old) result (rest_of self.new) }
    {
        let mut ahead = Operands {
            tokens: self.tokens,
            next: self.next,
        };
        match ahead.mark(Sign::Plus) {
            Ok(()) => {
                *self = ahead;
                true
            }
            Err(_) => false,
        }
    }

    /// One or more event names, joined by `+`.
    fn events(&mut self, alloc: Global) -> Result<EventNames, Refusal>
        ensures { Takes (events (rest_of self.old)) result (rest_of self.new) }
    {
        let first = self.name()?;
        let mut names = EventNames::one(alloc, first)?;
        'more: while self.plus() {
            let name = self.name()?;
            names.join(name)?;
        }
        Ok(names)
    }

    fn next_events(&mut self, alloc: Global) -> Result<EventNames, Refusal>
        ensures { Takes (next_events (rest_of self.old)) result (rest_of self.new) }
    {
        self.mark(Sign::Comma)?;
        self.events(alloc)
    }

    pub(crate) fn only_events(&mut self, alloc: Global) -> Result<EventNames, Refusal>
        ensures { Answers (only_events (rest_of self.old)) result }
    {
        let events = self.events(alloc)?;
        self.end()?;
        Ok(events)
    }

    pub(crate) fn object_and_events(
        &mut self,
        alloc: Global,
    ) -> Result<(Option<Name>, EventNames), Refusal>
        ensures { Answers (object_and_events (rest_of self.old)) result }
    {
        let object = self.object()?;
        let events = self.next_events(alloc)?;
        self.end()?;
        Ok((object, events))
    }

    /// The one word of a line.
    pub fn title(&mut self) -> Option<Title>
        ensures { result ≡ one_title (rest_of self.old) }
    {
        let token = self.token().ok()?;
        let Token::Word(word) = token.token else {
            return None;
        };
        let name = Name::new(word)?;
        self.end().ok()?;
        Some(Title {
            place: token.place,
            name,
        })
    }
}
