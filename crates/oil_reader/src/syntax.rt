//! OIL: grammar. The tree of a text.

ghost use Rattle.std.specs.Prelude.{◌≡◌};
ghost use Rattle.oil_reader.specs.Machine.{kind_of};

use crate::ident::Ident;

/// The kinds of objects.
#[derive(Clone, Copy, PartialEq, Eq)]
pub enum Kind {
    Os,
    AppMode,
    Task,
    Isr,
    Resource,
    Event,
    Counter,
    Alarm,
}

/// The value of an attribute.
#[derive(Clone, Copy, PartialEq, Eq)]
pub enum Value<'a> {
    Name(Ident<'a>),
    Number(u32),
}

/// `NAME = value`.
#[derive(Clone, Copy)]
pub struct Setting<'a> {
    pub name: Ident<'a>,
    pub name_place: usize,
    pub value: Value<'a>,
    pub value_place: usize,
}

/// What stands in braces behind a value.
#[derive(Drop)]
pub struct Block<'a> {
    pub settings: Vec<Setting<'a>>,
    pub close: usize,
}

/// An attribute up to its semicolon.
#[derive(Drop)]
pub struct Attribute<'a> {
    pub setting: Setting<'a>,
    pub block: Option<Block<'a>>,
    pub end: usize,
}

/// An object; its end is its closing brace, or without braces its semicolon.
#[derive(Drop)]
pub struct Object<'a> {
    pub kind: Kind,
    pub name: Ident<'a>,
    pub place: usize,
    pub attributes: Vec<Attribute<'a>>,
    pub end: usize,
}

/// A file as it is written.
#[derive(Drop)]
pub struct SyntaxTree<'a> {
    pub cpu: Ident<'a>,
    pub objects: Vec<Object<'a>>,
    pub close: usize,
}

impl Kind {
    /// The kind of that word.
    pub(crate) fn of_word(word: &str) -> Option<Kind>
        ensures { result ≡ kind_of word.now }
    {
        match word {
            "OS" => Some(Kind::Os),
            "APPMODE" => Some(Kind::AppMode),
            "TASK" => Some(Kind::Task),
            "ISR" => Some(Kind::Isr),
            "RESOURCE" => Some(Kind::Resource),
            "EVENT" => Some(Kind::Event),
            "COUNTER" => Some(Kind::Counter),
            "ALARM" => Some(Kind::Alarm),
            _ => None,
        }
    }
}
