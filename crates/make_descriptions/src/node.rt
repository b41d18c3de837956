//! The keys and values of a text in TOML, with their places.

/// Of what kind a value is.
#[derive(Clone, Copy, PartialEq, Eq)]
pub enum Kind {
    Text,
    Number(i64),
    Boolean(bool),
    List,
    Table,
    /// `[NAME]` or `[[NAME]]`, up to the next such line.
    Section,
    /// What no description has: a float, a date or a time.
    Other,
}

/// A value, in the order of the text: those in it stand behind it, and are one deeper.
#[derive(Drop)]
pub struct Node {
    pub depth: usize,
    pub kind: Kind,
    /// The key that it stands at, its parts joined by dots; empty in a list.
    pub key: String,
    pub key_place: usize,
    pub place: usize,
    /// A text, empty for every other kind.
    pub text: String,
}

/// The number that a node has, where it is one of 32 bits.
pub fn number_of(node: &Node) -> Option<u32> {
    match node.kind {
        Kind::Number(number) => u32::try_from(number).ok(),
        _ => None,
    }
}
