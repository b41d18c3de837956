//! Where settings stand together in an OIL file.

use crate::pieces::Piece;
use oil_reader::{
    Attribute, AttributeName, Kind, Object, Setting, SyntaxTree, Value, attributes_of,
};

/// Settings that stand together: those of an object, or those of the block behind the value of one
/// of its attributes.
#[derive(Clone, Copy)]
pub(crate) struct Scope<'t, 'a> {
    object: &'t Object<'a>,
    /// The attribute that has the block.
    attribute: Option<&'t Attribute<'a>>,
    /// The attributes that may stand there.
    pub allowed: &'static [AttributeName],
}

/// The attribute of that word, where it is one of these.
pub(crate) fn attribute_named(allowed: &[AttributeName], word: &str) -> Option<AttributeName> {
    for attribute in allowed {
        if attribute.word() == word {
            return Some(*attribute);
        }
    }
    None
}

fn piece_of<'a>(value: Value<'a>) -> Piece<'a> {
    match value {
        Value::Name(word) => Piece::Text(word.text),
        Value::Number(number) => Piece::Number(number as usize),
    }
}

impl<'t, 'a> Scope<'t, 'a> {
    fn of_object(object: &'t Object<'a>) -> Self {
        Scope {
            object,
            attribute: None,
            allowed: attributes_of(object.kind),
        }
    }

    /// That of the block of an attribute which its object has.
    fn of_block(object: &'t Object<'a>, attribute: &'t Attribute<'a>) -> Option<Self> {
        let setting = attribute.setting;
        let name = attribute_named(attributes_of(object.kind), setting.name.text)?;
        Some(Scope {
            object,
            attribute: Some(attribute),
            allowed: name.block(setting.value),
        })
    }

    /// The kind of its object.
    pub(crate) fn kind(self) -> Kind {
        self.object.kind
    }

    /// Whether it is a block.
    pub(crate) fn is_block(self) -> bool {
        self.attribute.is_some()
    }

    /// How many settings stand there.
    fn count(self) -> usize {
        match self.attribute {
            None => self.object.attributes.len(),
            Some(attribute) => match &attribute.block {
                Some(block) => block.settings.len(),
                None => 0,
            },
        }
    }

    /// The setting of that number, from 0 on.
    fn setting(self, number: usize) -> Option<Setting<'a>> {
        match self.attribute {
            None => Some(self.object.attributes.get(number)?.setting),
            Some(attribute) => attribute.block.as_ref()?.settings.get(number).copied(),
        }
    }

    /// The setting whose name or value stands at a place.
    fn at(self, place: usize) -> Option<Setting<'a>> {
        for number in 0..self.count() {
            let setting = self.setting(number)?;
            if setting.name_place == place || setting.value_place == place {
                return Some(setting);
            }
        }
        None
    }

    /// The first setting of that word, and where a value is given, of that value.
    pub(crate) fn first(self, word: &str, value: Option<Value<'a>>) -> Option<Setting<'a>> {
        for number in 0..self.count() {
            let setting = self.setting(number)?;
            if setting.name.text == word && (value.is_none() || value == Some(setting.value)) {
                return Some(setting);
            }
        }
        None
    }

    /// Whether an attribute is missing there.
    pub(crate) fn lacks(self, attribute: AttributeName) -> bool {
        !attribute.presence().may_lack() && self.first(attribute.word(), None).is_none()
    }

    /// Whether it ends at a place, with an attribute missing.
    fn ends_short(self, place: usize) -> bool {
        if self.end() != place {
            return false;
        }
        for attribute in self.allowed {
            if self.lacks(*attribute) {
                return true;
            }
        }
        false
    }

    /// The place of what ends it.
    fn end(self) -> usize {
        match self.attribute {
            None => self.object.end,
            Some(attribute) => match &attribute.block {
                Some(block) => block.close,
                None => attribute.end,
            },
        }
    }

    /// `TASK A`, or of a block `AUTOSTART = TRUE of TASK A`.
    pub(crate) fn pieces(self) -> [Piece<'a>; 5] {
        let object = self.object;
        let owner = Piece::Named(object.kind, object.name.text);
        let none = Piece::Text("");
        let Some(attribute) = self.attribute else {
            return [none, none, none, none, owner];
        };
        let setting = attribute.setting;
        let name = Piece::Text(setting.name.text);
        [
            name,
            Piece::Text(" = "),
            piece_of(setting.value),
            Piece::Text(" of "),
            owner,
        ]
    }
}

/// The setting of an object or of one of its blocks whose name or value stands at a place, with
/// where it stands.
fn setting_of<'t, 'a>(
    object: &'t Object<'a>,
    place: usize,
) -> Option<(Scope<'t, 'a>, Setting<'a>)> {
    let scope = Scope::of_object(object);
    if let Some(setting) = scope.at(place) {
        return Some((scope, setting));
    }
    for attribute in &object.attributes {
        if let Some(scope) = Scope::of_block(object, attribute) {
            if let Some(setting) = scope.at(place) {
                return Some((scope, setting));
            }
        }
    }
    None
}

/// The setting of a file whose name or value stands at a place, with where it stands.
pub(crate) fn setting_at<'t, 'a>(
    tree: &'t SyntaxTree<'a>,
    place: usize,
) -> Option<(Scope<'t, 'a>, Setting<'a>)> {
    for object in &tree.objects {
        if let Some(found) = setting_of(object, place) {
            return Some(found);
        }
    }
    None
}

/// What of an object ends at a place with an attribute missing: itself, or else one of its blocks.
fn short_of<'t, 'a>(object: &'t Object<'a>, place: usize) -> Option<Scope<'t, 'a>> {
    let scope = Scope::of_object(object);
    if scope.ends_short(place) {
        return Some(scope);
    }
    for attribute in &object.attributes {
        if let Some(scope) = Scope::of_block(object, attribute) {
            if scope.ends_short(place) {
                return Some(scope);
            }
        }
    }
    None
}

/// What of a file ends at a place with an attribute missing.
pub(crate) fn short_at<'t, 'a>(tree: &'t SyntaxTree<'a>, place: usize) -> Option<Scope<'t, 'a>> {
    for object in &tree.objects {
        if let Some(found) = short_of(object, place) {
            return Some(found);
        }
    }
    None
}
