//! Faults of the attributes and objects of an OIL file.

use crate::allowed_values::allowed_values;
use crate::hints::{is_bent_attribute, is_bent_value, write_bend_hint, write_nearest_or_hint};
use crate::notes::{write_choice, write_names};
use crate::pieces::Piece::{self, Named, Text};
use crate::pieces::kind_word;
use crate::scopes::{Scope, attribute_named, setting_at, short_at};
use crate::source::Source;
use oil_reader::{Kind, Object, Setting, SyntaxTree};
use std::alloc::{AllocError, Global};
use std::io::{self, Write};

/// The object whose name stands at a place.
fn object_at<'t, 'a>(tree: &'t SyntaxTree<'a>, place: usize) -> Option<&'t Object<'a>> {
    for object in &tree.objects {
        if object.place == place {
            return Some(object);
        }
    }
    None
}

/// The first object of that kind and name; a file has one OS, whatever its name.
fn first_object<'t, 'a>(
    tree: &'t SyntaxTree<'a>,
    kind: Kind,
    name: &str,
) -> Option<&'t Object<'a>> {
    for object in &tree.objects {
        if object.kind == kind && (kind == Kind::Os || object.name.text == name) {
            return Some(object);
        }
    }
    None
}

/// The words of the attributes that a scope takes, or of those that are missing.
fn words(
    alloc: Global,
    scope: Scope<'_, '_>,
    is_missing: bool,
) -> Result<Vec<&'static str>, AllocError> {
    let mut found = Vec::new(alloc);
    for attribute in scope.allowed {
        if !is_missing || scope.lacks(*attribute) {
            found.push(attribute.word())?;
        }
    }
    Ok(found)
}

/// Explains an attribute that its object or block doesn't have.
pub(crate) fn explain_unknown<W: Write>(
    alloc: Global,
    source: Source<'_>,
    tree: &SyntaxTree<'_>,
    place: usize,
    out: &mut W,
) -> io::Result<()> {
    let Some((scope, setting)) = setting_at(tree, place) else {
        return Ok(());
    };
    let word = setting.name.text;
    let [name, is, value, of, owner] = scope.pieces();
    let lacks = Text(" has no attribute ");
    source.tell(place, &[name, is, value, of, owner, lacks, Text(word)], out)?;
    let words = words(alloc, scope, false)?;
    if scope.is_block() {
        return write_choice(alloc, word, &words, out);
    }
    write_names("allowed", &words, out)?;
    if is_bent_attribute(scope.kind(), word) {
        return write_bend_hint(source, out);
    }
    write_nearest_or_hint(alloc, source, word, &words, out)
}

fn has_kind(tree: &SyntaxTree<'_>, kind: Kind) -> bool {
    for object in &tree.objects {
        if object.kind == kind {
            return true;
        }
    }
    false
}

fn write_missing<W: Write>(tree: &SyntaxTree<'_>, kind: Kind, out: &mut W) -> io::Result<()> {
    if has_kind(tree, kind) {
        return Ok(());
    }
    write_names("missing", &[kind_word(kind)], out)
}

/// Explains the end of an object or block that lacks attributes, or of a file that lacks an OS or
/// an APPMODE.
pub(crate) fn explain_missing<W: Write>(
    alloc: Global,
    source: Source<'_>,
    tree: &SyntaxTree<'_>,
    place: usize,
    out: &mut W,
) -> io::Result<()> {
    if let Some(scope) = short_at(tree, place) {
        let [name, is, value, of, owner] = scope.pieces();
        let lacks = Text(" lacks attributes");
        source.tell_bytes(place, 1, &[name, is, value, of, owner, lacks], out)?;
        return write_names("missing", &words(alloc, scope, true)?, out);
    }
    source.tell_bytes(tree.close, 1, &[Text("the CPU lacks objects")], out)?;
    write_missing(tree, Kind::Os, out)?;
    write_missing(tree, Kind::AppMode, out)
}

fn is_list(scope: Scope<'_, '_>, word: &str) -> bool {
    match attribute_named(scope.allowed, word) {
        Some(attribute) => attribute.presence().is_list(),
        None => false,
    }
}

/// Explains a setting whose name and value stood before in a list.
fn explain_listed<'a, W: Write>(
    source: Source<'a>,
    scope: Scope<'_, 'a>,
    second: Setting<'a>,
    out: &mut W,
) -> io::Result<()> {
    let word = second.name.text;
    let [name, is, value, of, owner] = scope.pieces();
    let lists = Text(" lists the ");
    let listed = Text(source.word(second.value_place));
    let again = Text(" a second time");
    let what = [
        name,
        is,
        value,
        of,
        owner,
        lists,
        Text(word),
        Text(" "),
        listed,
        again,
    ];
    match scope.first(word, Some(second.value)) {
        Some(first) => source.tell_second(second.name_place, &what, first.name_place, out),
        None => Ok(()),
    }
}

/// Explains a setting whose name stood before, or in a list whose name and value.
fn explain_second_setting<'a, W: Write>(
    source: Source<'a>,
    scope: Scope<'_, 'a>,
    second: Setting<'a>,
    out: &mut W,
) -> io::Result<()> {
    let word = second.name.text;
    if is_list(scope, word) {
        return explain_listed(source, scope, second, out);
    }
    let [name, is, value, of, owner] = scope.pieces();
    let again = Text(" a second time");
    let what = [name, is, value, of, owner, Text(" has "), Text(word), again];
    match scope.first(word, None) {
        Some(first) => source.tell_second(second.name_place, &what, first.name_place, out),
        None => Ok(()),
    }
}

/// Explains an object whose kind has its name already, or a second OS.
fn explain_second_object<W: Write>(
    source: Source<'_>,
    tree: &SyntaxTree<'_>,
    second: &Object<'_>,
    out: &mut W,
) -> io::Result<()> {
    let kind = second.kind;
    let name = second.name.text;
    let what: [Piece<'_>; 2] = match kind {
        Kind::Os => [Text("a second OS"), Text("")],
        _ => [Text("a second "), Named(kind, name)],
    };
    match first_object(tree, kind, name) {
        Some(first) => source.tell_second(second.place, &what, first.place, out),
        None => Ok(()),
    }
}

/// Explains what stands a second time.
pub(crate) fn explain_twice<'a, W: Write>(
    source: Source<'a>,
    tree: &SyntaxTree<'a>,
    place: usize,
    out: &mut W,
) -> io::Result<()> {
    if let Some(object) = object_at(tree, place) {
        return explain_second_object(source, tree, object, out);
    }
    match setting_at(tree, place) {
        Some((scope, setting)) => explain_second_setting(source, scope, setting, out),
        None => Ok(()),
    }
}

/// Explains a name that no object of the kind may have.
fn explain_reserved<W: Write>(
    source: Source<'_>,
    object: &Object<'_>,
    out: &mut W,
) -> io::Result<()> {
    let kind = Text(kind_word(object.kind));
    let name = Text(object.name.text);
    let allowed = match object.kind {
        Kind::Resource => "any name but INVALID, r0 to r7 and RES_SCHEDULER",
        _ => "any name but INVALID and r0 to r7",
    };
    let what = [Text("no "), kind, Text(" may be called "), name];
    source.note(object.place, &what, "allowed", &[Text(allowed)], out)
}

/// Explains a value that its attribute doesn't take.
fn explain_value<'a, W: Write>(
    source: Source<'a>,
    scope: Scope<'_, 'a>,
    setting: Setting<'a>,
    place: usize,
    out: &mut W,
) -> io::Result<()> {
    let word = setting.name.text;
    let attribute = attribute_named(scope.allowed, word);
    let allowed = match attribute {
        Some(attribute) => allowed_values(attribute),
        None => "",
    };
    let [name, is, value, of, owner] = scope.pieces();
    let wrong = Text(source.word(place));
    let what = [
        Text(word),
        Text(" of "),
        name,
        is,
        value,
        of,
        owner,
        Text(" can't be "),
        wrong,
    ];
    source.note(place, &what, "allowed", &[Text(allowed)], out)?;
    if is_bent_value(attribute, setting.value) {
        return write_bend_hint(source, out);
    }
    Ok(())
}

/// Explains a value that its attribute doesn't take, or a reserved name.
pub(crate) fn explain_range<'a, W: Write>(
    source: Source<'a>,
    tree: &SyntaxTree<'a>,
    place: usize,
    out: &mut W,
) -> io::Result<()> {
    if let Some(object) = object_at(tree, place) {
        return explain_reserved(source, object, out);
    }
    match setting_at(tree, place) {
        Some((scope, setting)) => explain_value(source, scope, setting, place, out),
        None => Ok(()),
    }
}
