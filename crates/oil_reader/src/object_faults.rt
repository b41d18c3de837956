//! OIL: standard objects. The faults of attributes and of objects.

ghost use Rattle.std.specs.Prelude.{◌≡◌, ◌++◌, ◌||◌, ◌&&◌, not, [], ◌∷◌, None, IfOk, map, if◌then◌else◌};
ghost use Rattle.oil_reader.specs.Attributes.{attribute_named, Finds, ScopeFault, BlockFault, SomeFault, AttributeFault, OneObjectFault, ReservedFault, ObjectFault, Stands, reserved, reserved_everywhere};
ghost use Rattle.oil_reader.specs.Order.{first_of_all, earlier_of};
ghost use Rattle.oil_reader.specs.declared.fault.OilFault.TheVariants as fault;
ghost use Rattle.oil_reader.specs.declared.syntax.Kind.TheVariants as kind;
ghost use Rattle.oil_reader.specs.Checks.{value_sort, value_word, value_number, faults_where, settings_faults, scope_faults, is_set, same_kind, is_os, key_name, kind_number, has_kind, seconds, lacks};
ghost use Rattle.oil_reader.specs.Table.{is_one_of, presence_of, may_lack};
ghost use Rattle.oil_reader.specs.Trees.{value_of, setting_of, settings_of, attribute_of, attributes_of, object_of, objects_of, file_of};

use crate::fault::OilFault;
use crate::syntax::{Attribute, Kind, Object, Setting, SyntaxTree, Value};
use crate::table::{AttributeName, Presence, attributes_of};
use std::alloc::{AllocError, Global};
use std::collections::BTreeSet;

/// The attribute of that word, where it is allowed.
fn attribute_named(allowed: &[AttributeName], name: &str) -> Option<AttributeName>
    ensures { result ≡ attribute_named allowed.now name.now }
{
    for attribute in allowed {
        if attribute.word() == name {
            return Some(*attribute);
        }
    }
    None
}

/// What tells a name and its value from others: the name, and the value's sort, word and number.
fn value_key<'a>(setting: Setting<'a>) -> (&'a str, u8, &'a str, u32)
    ensures name { result.0.now ≡ setting.entry.name.text.now }
    ensures sort { result.1 ≡ value_sort (value_of setting.entry.value) }
    ensures word { result.2.now ≡ value_word (value_of setting.entry.value) }
    ensures number { result.3 ≡ value_number (value_of setting.entry.value) }
{
    match setting.value {
        Value::Name(word) => (setting.name.text, 0, word.text, 0),
        Value::Number(number) => (setting.name.text, 1, "", number),
    }
}

fn is_set(settings: &[Setting<'_>], attribute: AttributeName) -> bool
    ensures { result ≡ is_set (settings_of settings.now) attribute }
{
    for setting in settings {
        if attribute.word() == setting.name.text {
            return true;
        }
    }
    false
}

/// The first of what was found so far and of a second standing, where it is one.
fn twice(is_again: bool, place: usize, so_far: Option<OilFault>) -> Option<OilFault>
    ensures { result ≡ first_of_all so_far (if is_again then fault.Twice place ∷ [] else []) }
{
    if is_again {
        Some(OilFault::Twice(place).or_earlier(so_far))
    } else {
        so_far
    }
}

/// The first fault of a setting, and of what was found so far. Its name stood before, or its name with its value.
fn setting_fault(
    allowed: &[AttributeName],
    setting: Setting<'_>,
    is_named: bool,
    is_valued: bool,
    so_far: Option<OilFault>,
) -> Option<OilFault>
    ensures { result
        ≡ first_of_all so_far
        (faults_where (attribute_named allowed.now setting.entry.name.text.now) is_named is_valued
        (setting_of setting.entry)) }
{
    let Some(attribute) = attribute_named(allowed, setting.name.text) else {
        return Some(OilFault::UnknownAttribute(setting.name_place).or_earlier(so_far));
    };
    let is_again = if attribute.presence().is_list() {
        is_valued
    } else {
        is_named
    };
    let mut found = twice(is_again, setting.name_place, so_far);
    if !attribute.accepts(setting.value) {
        found = Some(OilFault::Range(setting.value_place).or_earlier(found));
    }
    found
}

fn is_lacking(attribute: AttributeName, settings: &[Setting<'_>]) -> bool
    ensures { result
        ≡ not (may_lack (presence_of attribute) || is_set (settings_of settings.now) attribute) }
{
    !attribute.presence().may_lack() && !is_set(settings, attribute)
}

/// The first fault that a setting has among those before it.
fn settings_fault(
    alloc: Global,
    allowed: &[AttributeName],
    settings: &[Setting<'_>],
) -> Result<Option<OilFault>, AllocError>
    ensures { IfOk result
        (λ found. found
        ≡ first_of_all None (settings_faults allowed.now [] (settings_of settings.now))) }
{
    let mut names = BTreeSet::new(alloc);
    let mut values = BTreeSet::new(alloc);
    let mut found = None;
    for setting in settings {
        let is_new_name = names.insert(setting.name.text)?;
        let is_new_value = values.insert(value_key(*setting))?;
        found = setting_fault(allowed, *setting, !is_new_name, !is_new_value, found);
    }
    Ok(found)
}

/// The first fault of settings that stand together.
fn scope_fault_listed(
    alloc: Global,
    allowed: &[AttributeName],
    settings: &[Setting<'_>],
    close: usize,
) -> Result<Option<OilFault>, AllocError>
    ensures { IfOk result
        (λ found. found
        ≡ first_of_all None (scope_faults allowed.now (settings_of settings.now) close)) }
{
    let mut found = settings_fault(alloc, allowed, settings)?;
    for attribute in allowed {
        if is_lacking(*attribute, settings) {
            found = Some(OilFault::Missing(close).or_earlier(found));
        }
    }
    Ok(found)
}

/// The first fault of settings that stand together.
pub fn scope_fault(
    alloc: Global,
    allowed: &[AttributeName],
    settings: &[Setting<'_>],
    close: usize,
) -> Result<Option<OilFault>, AllocError>
    ensures { IfOk result
        (λ found. Finds
        (ScopeFault
        (record { allowed = allowed.now; settings = settings_of settings.now; close = close }))
        found) }
{
    let found = scope_fault_listed(alloc, allowed, settings, close)?;
    Ok(found)
}

fn earlier_of(one: Option<OilFault>, other: Option<OilFault>) -> Option<OilFault>
    ensures { result ≡ earlier_of one other }
{
    match other {
        Some(fault) => Some(fault.or_earlier(one)),
        None => one,
    }
}

/// The first fault in the block behind a value.
fn block_fault(
    alloc: Global,
    allowed: &[AttributeName],
    attribute: &Attribute<'_>,
) -> Result<Option<OilFault>, AllocError>
    ensures { IfOk result
        (λ found. Finds (BlockFault allowed.now (attribute_of attribute.now)) found) }
{
    let Some(name) = attribute_named(allowed, attribute.setting.name.text) else {
        return Ok(None);
    };
    let inner = name.block(attribute.setting.value);
    match &attribute.block {
        Some(block) => scope_fault(alloc, inner, &block.settings, block.close),
        None => scope_fault(alloc, inner, &[], attribute.end),
    }
}

/// The first fault in the blocks of attributes.
fn blocks_fault(
    alloc: Global,
    allowed: &[AttributeName],
    attributes: &[Attribute<'_>],
) -> Result<Option<OilFault>, AllocError>
    ensures { IfOk result
        (λ found. Finds (SomeFault (BlockFault allowed.now) (attributes_of attributes.now)) found) }
{
    let mut found = None;
    for attribute in attributes {
        let inner = block_fault(alloc, allowed, attribute)?;
        found = earlier_of(found, inner);
    }
    Ok(found)
}

/// The settings of attributes, without their blocks.
pub fn settings_in<'a>(
    alloc: Global,
    attributes: &[Attribute<'a>],
) -> Result<Vec<Setting<'a>>, AllocError>
    ensures { IfOk result
        (λ v. settings_of v.items ≡ map (λ a. a.setting) (attributes_of attributes.now)) }
{
    let mut settings = Vec::new(alloc);
    for attribute in attributes {
        settings.push(attribute.setting)?;
    }
    Ok(settings)
}

/// The first fault of an object's attributes.
fn object_fault(alloc: Global, object: &Object<'_>) -> Result<Option<OilFault>, AllocError>
    ensures { IfOk result (λ found. Finds (AttributeFault (object_of object.now)) found) }
{
    let allowed = attributes_of(object.kind);
    let settings = settings_in(alloc, &object.attributes)?;
    let found = scope_fault(alloc, allowed, &settings, object.end)?;
    let inner = blocks_fault(alloc, allowed, &object.attributes)?;
    Ok(earlier_of(found, inner))
}

/// Whether no object of the kind may have the name.
fn is_reserved(kind: Kind, name: &str) -> bool
    ensures { result ≡ is_one_of (reserved kind) name.now }
{
    match kind {
        Kind::Resource => name == "RES_SCHEDULER" || is_reserved_everywhere(name),
        _ => is_reserved_everywhere(name),
    }
}

/// Whether the name is `INVALID` or a register's.
fn is_reserved_everywhere(name: &str) -> bool
    ensures { result ≡ is_one_of reserved_everywhere name.now }
{
    match name {
        "INVALID" | "r0" | "r1" | "r2" | "r3" | "r4" | "r5" | "r6" | "r7" => true,
        _ => false,
    }
}

fn same_kind(one: Kind, other: Kind) -> bool
    ensures { result ≡ same_kind one other }
{
    one == other
}

pub fn is_os(kind: Kind) -> bool
    ensures { result ≡ is_os kind }
{
    match kind {
        Kind::Os => true,
        _ => false,
    }
}

/// Kinds are told apart by numbers.
fn kind_number(kind: Kind) -> u8
    ensures { result ≡ kind_number kind }
{
    match kind {
        Kind::Os => 0,
        Kind::AppMode => 1,
        Kind::Task => 2,
        Kind::Isr => 3,
        Kind::Resource => 4,
        Kind::Event => 5,
        Kind::Counter => 6,
        Kind::Alarm => 7,
    }
}

/// What tells an object from the others of a file: its kind, and its name where there may be several of the kind.
fn key_of<'a>(object: &Object<'a>) -> (u8, &'a str)
    ensures kind { result.0 ≡ kind_number object.now.kind }
    ensures name { result.1.now ≡ key_name (object_of object.now) }
{
    let name = if is_os(object.kind) {
        ""
    } else {
        object.name.text
    };
    (kind_number(object.kind), name)
}

fn has_kind(kind: Kind, objects: &[Object<'_>]) -> bool
    ensures { result ≡ has_kind kind (objects_of objects.now) }
{
    for object in objects {
        if same_kind(object.kind, kind) {
            return true;
        }
    }
    false
}

/// The first second object of one kind and name.
fn second_fault(alloc: Global, objects: &[Object<'_>]) -> Result<Option<OilFault>, AllocError>
    ensures { IfOk result
        (λ found. found ≡ first_of_all None (seconds [] (objects_of objects.now))) }
{
    let mut seen = BTreeSet::new(alloc);
    let mut found = None;
    for object in objects {
        let is_new = seen.insert(key_of(object))?;
        found = twice(!is_new, object.place, found);
    }
    Ok(found)
}

fn reserved_fault(object: &Object<'_>) -> Option<OilFault>
    ensures { Finds (ReservedFault (object_of object.now)) result }
{
    if is_reserved(object.kind, object.name.text) {
        Some(OilFault::Range(object.place))
    } else {
        None
    }
}

/// The first fault of an object.
fn one_object_fault(alloc: Global, object: &Object<'_>) -> Result<Option<OilFault>, AllocError>
    ensures { IfOk result (λ found. Finds (OneObjectFault (object_of object.now)) found) }
{
    let found = object_fault(alloc, object)?;
    Ok(earlier_of(found, reserved_fault(object)))
}

/// The first fault of single objects.
fn objects_fault(alloc: Global, objects: &[Object<'_>]) -> Result<Option<OilFault>, AllocError>
    ensures { IfOk result
        (λ found. Finds (SomeFault OneObjectFault (objects_of objects.now)) found) }
{
    let mut found = None;
    for object in objects {
        found = earlier_of(found, one_object_fault(alloc, object)?);
    }
    Ok(found)
}

/// Whether there is an OS and an APPMODE.
fn has_needed(objects: &[Object<'_>]) -> bool
    ensures { result
        ≡ (has_kind kind.Os (objects_of objects.now)
        && has_kind kind.AppMode (objects_of objects.now)) }
{
    has_kind(Kind::Os, objects) && has_kind(Kind::AppMode, objects)
}

/// The first fault of which objects there are.
fn names_fault_listed(
    alloc: Global,
    objects: &[Object<'_>],
    close: usize,
) -> Result<Option<OilFault>, AllocError>
    ensures { IfOk result
        (λ found. found
        ≡ first_of_all None
        (seconds [] (objects_of objects.now) ++ lacks (objects_of objects.now) close)) }
{
    let found = second_fault(alloc, objects)?;
    if has_needed(objects) {
        return Ok(found);
    }
    Ok(Some(OilFault::Missing(close).or_earlier(found)))
}

fn names_fault(alloc: Global, tree: &SyntaxTree<'_>) -> Result<Option<OilFault>, AllocError>
    ensures { IfOk result (λ found. Finds (ObjectFault (file_of tree.now)) found) }
{
    let found = names_fault_listed(alloc, &tree.objects, tree.close)?;
    Ok(found)
}

/// The first fault of a file whose syntax is right.
pub fn file_fault(alloc: Global, tree: &SyntaxTree<'_>) -> Result<Option<OilFault>, AllocError>
    ensures { IfOk result (λ found. Finds (Stands (file_of tree.now)) found) }
{
    let found = names_fault(alloc, tree)?;
    Ok(earlier_of(found, objects_fault(alloc, &tree.objects)?))
}
