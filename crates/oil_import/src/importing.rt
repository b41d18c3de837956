//! OIL: grammar and standard objects. Files to the plain OIL that they mean.

ghost use Rattle.std.specs.Prelude.{IfOk, IfSome};
ghost use Rattle.std.specs.String.{string_bytes};
ghost use Rattle.oil_printer.specs.Plain.{IsPlain};

use crate::budgets::Budgets;
use crate::defaults::Defaults;
use crate::files::import_items;
use crate::includes::all_tokens;
use crate::items::{Item, declare_assigned, items_of};
use crate::long_names::shorten;
use crate::messages::{Messages, Subject};
use crate::reasons;
use crate::settings::Importer;
use crate::sources::{Place, Source};
use oil_printer::reprint_oil;
use std::alloc::{AllocError, Global};

/// What files become.
#[derive(Drop)]
pub struct PlainOil<'a> {
    /// Plain OIL, unless something was refused.
    pub text: Option<String>,
    pub messages: Messages<'a>,
    pub budgets: Budgets<'a>,
}

/// The items of all files, the defaults among them, and the place of the end.
fn all_items<'a>(
    alloc: Global,
    sources: &[Source<'a>],
    messages: &mut Messages<'a>,
) -> Result<(Vec<Item<'a>>, Defaults<'a>, Place), AllocError> {
    let (tokens, end) = all_tokens(alloc, sources, messages)?;
    let mut items = items_of(alloc, &tokens, end)?;
    declare_assigned(&mut items);
    shorten(alloc, &mut items, messages)?;
    let defaults = Defaults::new(alloc, &tokens)?;
    Ok((items, defaults, end))
}

/// Whether the first file is XML.
fn is_xml(sources: &[Source<'_>]) -> bool {
    let Some(source) = sources.first() else {
        return false;
    };
    for byte in source.content() {
        if !byte.is_ascii_whitespace() {
            return *byte == b'<';
        }
    }
    false
}

/// What files become before it is read and printed.
fn drafted<'a>(
    alloc: Global,
    sources: &[Source<'a>],
    is_bending: bool,
) -> Result<Importer<'a>, AllocError> {
    let mut messages = Messages::new(alloc);
    if is_xml(sources) {
        messages.refuse(Place::first(0), Subject::Word("XML"), reasons::XML)?;
        return Importer::new(alloc, &[], Defaults::none(alloc), messages, is_bending);
    }
    let (items, defaults, end) = all_items(alloc, sources, &mut messages)?;
    import_items(alloc, &items, defaults, end, messages, is_bending)
}

/// Plain OIL as it is printed, unless something was refused.
fn printed(alloc: Global, importer: &mut Importer<'_>) -> Result<Option<String>, AllocError>
    ensures { IfOk result (λ t. IfSome t (λ text. IsPlain (string_bytes text))) }
{
    if importer.messages.is_refused() {
        return Ok(None);
    }
    let text = reprint_oil(alloc, importer.draft.as_bytes())?;
    if text.is_none() {
        let place = Place::first(0);
        importer
            .messages
            .refuse(place, Subject::Word("CPU"), reasons::NOT_READ)?;
    }
    Ok(text)
}

/// Imports OIL files as they are used: the first one, and the others where they are included.
///
/// What is left out, set or refused is told by messages. Where nothing is refused there is a text,
/// and `read_oil` takes it. `is_bending` takes routines of category 1 and 3, those that list
/// resources, and tables that are synchronized with another meaning; they are refused without.
/// The only error is want of memory.
pub fn import<'a>(
    alloc: Global,
    sources: &[Source<'a>],
    is_bending: bool,
) -> Result<PlainOil<'a>, AllocError>
    ensures { IfOk result (λ i. IfSome i.text (λ text. IsPlain (string_bytes text))) }
{
    let mut importer = drafted(alloc, sources, is_bending)?;
    let text = printed(alloc, &mut importer)?;
    Ok(PlainOil {
        text,
        messages: importer.messages,
        budgets: importer.budgets,
    })
}
