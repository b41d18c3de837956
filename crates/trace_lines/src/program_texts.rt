//! The texts of a program's instructions, made before the first tick.

ghost use Rattle.std.specs.Prelude.{◌≡◌, ◌+◌, ◌<◌, ◌≤◌, ◌∷◌, ◌++◌, [], Some, IfOk, IfSome, OnOk, length, slice_get};
ghost use Rattle.osek_base.specs.Separable.{IsOwner};
ghost use Rattle.osek_base.specs.System.{program};
ghost use Rattle.trace_lines.specs.Programs.{AreTextsOf, IsTextAt};

use crate::kept_text::KeptText;
use crate::line::{LineText, push_executed};
use arrayvec::ArrayString;
use osek_base::{Owner, Place, System};
use std::alloc::{AllocError, Global};
use std::marker::Model;

/// What the lines of the instruction at a place of a task's or routine's program have between the
/// tick and the outcome.
fn text_at(
    alloc: Global,
    system: &System,
    who: &Owner,
    place: usize,
) -> Result<KeptText, AllocError>
    requires owner { IsOwner system.now who.now }
    requires place { place < length (program system.now who.now) }
    ensures { IfOk result (λ t. IsTextAt system.now who.now place t) }
{
    let names = system.names();
    let place = Place::new(place as u16);
    let what = system.instruction_at(*who, place);
    let mut text: LineText = ArrayString::new();
    push_executed(&mut text, names, who, place, &what);
    KeptText::of(alloc, text.as_str().as_bytes())
}

fn push_text(texts: &mut Vec<KeptText>, text: KeptText) -> Result<(), AllocError>
    ensures { OnOk result (texts.new.items ≡ texts.old.items ++ text ∷ []) }
{
    texts.push(text)?;
    Ok(())
}

/// The texts of a program's instructions, each at the place of its instruction. Seen as their list.
#[derive(Drop)]
pub(crate) struct ProgramTexts {
    texts: Vec<KeptText>,
}

impl Model for ProgramTexts {
    ghost use Rattle.std.specs.Prelude.{ℕ, List};

    ghost Value = { List (List ℕ) };

    ghost view = { λ t. t.texts.items };
}

impl ProgramTexts {
    /// The texts of a task's or routine's program.
    pub fn of(alloc: Global, system: &System, who: &Owner) -> Result<Self, AllocError>
        requires { IsOwner system.now who.now }
        ensures { IfOk result (λ texts. AreTextsOf system.now who.now texts) }
    {
        let mut texts = Vec::new(alloc);
        'places: for place in 0..system.program_len(*who) {
            push_text(&mut texts, text_at(alloc, system, who, place)?)?;
        }
        Ok(ProgramTexts { texts })
    }

    /// The text at a place of the program.
    #[inline(always)]
    pub fn text(&self, place: &Place) -> &KeptText
        requires { place.now < length self.now }
        ensures { slice_get self.now place.now ≡ Some result.now }
    {
        &self.texts[place.number() as usize]
    }

    /// The text at a place, if there is one.
    #[inline(always)]
    pub fn at(&self, place: &Place) -> Option<&KeptText>
        ensures { IfSome result (λ text. slice_get self.now place.now ≡ Some text.now) }
    {
        self.texts.get(place.number() as usize)
    }
}
