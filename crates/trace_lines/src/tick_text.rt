//! The ticks of a run as text.

ghost use Rattle.std.specs.Prelude.{◌≡◌, ◌+◌, ◌-◌, ◌<◌, ◌≤◌, ◌++◌, codes, decimal, length};
ghost use Rattle.trace_lines.specs.Lines.{front_digits};

use crate::block::{BLOCK_SIZE, Block};
use crate::short_text::ShortText;
use arrayvec::ArrayString;
use itoa::Buffer;
use osek_base::MAX_TICKS;
use std::marker::Model;

/// A number of ticks, up to [`MAX_TICKS`], whose digits are counted up. Seen as the number.
#[derive(Drop)]
pub struct TickText {
    /// The number without its last digit.
    tens: u32,
    last: u8,
    /// The digits of the number, and a space.
    text: ShortText<16>,
}

impl Model for TickText {
    ghost use Rattle.std.specs.Prelude.{◌≡◌, ◌+◌, ◌*◌, ◌<◌, ◌≤◌, ◌∷◌, ◌++◌, [], ℕ};
    ghost use Rattle.osek_base.specs.declared.limits.TheConstants.{MAX_TICKS};
    ghost use Rattle.trace_lines.specs.Lines.{front_digits};

    ghost Value = { ℕ };

    ghost view = { λ t. t.tens * 10 + t.last };

    ghost invariant = { λ t. (t.last < 10) × (t.text ≡ front_digits t.tens ++ (48 + t.last) ∷ 32 ∷ []) × (t.tens * 10 + t.last ≤ MAX_TICKS) };
}

/// The text becomes the digits of ten times a number, and a space.
#[inline(never)]
fn spell_tens(tens: u32, spelled: &mut ShortText<16>)
    ensures { spelled.new ≡ decimal tens ++ codes "0 " }
{
    let mut buffer = Buffer::new();
    let mut text: ArrayString<16> = ArrayString::new();
    text.push_str(buffer.format(tens));
    text.push_str("0 ");
    *spelled = ShortText::of(text.as_str().as_bytes());
}

/// The digits of ten times a number, behind those of the last tick before: where only two of them
/// differ, these are written.
#[inline(never)]
fn next_tens(tens: u32, text: &mut ShortText<16>)
    requires some { 0 < tens }
    requires few { tens ≤ MAX_TICKS }
    requires before { text.old ≡ front_digits (tens - 1) ++ codes "9 " }
    ensures { text.new ≡ decimal tens ++ codes "0 " }
{
    let digit = tens % 10;
    if tens > 1 && digit != 0 {
        let end = text.len();
        text.set(end - 3, b'0' + digit as u8);
        text.set(end - 2, b'0');
    } else {
        spell_tens(tens, text);
    }
}

impl TickText {
    /// Tick 0.
    pub fn new() -> Self
        ensures { result ≡ 0 }
    {
        TickText {
            tens: 0,
            last: 0,
            text: ShortText::of(b"0 "),
        }
    }

    /// Goes on to the next tick.
    #[inline(always)]
    pub fn advance(&mut self)
        requires { self.old < MAX_TICKS }
        ensures { self.new ≡ self.old + 1 }
    {
        if self.last < 9 {
            self.last += 1;
            self.text.set(self.text.len() - 2, b'0' + self.last);
        } else {
            self.tens += 1;
            self.last = 0;
            next_tens(self.tens, &mut self.text);
        }
    }

    /// Appends the number and a space.
    #[inline(always)]
    pub(crate) fn push_to(&self, text: &mut Block)
        requires { length text.old + 16 ≤ BLOCK_SIZE }
        ensures same { text.new ≡ text.old ++ decimal self.now ++ codes " " }
        ensures short { length text.new ≤ length text.old + 16 }
    {
        text.push_front(self.text.cells(), self.text.len());
    }
}
