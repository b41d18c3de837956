//! Value change dumps: the line of a time.

ghost use Rattle.std.specs.Prelude.{◌≡◌, ◌+◌, ◌/◌, ◌%◌, ◌<◌, ◌≤◌, length};
ghost use Rattle.view_dumps.specs.Lines.{time_line};

use crate::dump_text::DumpText;
use arrayvec::ArrayString;
use itoa::Buffer;
use std::marker::Model;

/// How many bytes the line of a time has at most before its last digit, and some more.
const FRONT_SIZE: usize = 16;

/// The line of a time before its last digit, which is kept from one time to the next. Seen as the
/// number of the digits before the last.
#[derive(Drop)]
pub(crate) struct TimeFront {
    tens: u32,
    /// The first of the ten times that have this front.
    first: u32,
    cells: [u8; FRONT_SIZE],
    len: usize,
}

impl Model for TimeFront {
    ghost use Rattle.std.specs.Prelude.{◌≡◌, ◌≤◌, ◌*◌, ◌==◌, ◌++◌, ℕ, [], codes, decimal, if◌then◌else◌, length, take};
    ghost use Rattle.view_dumps.specs.declared.time_front.TheConstants.{FRONT_SIZE};

    ghost Value = { ℕ };

    ghost view = { λ t. t.tens };

    ghost invariant = { λ t. (t.len ≤ FRONT_SIZE) × (t.first ≡ 10 * t.tens)
        × (take t.len t.cells ≡ codes "#" ++ (if t.tens == 0 then [] else decimal t.tens)) };
}

impl TimeFront {
    /// The front of the times that are ten times that and up to nine more.
    pub fn of(tens: u32) -> Self
        requires { tens ≤ 429496729 }
        ensures { result ≡ tens }
    {
        let mut buffer = Buffer::new();
        let mut text: ArrayString<FRONT_SIZE> = ArrayString::new();
        text.push('#');
        if tens > 0 {
            text.push_str(buffer.format(tens));
        }
        let mut cells = [0; FRONT_SIZE];
        cells[..text.len()].copy_from_slice(text.as_str().as_bytes());
        TimeFront {
            tens,
            first: 10 * tens,
            cells,
            len: text.len(),
        }
    }

    /// Goes on to the next ten times, where only the last digit becomes another.
    #[inline(always)]
    fn count_up(&mut self)
        requires some { 0 < self.old }
        requires digit { self.old % 10 < 9 }
        requires fits { self.old < 429496729 }
        ensures { self.new ≡ self.old + 1 }
    {
        let tens = self.tens + 1;
        self.cells[self.len - 1] = b'0' + (tens % 10) as u8;
        self.tens = tens;
        self.first += 10;
    }

    /// Goes to the ten times of which `tick` is one, of whatever times it was.
    #[inline(never)]
    fn spell(&mut self, tick: u32)
        ensures { self.new ≡ tick / 10 }
    {
        let tens = tick / 10;
        if tens > 1 && tens - 1 == self.tens && tens % 10 > 0 {
            self.count_up();
        } else {
            *self = TimeFront::of(tens);
        }
    }

    /// Goes on to the ten times of which `tick` is one.
    #[inline(always)]
    fn go_to(&mut self, tick: u32)
        ensures { self.new ≡ tick / 10 }
    {
        if u64::from(tick).wrapping_sub(u64::from(self.first)) > 9 {
            self.spell(tick);
        }
    }

    /// The text becomes the line of a time.
    #[inline(always)]
    pub fn put_line(&mut self, tick: u32, text: &mut DumpText)
        ensures same { text.new ≡ time_line tick }
        ensures short { length text.new ≤ 18 }
    {
        self.go_to(tick);
        text.clear();
        text.push_front(&self.cells, self.len);
        text.push_array(&[b'0' + (tick - self.first) as u8, b'\n']);
    }
}
