//! What a trace is asked for by.

ghost use Rattle.std.specs.Prelude.{◌≡◌, ◌≤◌};

use osek_base::MAX_TICKS;
use std::marker::Model;

/// The texts of an OIL file, of programs and of an arrival list, the name of a mode, and how many
/// ticks, at most 1,000,000. Seen as the record of these.
#[derive(Drop)]
pub struct TraceInput<'a> {
    oil: &'a [u8],
    asm: &'a [u8],
    irqs: &'a [u8],
    mode: &'a str,
    ticks: u32,
}

impl<'a> Model for TraceInput<'a> {
    ghost use Rattle.std.specs.Prelude.{◌≤◌};
    ghost use Rattle.osek_base.specs.declared.limits.TheConstants.{MAX_TICKS};
    ghost use Rattle.tracer.specs.WholeRuns.{Input};

    ghost Value = { Input };

    ghost view = { λ i. record {
      oil = i.oil.now;
      asm = i.asm.now;
      irqs = i.irqs.now;
      mode = i.mode.now;
      ticks = i.ticks;
    } };

    ghost invariant = { λ i. i.ticks ≤ MAX_TICKS };
}

impl<'a> TraceInput<'a> {
    /// The input of these.
    pub fn new(
        oil: &'a [u8],
        asm: &'a [u8],
        irqs: &'a [u8],
        mode: &'a str,
        ticks: u32,
    ) -> TraceInput<'a>
        requires { ticks ≤ MAX_TICKS }
        ensures { result ≡ record {
          oil = oil.now;
          asm = asm.now;
          irqs = irqs.now;
          mode = mode.now;
          ticks = ticks;
        } }
    {
        TraceInput {
            oil,
            asm,
            irqs,
            mode,
            ticks,
        }
    }

    /// The OIL text.
    pub(crate) fn oil(&self) -> &'a [u8]
        ensures { result.now ≡ self.now.oil }
    {
        self.oil
    }

    /// The program text.
    pub(crate) fn asm(&self) -> &'a [u8]
        ensures { result.now ≡ self.now.asm }
    {
        self.asm
    }

    /// The arrival list.
    pub(crate) fn irqs(&self) -> &'a [u8]
        ensures { result.now ≡ self.now.irqs }
    {
        self.irqs
    }

    /// The mode's name.
    pub(crate) fn mode(&self) -> &'a str
        ensures { result.now ≡ self.now.mode }
    {
        self.mode
    }

    /// The number of ticks.
    pub(crate) fn ticks(&self) -> u32
        ensures value { result ≡ self.now.ticks }
        ensures few { result ≤ MAX_TICKS }
    {
        self.ticks
    }
}
