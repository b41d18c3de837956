//! Value change dumps, IEEE 1364: of each tick what changes in it.

ghost use Rattle.std.specs.Prelude.{◌≡◌, [], ℕ, ◌+◌, length, true};
ghost use Rattle.sinks.specs.Sinks.{Puts};
ghost use Rattle.view_dumps.specs.Declarations.{declarations};
ghost use Rattle.view_dumps.specs.Dumps.{
  Dump,
  alike,
  alike_text,
  behind_tick,
  observed,
  observed_text,
  started,
};
ghost use Rattle.view_dumps.specs.Lines.{time_line};
ghost use Rattle.view_dumps.specs.Runs.{IsEach};
ghost use Rattle.view_dumps.specs.Ticks.{after_tick, events_text, tick_text};

use crate::declarations::push_declarations;
use crate::dump_text::push_time;
use crate::tick_page::TickPage;
use osek_base::System;
use seen_ticks::Observation;
use sinks::{Sink, SinkFault, write_all};
use std::marker::Model;

/// A value change dump of a run that is being written. Contracts see what is to be known to go on
/// with it.
#[derive(Drop)]
pub struct ValueChanges<'s> {
    system: &'s System,
    page: TickPage,
    /// The first tick that is written.
    from: u32,
    /// Whether it was seen.
    is_begun: bool,
    /// The number of the tick behind the last one that was seen; at first `from`.
    ticks: u64,
}

impl<'s> Model for ValueChanges<'s> {
    ghost use Rattle.view_dumps.specs.Dumps.{Dump};

    ghost Value = { Dump };

    ghost view = { λ d. record {
      system = d.system.now;
      values = d.page.values;
      first = d.from;
      is_begun = d.is_begun;
      behind = d.ticks;
    } };
}

impl<'s> ValueChanges<'s> {
    /// The dump of the ticks from `from` on of a run of that system, of which nothing is written
    /// yet.
    pub fn new(system: &'s System, from: u32) -> Self
        ensures { result ≡ started system.now from }
    {
        ValueChanges {
            system,
            page: TickPage::new(),
            from,
            is_begun: false,
            ticks: u64::from(from),
        }
    }

    /// Writes the declarations, which stand before the first tick. An error is a failed write,
    /// behind a beginning of them.
    pub fn begin<S: Sink>(&mut self, out: &mut S) -> Result<(), SinkFault>
        ensures same { self.new ≡ self.old }
        ensures text { Puts S.taken S.has_failed out.old out.new
            (declarations self.old.system) result }
    {
        push_declarations(self.system, &mut self.page.text);
        write_all(out, self.page.text.as_slice())
    }

    /// Writes what changes in a tick, of the first tick that is written all values. The tick before
    /// `end` is the last that is seen.
    #[inline(always)]
    fn write_tick<S: Sink>(
        &mut self,
        tick: u32,
        end: u64,
        seen: &Observation,
        out: &mut S,
    ) -> Result<(), SinkFault>
        ensures after { self.new ≡ behind_tick self.old end seen.now }
        ensures text { Puts S.taken S.has_failed out.old out.new
            (tick_text self.old.system self.old.is_begun tick self.old.values seen.now) result }
    {
        self.page.put_tick(self.system, self.is_begun, tick, seen);
        self.is_begun = true;
        self.ticks = end;
        write_all(out, self.page.text.as_slice())
    }

    /// Writes what changes in the next tick that is seen, of the first tick that is written all
    /// values. An error is a failed write, behind a beginning of the tick's text, and ends the
    /// dump.
    #[inline(always)]
    pub fn observe<S: Sink>(&mut self, seen: &Observation, out: &mut S) -> Result<(), SinkFault>
        ensures after { self.new ≡ observed self.old seen.now }
        ensures text { Puts S.taken S.has_failed out.old out.new
            (observed_text self.old seen.now) result }
    {
        if seen.tick < self.from {
            return Ok(());
        }
        self.write_tick(seen.tick, u64::from(seen.tick) + 1, seen, out)
    }

    /// The same of the ticks from one on and before another, in each of which the same is seen. No
    /// interrupt is lost in them and no alarm expires, so all that changes does so in the first of
    /// them, and the others have no text: what is written, and the dump behind them, are as if each
    /// were handed on, one after another. An error is a failed write, behind a beginning of the
    /// text, and ends the dump.
    #[inline(always)]
    pub fn observe_alike<S: Sink>(
        &mut self,
        seen: &Observation,
        first: u32,
        end: u32,
        out: &mut S,
    ) -> Result<(), SinkFault>
        ensures after { self.new ≡ alike self.old seen.now first end }
        ensures text { Puts S.taken S.has_failed out.old out.new
            (alike_text self.old seen.now first end) result }
        ensures once { (t : ℕ) → events_text seen.now ≡ []
            → tick_text self.old.system true t (after_tick self.old.values seen.now) seen.now ≡ [] }
        ensures each { (n : ℕ) → end ≡ first + n → events_text seen.now ≡ []
            → IsEach self.old seen.now first end n }
    {
        let first = first.max(self.from);
        if end <= first {
            return Ok(());
        }
        self.write_tick(first, u64::from(end), seen, out)
    }

    /// Writes the time behind the last tick, so that this one has its width. An error is a failed
    /// write, behind a beginning of the line.
    pub fn end<S: Sink>(&mut self, out: &mut S) -> Result<(), SinkFault>
        ensures same { self.new ≡ self.old }
        ensures text { Puts S.taken S.has_failed out.old out.new
            (time_line self.old.behind) result }
    {
        self.page.text.clear();
        push_time(self.ticks, &mut self.page.text);
        write_all(out, self.page.text.as_slice())
    }
}
