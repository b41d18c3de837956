//! Where texts are written.

ghost use Rattle.std.specs.Prelude.{◌≡◌, ◌≤◌, ◌||◌, ℕ, Bool, List, None, IfOk, length, take, false};
ghost use Rattle.std.specs.Io.KnownBytes.{Appends, WriteAppends};
ghost use Rattle.sinks.specs.Sinks.{is_failed_write, Puts};

use std::io::{ErrorKind, Write};
use std::marker::Model;

/// A write failed. It says no more, since nothing is tried again.
#[derive(Clone, Copy)]
pub struct SinkFault;

/// Where bytes are written to. A write may take fewer bytes than it is given.
pub trait Sink {
    ghost use Rattle.std.specs.declared.option.Option.{Option};

    /// The bytes taken so far, where they are known.
    ghost taken: { Self → Option (List ℕ) } = { λ _. None };

    /// Whether a write has failed so far.
    ghost has_failed: { Self → Bool };

    /// Writes some of the bytes, from the first on, and answers how many it took.
    fn write(&mut self, bytes: &[u8]) -> Result<usize, SinkFault>
        ensures bound { IfOk result (λ n. n ≤ length bytes.now) }
        ensures bytes { WriteAppends (taken self.old) (taken self.new) result bytes.now }
        ensures failed { has_failed self.new
            ≡ (has_failed self.old || is_failed_write result (length bytes.now)) };

    /// Whether a write answered an error, or took none of at least one byte.
    fn failed(&self) -> bool
        ensures { result ≡ has_failed self.now };
}

/// A sink over a writer of std. Its bytes are those that the writer tells.
#[derive(Drop)]
pub struct StdSink<W> {
    writer: W,
    failed: bool,
}

impl<W> Model for StdSink<W> {
    ghost use Rattle.sinks.specs.Sinks.{Watched};

    ghost Value = { Watched W };

    ghost view = { λ s. record { writer = s.writer; failed = s.failed } };
}

impl<W> StdSink<W> {
    /// A sink to which nothing was written.
    pub fn new(writer: W) -> Self
        ensures writer { result.writer ≡ writer }
        ensures failed { result.failed ≡ false }
    {
        StdSink {
            writer,
            failed: false,
        }
    }
}

/// A write, again and again where it is interrupted.
#[inline(never)]
fn write_again<W: Write>(writer: &mut W, bytes: &[u8]) -> Result<usize, SinkFault>
    ensures bound { IfOk result (λ n. n ≤ length bytes.now) }
    ensures bytes { WriteAppends (W.contents writer.old) (W.contents writer.new) result bytes.now }
{
    'tries: for _ in 0..u64::MAX {
        match writer.write(bytes) {
            Ok(count) => return Ok(count),
            Err(error) if error.kind() == ErrorKind::Interrupted => {}
            Err(_) => return Err(SinkFault),
        }
    }
    Err(SinkFault)
}

/// The same, where the first write is hardly ever interrupted.
#[inline(always)]
fn write_once<W: Write>(writer: &mut W, bytes: &[u8]) -> Result<usize, SinkFault>
    ensures bound { IfOk result (λ n. n ≤ length bytes.now) }
    ensures bytes { WriteAppends (W.contents writer.old) (W.contents writer.new) result bytes.now }
{
    match writer.write(bytes) {
        Ok(count) => Ok(count),
        Err(error) if error.kind() == ErrorKind::Interrupted => write_again(writer, bytes),
        Err(_) => Err(SinkFault),
    }
}

impl<W: Write> Sink for StdSink<W> {
    ghost taken = { λ s. W.contents s.writer };

    ghost has_failed = { λ s. s.failed };

    #[inline(always)]
    fn write(&mut self, bytes: &[u8]) -> Result<usize, SinkFault> {
        match write_once(&mut self.writer, bytes) {
            Ok(0) if !bytes.is_empty() => {
                self.failed = true;
                Ok(0)
            }
            Ok(count) => Ok(count),
            Err(_) => {
                self.failed = true;
                Err(SinkFault)
            }
        }
    }

    fn failed(&self) -> bool {
        self.failed
    }
}

/// The same of what is left of some bytes, write by write.
#[inline(never)]
fn write_rest<S: Sink>(out: &mut S, bytes: &[u8]) -> Result<(), SinkFault>
    ensures { Puts S.taken S.has_failed out.old out.new bytes.now result }
{
    let mut done = 0;
    'writes: while done < bytes.len() {
        let count = out.write(&bytes[done..])?;
        if count == 0 {
            return Err(SinkFault);
        }
        done += count;
    }
    Ok(())
}

/// Writes all the bytes, by as many writes as it takes, mostly one, and none where there are no bytes. The first that fails
/// ends it.
#[inline(always)]
pub fn write_all<S: Sink>(out: &mut S, bytes: &[u8]) -> Result<(), SinkFault>
    ensures { Puts S.taken S.has_failed out.old out.new bytes.now result }
{
    if bytes.is_empty() {
        return Ok(());
    }
    let done = out.write(bytes)?;
    if done == 0 {
        return Err(SinkFault);
    }
    if done == bytes.len() {
        return Ok(());
    }
    write_rest(out, &bytes[done..])
}
