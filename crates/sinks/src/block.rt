//! Bytes that wait to be written.

ghost use Rattle.std.specs.Prelude.{◌≡◌, ◌+◌, ◌<◌, ◌≤◌, [], ◌∷◌, ◌++◌, length, take, OnOk};
ghost use Rattle.sinks.specs.Sinks.{Puts};

use crate::sink::{Sink, SinkFault, write_all};
use std::marker::Model;

/// Bytes that wait to be written, at most `SIZE`. Seen as their list.
#[derive(Drop)]
pub struct Block<const SIZE: usize> {
    cells: [u8; SIZE],
    len: usize,
}

impl<const SIZE: usize> Model for Block<SIZE> {
    ghost use Rattle.std.specs.Prelude.{◌≡◌, ◌≤◌, ℕ, List, length, take};

    ghost Value = { List ℕ };

    ghost view = { λ b. take b.len b.cells };

    ghost invariant = { λ b. (b.len ≤ SIZE) × (length b.cells ≡ SIZE) };
}

/// Writes bytes over the cells from `start` on.
#[inline(always)]
fn copy_in(cells: &mut [u8], start: usize, bytes: &[u8])
    requires { start + length bytes.now ≤ length cells.old }
    ensures front { take (start + length bytes.now) cells.new ≡ take start cells.old ++ bytes.now }
    ensures len { length cells.new ≡ length cells.old }
{
    cells[..start + bytes.len()][start..].copy_from_slice(bytes);
}

/// Copies as many bytes as are known when this is built over all of `places`.
#[inline(always)]
fn fill<const N: usize>(places: &mut [u8], bytes: &[u8; N])
    requires { length places.old ≡ N }
    ensures { places.new ≡ bytes.now }
{
    if let Some(places) = places.as_mut_array() {
        *places = *bytes;
    }
}

/// Writes as many bytes as are known when this is built over the cells from `start` on.
#[inline(always)]
fn set_places<const N: usize>(cells: &mut [u8], start: usize, bytes: &[u8; N])
    requires { start + N ≤ length cells.old }
    ensures front { take (start + N) cells.new ≡ take start cells.old ++ bytes.now }
    ensures len { length cells.new ≡ length cells.old }
{
    fill(&mut cells[start..start + N], bytes);
}

impl<const SIZE: usize> Block<SIZE> {
    /// A block with no byte.
    pub fn new() -> Self
        ensures { result ≡ [] }
    {
        Block {
            cells: [0; SIZE],
            len: 0,
        }
    }

    /// The number of bytes.
    #[inline(always)]
    pub fn len(&self) -> usize
        ensures value { result ≡ length self.now }
        ensures fits { result ≤ SIZE }
    {
        self.len
    }

    /// The bytes.
    #[inline(always)]
    pub fn as_slice(&self) -> &[u8]
        ensures { result.now ≡ self.now }
    {
        &self.cells[..self.len]
    }

    /// Takes all bytes out.
    #[inline(always)]
    pub fn clear(&mut self)
        ensures { self.new ≡ [] }
    {
        self.len = 0;
    }

    /// Appends a byte.
    #[inline(always)]
    pub fn push(&mut self, byte: u8)
        requires { length self.old < SIZE }
        ensures same { self.new ≡ self.old ++ byte ∷ [] }
        ensures len { length self.new ≡ length self.old + 1 }
    {
        let start = self.len;
        self.cells[start] = byte;
        self.len = start + 1;
    }

    /// Appends some bytes.
    #[inline(always)]
    pub fn push_bytes(&mut self, bytes: &[u8])
        requires { length self.old + length bytes.now ≤ SIZE }
        ensures same { self.new ≡ self.old ++ bytes.now }
        ensures len { length self.new ≡ length self.old + length bytes.now }
    {
        let start = self.len;
        copy_in(&mut self.cells, start, bytes);
        self.len = start + bytes.len();
    }

    /// Appends as many bytes as are known when this is built.
    #[inline(always)]
    pub fn push_array<const N: usize>(&mut self, bytes: &[u8; N])
        requires { length self.old + N ≤ SIZE }
        ensures same { self.new ≡ self.old ++ bytes.now }
        ensures len { length self.new ≡ length self.old + N }
    {
        let start = self.len;
        set_places(&mut self.cells, start, bytes);
        self.len = start + N;
    }

    /// Appends the first `len` of some bytes. All are copied, whose number is known when this is built.
    #[inline(always)]
    pub fn push_front<const N: usize>(&mut self, bytes: &[u8; N], len: usize)
        requires front { len ≤ N }
        requires room { length self.old + N ≤ SIZE }
        ensures same { self.new ≡ self.old ++ take len bytes.now }
        ensures len { length self.new ≡ length self.old + len }
    {
        let start = self.len;
        set_places(&mut self.cells, start, bytes);
        self.len = start + len;
    }
}

/// Writes what waits. The first write that fails ends it.
#[inline(never)]
pub fn flush<const SIZE: usize, S: Sink>(
    text: &mut Block<SIZE>,
    out: &mut S,
) -> Result<(), SinkFault>
    ensures empty { OnOk result (text.new ≡ []) }
    ensures puts { Puts S.taken S.has_failed out.old out.new text.old result }
{
    write_all(out, text.as_slice())?;
    text.clear();
    Ok(())
}
