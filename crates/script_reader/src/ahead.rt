//! Bytes read ahead of the records.

ghost use Rattle.std.specs.Prelude.{◌≡◌, ℕ, ◌+◌, ◌^◌, ◌<◌, ◌≤◌, List, [], ◌++◌, length, take, drop, IfOk, OnOk, IfErr, OnErr};
ghost use Rattle.io_edge.specs.Told.{IsAtEnd, put_back};
ghost use Rattle.script_reader.specs.declared.seen.Seen.{Seen};
ghost use Rattle.script_reader.specs.Script.{next_from};
ghost use Rattle.script_reader.specs.Ahead.{bytes_of, IsSound, stopped, TakesPiece, IsWithin, IsReadFault};

use crate::fault::ScriptFault;
use io_edge::Source;
use std::alloc::Global;

/// The most bytes of a script.
pub const LIMIT: usize = 1 << 28;

/// The most bytes of a line before its line feed.
const LINE_LIMIT: usize = 16_384;

/// How many bytes are asked for at once.
const PIECE: usize = 512;

/// Where a search for the end of a line stopped.
#[derive(Clone, Copy, Debug, PartialEq, Eq)]
pub enum Stop {
    /// At the line feed with this index.
    LineFeed(usize),
    /// At a byte behind the most of a script.
    TooLarge,
    /// At a byte behind the most of a line.
    Long,
    /// At the end of the bytes.
    End,
}

/// The end of the line that begins with the bytes, where those before `from` hold none. `count` bytes have gone by
/// before the line.
pub fn line_end(bytes: &[u8], from: usize, count: usize) -> Stop
    requires inside { from ≤ length bytes.now }
    requires most { count + length bytes.now ≤ 2 ^ 28 + 1 }
    requires reach { count + from ≤ 2 ^ 28 }
    ensures next { (seen : Seen) → next_from seen (take from bytes.now) (count + from) (drop from bytes.now) ≡ stopped seen count bytes.now result }
    ensures within { IsWithin (length bytes.now) count result }
{
    for i in from..bytes.len() {
        if count + i >= LIMIT {
            return Stop::TooLarge;
        }
        if bytes[i] == b'\n' {
            return Stop::LineFeed(i);
        }
        if i == LINE_LIMIT {
            return Stop::Long;
        }
    }
    Stop::End
}

/// Bytes that were read of a stream.
#[derive(Drop)]
pub struct Ahead {
    pub buffer: Vec<u8>,
    /// Where in the buffer the bytes begin that are not done with.
    pub at: usize,
    /// How many bytes are done with in all.
    pub count: usize,
}

impl Ahead {
    pub fn new(alloc: Global) -> Ahead
        ensures sound { IsSound result }
        ensures none { bytes_of result ≡ [] }
        ensures count { result.count ≡ 0 }
    {
        Ahead {
            buffer: Vec::new(alloc),
            at: 0,
            count: 0,
        }
    }

    /// The bytes that are not done with.
    pub fn bytes(&self) -> &[u8]
        requires { IsSound self.now }
        ensures { result.now ≡ bytes_of self.now }
    {
        &self.buffer[self.at..]
    }

    /// Is done with so many bytes.
    pub fn pass(&mut self, size: usize)
        requires sound { IsSound self.old }
        requires inside { size ≤ length (bytes_of self.old) }
        requires few { self.old.count + size ≤ 2 ^ 28 }
        ensures sound { IsSound self.new }
        ensures bytes { bytes_of self.new ≡ drop size (bytes_of self.old) }
        ensures count { self.new.count ≡ self.old.count + size }
        ensures all { self.new.count + length (bytes_of self.new) ≡ self.old.count + length (bytes_of self.old) }
    {
        self.at += size;
        self.count += size;
    }

    /// Lets go of the front that is done with.
    fn trim(&mut self)
        requires { IsSound self.old }
        ensures sound { IsSound self.new }
        ensures bytes { self.new.buffer.items ≡ bytes_of self.old }
        ensures front { self.new.at ≡ 0 }
        ensures count { self.new.count ≡ self.old.count }
    {
        self.buffer.drain(..self.at);
        self.at = 0;
    }

    /// Reads once, to the end of the bytes, and answers how many.
    pub fn read<S: Source>(&mut self, source: &mut S) -> Result<usize, ScriptFault>
        requires sound { IsSound self.old }
        requires room { self.old.count + length (bytes_of self.old) ≤ 2 ^ 28 }
        ensures sound { IsSound self.new }
        ensures count { self.new.count ≡ self.old.count }
        ensures piece { IfOk result (λ n. TakesPiece (S.left source.old) (S.left source.new) (bytes_of self.old) (bytes_of self.new) n) }
        ensures lost { OnErr result ((piece : List ℕ) × (S.left source.old ≡ put_back piece (S.left source.new))
            × (self.old.count + length (bytes_of self.old) + length piece ≤ 2 ^ 28 + 1)) }
        ensures end { IfOk result (λ n. n ≡ 0 → IsAtEnd (S.left source.new)) }
        ensures same_count { OnOk result (S.faults source.new ≡ S.faults source.old) }
        ensures fault { IfErr result (λ fault. IsReadFault fault (S.faults source.old) (S.faults source.new)) }
    {
        self.trim();
        let want = (LIMIT + 1 - self.count - self.buffer.len()).min(PIECE);
        let mut buffer = [0u8; PIECE];
        let piece = &mut buffer[..want];
        let Ok(n) = source.read(piece) else {
            return Err(ScriptFault::ReadFault);
        };
        match self.buffer.extend_from_slice(&piece[..n]) {
            Ok(()) => Ok(n),
            Err(_) => Err(ScriptFault::OutOfMemory),
        }
    }
}
