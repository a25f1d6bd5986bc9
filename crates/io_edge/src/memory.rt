//! A source and a sink in memory, with pieces and failing calls as a test wants them.

ghost use Rattle.std.specs.Prelude.{◌≡◌, ◌-◌, ◌^◌, ◌<◌, ◌≤◌, [], ◌++◌, length, take, drop, slice_get, Some, IfOk, OnOk, OnErr};
ghost use Rattle.io_edge.specs.Told.{Rose, IsAtEnd, put_back, appended};
ghost use Rattle.io_edge.specs.Memory.{given_count, read_of, write_of};

use crate::traits::{Failed, Sink, Source};
use kernel_values::OutOfMemory;
use std::alloc::Global;
use std::marker::Model;

/// A source of bytes in memory. Contracts see it as a `SourceState` of `specs/Memory.antt`.
#[derive(Drop)]
pub struct MemorySource {
    bytes: Vec<u8>,
    at: usize,
    pieces: Vec<usize>,
    failing: Vec<u64>,
    calls: u64,
    faults: u64,
}

impl Model for MemorySource {
    ghost use Rattle.std.specs.Prelude.{◌≤◌, drop, vec_len};
    ghost use Rattle.io_edge.specs.Memory.{SourceState};

    ghost Value = { SourceState };

    ghost view = { λ s. record {
      left = drop s.at s.bytes.items;
      pieces = s.pieces.items;
      failing = s.failing.items;
      calls = s.calls;
      faults = s.faults;
    } };

    ghost invariant = { λ s. s.at ≤ vec_len s.bytes };
}

impl MemorySource {
    /// A source of these bytes. Its reads are counted from 1, failed ones and those into an empty piece too. Read i
    /// gives as many bytes as the piece holds and are left, but no more than item i of `pieces`, where 0 counts as 1;
    /// past that list only the piece and what is left bound a read. A read whose number is in `failing` fails, into an
    /// empty piece too.
    pub fn new(bytes: Vec<u8>, pieces: Vec<usize>, failing: Vec<u64>) -> MemorySource
        ensures { result ≡ record {
          left = bytes.items;
          pieces = pieces.items;
          failing = failing.items;
          calls = 0;
          faults = 0;
        } }
    {
        MemorySource {
            bytes,
            at: 0,
            pieces,
            failing,
            calls: 0,
            faults: 0,
        }
    }
}

/// How many of `n` bytes the read with this number gives.
fn given_count(pieces: &[usize], call: u64, n: usize) -> usize
    ensures value { result ≡ given_count (slice_get pieces.now (call - 1)) n }
    ensures within { result ≤ n }
{
    match pieces.get(call.saturating_sub(1) as usize) {
        Some(item) => (*item).max(1).min(n),
        None => n,
    }
}

impl Source for MemorySource {
    ghost left = { λ s. Some s.left };

    ghost faults = { λ s. s.faults };

    /// `gives` is the whole of it: the answer and the state after it. A failed read leaves `into` as it was.
    fn read(&mut self, into: &mut [u8]) -> Result<usize, Failed>
        ensures within { IfOk result (λ n. n ≤ length into.new) }
        ensures given { IfOk result (λ n. Some self.old.left ≡ put_back (take n into.new) (Some self.new.left)) }
        ensures end { IfOk result (λ n. n ≡ 0 → 0 < length into.new → IsAtEnd (Some self.new.left)) }
        ensures kept { OnErr result (Some self.new.left ≡ Some self.old.left) }
        ensures same_count { OnOk result (self.new.faults ≡ self.old.faults) }
        ensures rose { OnErr result (Rose self.old.faults self.new.faults) }
        ensures never_falls { self.old.faults ≤ self.new.faults }
        ensures bounded { self.new.faults < 2 ^ 64 }

        ensures gives { (result, self.new) ≡ read_of self.old (length into.old) }
        ensures copied { IfOk result (λ n. into.new ≡ take n self.old.left ++ drop n into.old) }
        ensures untouched { OnErr result (into.new ≡ into.old) }
    {
        self.calls = self.calls.saturating_add(1);
        if self.failing.contains(&self.calls) {
            self.faults = self.faults.saturating_add(1);
            return Err(Failed);
        }
        let left = self.bytes.len() - self.at;
        let n = given_count(&self.pieces, self.calls, into.len().min(left));
        let end = self.at + n;
        into[..n].copy_from_slice(&self.bytes[self.at..end]);
        self.at = end;
        Ok(n)
    }
}

/// A sink that takes bytes into memory. Contracts see it as a `SinkState` of `specs/Memory.antt`.
#[derive(Drop)]
pub struct MemorySink {
    bytes: Vec<u8>,
    room: usize,
    failing: Vec<u64>,
    calls: u64,
    faults: u64,
}

impl Model for MemorySink {
    ghost use Rattle.std.specs.Prelude.{◌≤◌, vec_len};
    ghost use Rattle.std.specs.Vec.{vec_capacity};
    ghost use Rattle.io_edge.specs.Memory.{SinkState};

    ghost Value = { SinkState };

    ghost view = { λ s. record {
      taken = s.bytes.items;
      room = s.room;
      failing = s.failing.items;
      calls = s.calls;
      faults = s.faults;
    } };

    ghost invariant = { λ s. (vec_len s.bytes ≤ s.room) × (s.room ≤ vec_capacity s.bytes) };
}

impl MemorySink {
    /// A sink with room for so many bytes. It is made at once, so that no write wants memory. Its writes are counted
    /// from 1, failed ones and those of an empty piece too. A write takes as much of its piece as there is room for. It
    /// fails where its number is in `failing`, with an empty piece too, and at a full room where its piece isn't empty;
    /// both at once are one failure.
    ///
    /// `OutOfMemory` where there is no memory for the room.
    pub fn new(alloc: Global, room: usize, failing: Vec<u64>) -> Result<MemorySink, OutOfMemory>
        ensures { IfOk result (λ s. s ≡ record {
          taken = [];
          room = room;
          failing = failing.items;
          calls = 0;
          faults = 0;
        }) }
    {
        let bytes = Vec::with_capacity(alloc, room)?;
        Ok(MemorySink {
            bytes,
            room,
            failing,
            calls: 0,
            faults: 0,
        })
    }

    /// The bytes taken so far, in order.
    pub fn taken(&self) -> &[u8]
        ensures { result.now ≡ self.now.taken }
    {
        &self.bytes
    }
}

impl Sink for MemorySink {
    ghost taken = { λ s. Some s.taken };

    ghost faults = { λ s. s.faults };

    /// `takes` is the whole of it: the answer and the state after it.
    fn write(&mut self, piece: &[u8]) -> Result<usize, Failed>
        ensures within { IfOk result (λ n. n ≤ length piece.now) }
        ensures some { IfOk result (λ n. 0 < length piece.now → 0 < n) }
        ensures taken { IfOk result (λ n.
            Some self.new.taken ≡ appended (Some self.old.taken) (take n piece.now)) }
        ensures kept { OnErr result (Some self.new.taken ≡ Some self.old.taken) }
        ensures same_count { OnOk result (self.new.faults ≡ self.old.faults) }
        ensures rose { OnErr result (Rose self.old.faults self.new.faults) }
        ensures never_falls { self.old.faults ≤ self.new.faults }
        ensures bounded { self.new.faults < 2 ^ 64 }

        ensures takes { (result, self.new) ≡ write_of self.old piece.now }
    {
        self.calls = self.calls.saturating_add(1);
        let left = self.room - self.bytes.len();
        let full = left == 0 && !piece.is_empty();
        if full || self.failing.contains(&self.calls) {
            self.faults = self.faults.saturating_add(1);
            return Err(Failed);
        }
        let n = left.min(piece.len());
        self.bytes.extend_from_slice(&piece[..n]).unwrap();
        Ok(n)
    }
}

#[cfg(test)]
mod tests;
