//! One pipe.

ghost use Rattle.std.specs.Prelude.{◌≡◌, ℕ, List, [], ◌+◌, ◌≤◌, ◌++◌, length, take, drop, IfOk};

use circular_buffer::HeapCircularBuffer;
use kernel_values::OutOfMemory;
use std::alloc::Global;
use std::marker::Model;

/// How many bytes a pipe has room for.
pub(crate) const PIPE_SIZE: u64 = 65536;

/// A pipe: the bytes that wait in it, at most 65,536. A contract sees the list of them, the first to be read in front.
///
/// It has its whole room from the start, so that reads and writes of it take no memory.
#[derive(Debug, Drop)]
pub struct Pipe {
    ring: HeapCircularBuffer<u8>,
}

impl Model for Pipe {
    ghost use Rattle.std.specs.Prelude.{◌≡◌, ℕ, ◌≤◌, List, length};

    ghost Value = { List ℕ };

    ghost view = { λ p. p.ring.items };

    ghost invariant = { λ p. (p.ring.capacity ≡ 65536) × (length p.ring.items ≤ 65536) };
}

impl Pipe {
    /// An empty pipe.
    pub(crate) fn new(alloc: Global) -> Result<Pipe, OutOfMemory>
        ensures { IfOk result (λ p. p ≡ []) }
    {
        match HeapCircularBuffer::with_capacity(alloc, PIPE_SIZE as usize) {
            Ok(ring) => Ok(Pipe { ring }),
            Err(_) => Err(OutOfMemory),
        }
    }

    /// How many bytes wait.
    pub fn len(&self) -> u64
        ensures len { result ≡ length self.now }
        ensures limit { result ≤ 65536 }
    {
        self.ring.len() as u64
    }

    /// Moves the first bytes that wait, as many as `into` holds.
    pub(crate) fn read(&mut self, into: &mut [u8])
        requires { length into.old ≤ length self.old }
        ensures bytes { into.new ≡ take (length into.old) self.old }
        ensures left { self.new ≡ drop (length into.old) self.old }
    {
        self.ring.read_into(into);
    }

    /// Puts bytes behind those that wait.
    pub(crate) fn write(&mut self, from: &[u8])
        requires { length self.old + length from.now ≤ 65536 }
        ensures { self.new ≡ self.old ++ from.now }
    {
        self.ring.fill_from_slice(from);
    }

    /// A copy of the bytes that wait.
    pub fn to_vec(&self, alloc: Global) -> Result<Vec<u8>, OutOfMemory>
        ensures { IfOk result (λ v. v.items ≡ self.now) }
    {
        match self.ring.to_vec(alloc) {
            Ok(bytes) => Ok(bytes),
            Err(_) => Err(OutOfMemory),
        }
    }
}
