//! A page of a file: 4,096 bytes.

ghost use Rattle.std.specs.Prelude.{◌≡◌, ℕ, List, ◌+◌, ◌-◌, ◌<◌, ◌≤◌, ◌++◌, length, take, drop, replicate, slice_index, IfSome, IfOk, OnOk};
ghost use Rattle.file_bytes.specs.Row.{laid};
ghost use Rattle.file_bytes.specs.Search.{IsNext};
ghost use Rattle.file_bytes.specs.Filled.{has_filled};

use crate::run::Run;
use crate::search::run_in;
use kernel_values::OutOfMemory;
use std::alloc::Global;
use std::marker::Model;

/// The bytes of a page.
pub const PAGE: u64 = 4096;

/// A page of a file. A contract sees it as its 4,096 bytes.
#[derive(Debug, Drop)]
pub struct Page {
    bytes: Vec<u8>,
}

impl Model for Page {
    ghost use Rattle.std.specs.Prelude.{◌≡◌, ℕ, List, length};

    ghost Value = { List ℕ };

    ghost view = { λ p. p.bytes.items };

    ghost invariant = { λ p. length p.bytes.items ≡ 4096 };
}

impl Page {
    /// A page of zeros.
    pub fn zeros(alloc: Global) -> Result<Page, OutOfMemory>
        ensures { IfOk result (λ p. p ≡ replicate 4096 0) }
    {
        match Vec::from_elem(alloc, 0, 4096) {
            Ok(bytes) => Ok(Page { bytes }),
            Err(_) => Err(OutOfMemory),
        }
    }

    /// Appends `count` of its bytes from an offset on.
    pub fn append(&self, start: usize, count: usize, out: &mut Vec<u8>) -> Result<(), OutOfMemory>
        requires { start + count ≤ 4096 }
        ensures bytes { OnOk result (out.new.items ≡ out.old.items ++ take count (drop start self.now)) }
        ensures whole { length self.now ≡ 4096 }
    {
        match out.extend_from_slice(&self.bytes[start..start + count]) {
            Ok(()) => Ok(()),
            Err(_) => Err(OutOfMemory),
        }
    }

    /// Writes bytes from an offset on.
    pub fn write(&mut self, start: usize, from: &[u8])
        requires { start + length from.now ≤ 4096 }
        ensures bytes { self.new ≡ laid self.old start from.now }
        ensures whole { length self.old ≡ 4096 }
    {
        self.bytes[start..start + from.len()].copy_from_slice(from);
    }

    /// Puts zeros from an offset on.
    pub fn clear_from(&mut self, start: usize)
        requires { start ≤ 4096 }
        ensures bytes { self.new ≡ take start self.old ++ replicate (4096 - start) 0 }
        ensures whole { length self.old ≡ 4096 }
    {
        self.bytes[start..].fill(0);
    }

    /// The first run of bytes other than 0 at or after an offset, with its offset in the page.
    pub fn next_run(&self, start: usize) -> Option<Run>
        ensures next { IsNext (slice_index self.now) start 4096 result }
        ensures within { IfSome result (λ r. r.at + r.length ≤ 4096) }
    {
        run_in(self.bytes.as_slice(), start)
    }
    /// Whether it holds a byte other than 0.
    pub fn is_filled(&self) -> bool
        ensures filled { result ≡ has_filled self.now }
        ensures whole { length self.now ≡ 4096 }
    {
        self.bytes.iter().any(|byte| *byte != 0)
    }
}
