//! The bytes of a file.

ghost use Rattle.std.specs.Prelude.{◌≡◌, ℕ, List, [], ◌+◌, ◌<◌, ◌≤◌, ◌^◌, ◌++◌, length, take, drop, replicate, OnOk, IfSome, MatchOption, ◌∷◌};
ghost use Rattle.kernel_values.specs.Bounds.{most_file_bytes};
ghost use Rattle.file_bytes.specs.Row.{resized, row, written};
ghost use Rattle.file_bytes.specs.Pages.{byte_at};
ghost use Rattle.file_bytes.specs.Runs.{runs_from};
ghost use Rattle.file_bytes.specs.Filled.{filled_pages};

use crate::pages::Pages;
use crate::run::Run;
use kernel_values::OutOfMemory;
use std::alloc::Global;
use std::marker::Model;

/// The bytes of a file, from 0 up to 2^40 of them. A contract sees it as the list of its bytes.
///
/// They lie in pages of 4,096 bytes. A page that was never written takes no memory, and holds zeros.
#[derive(Debug, Drop)]
pub struct Content {
    size: u64,
    pages: Pages,
}

impl Model for Content {
    ghost use Rattle.kernel_values.specs.Bounds.{most_file_bytes};
    ghost use Rattle.std.specs.Prelude.{◌≡◌, ℕ, List, ◌≤◌, ◌^◌};
    ghost use Rattle.file_bytes.specs.Row.{row};
    ghost use Rattle.file_bytes.specs.Pages.{byte_at};

    ghost Value = { List ℕ };

    ghost view = { λ c. row (byte_at c.pages.map.entries) 0 c.size };

    ghost invariant = { λ c. (c.size ≤ most_file_bytes) × ((i : ℕ) → c.size ≤ i → byte_at c.pages.map.entries i ≡ 0) };
}

impl Content {
    /// A file of no bytes.
    #[tactic(auto, using(crate::proofs::Contents::no_bytes, crate::proofs::Contents::no_page))]
    pub fn new(alloc: Global) -> Content
        ensures { result ≡ [] }
    {
        Content {
            size: 0,
            pages: Pages::new(alloc),
        }
    }

    /// A file of `size` zeros, which takes no memory.
    #[tactic(auto, using(crate::proofs::Contents::zero_run, crate::proofs::Contents::no_page))]
    pub fn zeros(alloc: Global, size: u64) -> Content
        requires { size ≤ most_file_bytes }
        ensures { result ≡ replicate size 0 }
    {
        Content {
            size,
            pages: Pages::new(alloc),
        }
    }

    /// How many bytes it has, at most 2^40.
    #[tactic(auto, using(crate::proofs::Contents::content_length))]
    pub fn len(&self) -> u64
        ensures len { result ≡ length self.now }
        ensures limit { result ≤ most_file_bytes }
    {
        self.size
    }

    /// Appends to `out` the `count` bytes from offset `at` on, all of which the file has.
    ///
    /// On an `Err` some of them may have been appended.
    #[tactic(auto, using(crate::proofs::Contents::content_read, crate::proofs::Contents::content_length))]
    pub fn read(&self, at: u64, count: u64, out: &mut Vec<u8>) -> Result<(), OutOfMemory>
        requires { at + count ≤ length self.now }
        ensures { OnOk result (out.new.items ≡ out.old.items ++ take count (drop at self.now)) }
    {
        self.pages.read(at, count, out)
    }

    /// Writes all of `from` from offset `at` on, up to 2^40. Where that lies past the end, zeros come between, also
    /// before no bytes: a caller whose write of no bytes changes nothing doesn't call it.
    ///
    /// On an `Err` some of the bytes may have been written, and it may have grown to hold them all.
    #[tactic(auto, using(crate::proofs::Contents::content_written, crate::proofs::Contents::zeros_kept))]
    pub fn write(&mut self, alloc: Global, at: u64, from: &[u8]) -> Result<(), OutOfMemory>
        requires { at + length from.now ≤ most_file_bytes }
        ensures { OnOk result (self.new ≡ written self.old at from.now) }
    {
        // The size grows where memory ran out too, since some of the bytes may have been written.
        let end = at + from.len() as u64;
        let size = self.size.max(end);
        let wrote = self.pages.write(alloc, at, from);
        self.size = size;
        wrote
    }

    /// Sets how many bytes the file has, at most 2^40. Those past it are gone: where the file grows, zeros stand.
    ///
    /// It takes no memory.
    #[tactic(auto, using(crate::proofs::Contents::content_resized, crate::proofs::Contents::zeros_cut))]
    pub fn set_length(&mut self, size: u64)
        requires { size ≤ most_file_bytes }
        ensures { self.new ≡ resized self.old size }
    {
        self.pages.cut(size);
        self.size = size;
    }

    /// The first run of bytes other than 0 within one page of 4,096 bytes, at or after an offset.
    ///
    /// A run that begins before the offset is cut there. It is `None` where all bytes from the offset on are 0, as
    /// from the end on. It looks at no page before that of the offset, and at none that was never written.
    pub fn next_run(&self, from: u64) -> Option<Run>
        ensures next { MatchOption result
            (runs_from self.now from ≡ [])
            (λ r. runs_from self.now from ≡
            (r.at, take r.length (drop r.at self.now)) ∷ runs_from self.now (r.at + r.length)) }
        ensures within { IfSome result (λ r.
            (from ≤ r.at) × (0 < r.length) × (r.length ≤ 4096) × (r.at + r.length ≤ length self.now)) }
    {
        self.pages.next_run(from)
    }
    /// How many of its pages of 4,096 bytes hold a byte other than 0.
    ///
    /// It looks at no page that was never written. It takes no memory.
    pub fn filled_pages(&self) -> u64
        ensures count { result ≡ filled_pages self.now }
        ensures limit { result ≤ 2 ^ 28 }
    {
        self.pages.filled_pages()
    }
}
