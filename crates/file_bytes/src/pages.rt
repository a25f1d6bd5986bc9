//! The pages of a file, by number.

ghost use Rattle.std.specs.Prelude.{[], ◌≡◌, ℕ, List, true, false, None, ◌+◌, ◌-◌, ◌*◌, ◌/◌, ◌%◌, ◌<◌, ◌≤◌, ◌^◌, ◌++◌, length, take, drop, replicate, IsSome, IfSome, Some, OnOk, OnErr, IfOk};
ghost use Rattle.kernel_values.specs.Bounds.{most_file_bytes};
ghost use Rattle.file_bytes.specs.Row.{Cuts, Overlays, laid, row};
ghost use Rattle.number_maps.specs.NumberMap.{at};
ghost use Rattle.file_bytes.specs.Pages.{Puts, SameBytes, byte_at, piece_length};

use crate::page::{PAGE, Page};
use kernel_values::OutOfMemory;
use std::alloc::Global;
use std::collections::BTreeMap;

/// The pages that were written, by number: the offset of their first byte divided by 4,096. A page that isn't
/// there holds zeros.
#[derive(Debug, Drop)]
pub struct Pages {
    pub(crate) map: BTreeMap<u64, Page>,
}

/// How many of the `left` bytes from `at` on lie in the page of the first.
fn piece_length(at: u64, left: u64) -> u64
    ensures { result ≡ piece_length at left }
{
    left.min(PAGE - at % PAGE)
}

impl Pages {
    /// No page.
    pub fn new(alloc: Global) -> Pages
        ensures { result.map.entries ≡ [] }
    {
        Pages {
            map: BTreeMap::new(alloc),
        }
    }

    /// Appends bytes of one page.
    #[tactic(auto, using(crate::proofs::Pieces::piece_of_page, crate::proofs::Pieces::piece_of_none))]
    fn read_piece(&self, at: u64, count: u64, out: &mut Vec<u8>) -> Result<(), OutOfMemory>
        requires { at % 4096 + count ≤ 4096 }
        ensures { OnOk result (out.new.items ≡ out.old.items ++ row (byte_at self.now.map.entries) at count) }
    {
        match self.map.get(&(at / PAGE)) {
            Some(page) => page.append((at % PAGE) as usize, count as usize, out),
            None => append_zeros(count as usize, out),
        }
    }

    /// Puts a page at a number.
    fn put_page(&mut self, number: u64, page: Page) -> Result<(), OutOfMemory>
        ensures ok { OnOk result (Puts self.old.map.entries self.new.map.entries number page) }
        ensures err { OnErr result (self.new.map.entries ≡ self.old.map.entries) }
    {
        match self.map.insert(number, page) {
            Ok(_) => Ok(()),
            Err(_) => Err(OutOfMemory),
        }
    }

    /// Makes a page of zeros where there is none.
    fn make_page(&mut self, alloc: Global, number: u64) -> Result<(), OutOfMemory>
        ensures there { OnOk result (IsSome (at self.new.map.entries number)) }
        ensures same { OnOk result (SameBytes self.old.map.entries self.new.map.entries) }
        ensures err { OnErr result (self.new.map.entries ≡ self.old.map.entries) }
    {
        if self.map.contains_key(&number) {
            return Ok(());
        }
        let page = Page::zeros(alloc)?;
        self.put_page(number, page)?;
        Ok(())
    }

    /// Writes bytes from an offset of a page on, where it is there.
    fn write_page(&mut self, number: u64, start: usize, from: &[u8])
        requires fits { start + length from.now ≤ 4096 }
        ensures whole { IfSome (at self.old.map.entries number) (λ page. length page ≡ 4096) }
        ensures put { (page : List ℕ) → length page ≡ 4096 → at self.old.map.entries number ≡ Some page → Puts self.old.map.entries self.new.map.entries number (laid page start from.now) }
    {
        if let Some(page) = self.map.get_mut(&number) {
            page.write(start, from);
        }
    }

    /// Writes bytes of one page.
    fn write_piece(&mut self, alloc: Global, at: u64, from: &[u8]) -> Result<(), OutOfMemory>
        requires { at % 4096 + length from.now ≤ 4096 }
        ensures err { OnErr result (self.new.map.entries ≡ self.old.map.entries) }
        ensures ok { OnOk result (Overlays (byte_at self.old.map.entries) (byte_at self.new.map.entries) at from.now) }
    {
        self.make_page(alloc, at / PAGE)?;
        self.write_page(at / PAGE, (at % PAGE) as usize, from);
        Ok(())
    }

    /// Writes bytes, page by page. On an `Err` some of them may have been written.
    pub fn write(&mut self, alloc: Global, at: u64, from: &[u8]) -> Result<(), OutOfMemory>
        requires { at + length from.now < 2 ^ 63 }
        ensures ok { OnOk result (Overlays (byte_at self.old.map.entries) (byte_at self.new.map.entries) at from.now) }
        ensures after { (i : ℕ) → at + length from.now ≤ i → byte_at self.new.map.entries i ≡ byte_at self.old.map.entries i }
    {
        let mut done = 0;
        while done < from.len() {
            let start = at + done as u64;
            let piece = piece_length(start, (from.len() - done) as u64) as usize;
            self.write_piece(alloc, start, &from[done..done + piece])?;
            done += piece;
        }
        Ok(())
    }

    /// Appends bytes, page by page.
    #[tactic(auto, using(crate::proofs::Rows::row_more, crate::proofs::Rows::row_none))]
    pub fn read(&self, at: u64, count: u64, out: &mut Vec<u8>) -> Result<(), OutOfMemory>
        requires { at + count < 2 ^ 63 }
        ensures { OnOk result (out.new.items ≡ out.old.items ++ row (byte_at self.now.map.entries) at count) }
    {
        let mut done = 0;
        while done < count {
            let piece = piece_length(at + done, count - done);
            self.read_piece(at + done, piece, out)?;
            done += piece;
        }
        Ok(())
    }
}

impl Pages {
    /// Whether there is a page with this number or a later one.
    fn has_page_from(&self, first: u64) -> bool
        ensures none { result ≡ false → (q : ℕ) → first ≤ q → at self.now.map.entries q ≡ None }
        ensures some { result ≡ true → 0 < length self.now.map.entries }
        ensures last { result ≡ true → (q : ℕ) → IsSome (at self.now.map.entries q) → ((p : ℕ) → IsSome (at self.now.map.entries p) → p ≤ q) → first ≤ q }
    {
        match self.map.last_key_value() {
            Some((number, _)) => *number >= first,
            None => false,
        }
    }

    /// Drops the pages from a number on.
    fn drop_pages_from(&mut self, first: u64)
        ensures kept { (q : ℕ) → q < first → at self.new.map.entries q ≡ at self.old.map.entries q }
        ensures dropped { (q : ℕ) → first ≤ q → at self.new.map.entries q ≡ None }
    {
        while self.has_page_from(first) {
            self.map.pop_last();
        }
    }

    /// Puts zeros from an offset of a page on, where it is there.
    fn clear_page_from(&mut self, number: u64, start: usize)
        requires fits { start ≤ 4096 }
        ensures whole { IfSome (at self.old.map.entries number) (λ page. length page ≡ 4096) }
        ensures none { at self.old.map.entries number ≡ None → self.new.map.entries ≡ self.old.map.entries }
        ensures put { (page : List ℕ) → length page ≡ 4096 → at self.old.map.entries number ≡ Some page → Puts self.old.map.entries self.new.map.entries number (take start page ++ replicate (4096 - start) 0) }
    {
        if let Some(page) = self.map.get_mut(&number) {
            page.clear_from(start);
        }
    }

    /// Clears all bytes from an offset on: pages wholly past it are dropped. It takes no memory.
    pub fn cut(&mut self, end: u64)
        requires { end ≤ most_file_bytes }
        ensures { Cuts (byte_at self.old.map.entries) (byte_at self.new.map.entries) end }
    {
        self.drop_pages_from((end + PAGE - 1) / PAGE);
        self.clear_page_from(end / PAGE, (end % PAGE) as usize);
    }
}

/// Appends zeros.
fn append_zeros(count: usize, out: &mut Vec<u8>) -> Result<(), OutOfMemory>
    requires { count ≤ 4096 }
    ensures { OnOk result (out.new.items ≡ out.old.items ++ replicate count 0) }
{
    match out.resize(out.len() + count, 0) {
        Ok(()) => Ok(()),
        Err(_) => Err(OutOfMemory),
    }
}
