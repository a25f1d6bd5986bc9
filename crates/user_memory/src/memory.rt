//! User memory and its calls.

ghost use Rattle.std.specs.Prelude.{◌≡◌, ℕ, ◌+◌, ◌*◌, ◌^◌, ◌<◌, ◌≤◌, ◌↔◌, ◌&&◌, nat_le, [], ◌∷◌, length, take, drop, true, false, IfOk, IfErr, OnOk, OnErr, IfSome, MatchOption, is_ok, Ok, Err};
ghost use Rattle.user_memory.specs.Pages.{IsWellFormed, page_at, is_page, with_page, marked};
ghost use Rattle.user_memory.specs.Memory.{is_readable, is_writable, all_pass, bytes_at, with_bytes};
ghost use Rattle.user_memory.specs.Changes.{changes};
ghost use Rattle.user_memory.specs.Prefixes.{readable_prefix, writable_prefix, text_at};
ghost use Rattle.user_memory.specs.Rights.{allows_stores, has_rights};

use crate::change::Change;
use crate::page::Page;
use crate::rights::Rights;
use crate::text::TextFault;
use crate::{pages, search, text};
use kernel_values::OutOfMemory;
use std::alloc::Global;
use std::marker::Model;

/// The most pages that are mapped at a time.
const MAX_PAGES: usize = 16_384;

/// A byte of a range lacks the right that is needed, or the range passes 2^32.
#[derive(Clone, Copy, Debug, PartialEq, Eq)]
pub struct Fault;

/// Why a page was not mapped.
#[derive(Clone, Copy, Debug, PartialEq, Eq)]
pub enum MapFault {
    /// A page with this number is mapped.
    Mapped,
    /// As many pages are mapped as can be, 16,384.
    TooMany,
    /// The allocator has no memory left.
    OutOfMemory,
}

/// The memory of a 32-bit process: pages of 4,096 bytes at addresses below 2^32, with rights.
///
/// It also tells which bytes aren't as they were when changes were last cleared. A contract sees it
/// as the list of its pages, with ascending numbers.
#[derive(Drop)]
pub struct UserMemory {
    alloc: Global,
    pages: Vec<Page>,
    /// Bytes were stored since changes were last cleared in pages from place `first` up to `past` alone: at all
    /// other places `bytes` and `before` are equal. No page was stored to where `past` isn't above `first`.
    first: usize,
    past: usize,
}

/// The end of a range of places, after a page was put in at a place.
fn end_after_insertion(past: usize, place: usize) -> usize
    requires { past < 2 ^ 63 }
    ensures before { place < past → result ≡ past + 1 }
    ensures behind { past ≤ place → result ≡ past }
{
    if place < past { past + 1 } else { past }
}

impl Model for UserMemory {
    ghost use Rattle.std.specs.Prelude.{List};
    ghost use Rattle.user_memory.specs.Pages.{PageState};
    ghost use Rattle.user_memory.specs.States.{states_of, AreKept};

    ghost Value = { List PageState };

    ghost view = { λ m. states_of m.pages.items };

    ghost invariant = { λ m. AreKept m.pages.items m.first m.past };
}

impl UserMemory {
    /// Memory with no page.
    pub fn new(alloc: Global) -> Result<UserMemory, OutOfMemory>
        ensures { IfOk result (λ m. m ≡ []) }
    {
        Ok(UserMemory {
            alloc,
            pages: Vec::new(alloc),
            first: MAX_PAGES,
            past: 0,
        })
    }

    /// Maps a page of zeros: `page` is its first address divided by 4,096.
    ///
    /// It has no changes. On an `Err` memory is as before.
    pub fn map_page(&mut self, page: u32, rights: Rights) -> Result<(), MapFault>
        requires { page < 2 ^ 20 }
        ensures ok { OnOk result (self.new ≡ with_page self.old page (allows_stores rights)) }
        ensures err { OnErr result (self.new ≡ self.old) }
        ensures readable { OnOk result ((a n : ℕ) →
            page * 4096 ≤ a → a + n ≤ page * 4096 + 4096 → is_readable self.new a n ≡ true) }
        ensures mapped { (result ≡ Err MapFault.Mapped) ↔ (is_page (page_at self.old page) ≡ true) }
        ensures too_many { (result ≡ Err MapFault.TooMany) ↔
            ((is_page (page_at self.old page) ≡ false) × (16384 ≤ length self.old)) }
    {
        let Err(place) = pages::place_of(&self.pages, page) else {
            return Err(MapFault::Mapped);
        };
        if self.pages.len() >= MAX_PAGES {
            return Err(MapFault::TooMany);
        }
        let Ok(new) = pages::new_page(self.alloc, page, rights.allow_stores()) else {
            return Err(MapFault::OutOfMemory);
        };
        if self.pages.insert(place, new).is_err() {
            return Err(MapFault::OutOfMemory);
        }
        self.past = end_after_insertion(self.past, place);
        Ok(())
    }

    /// How many pages are mapped: at most 16,384, with ascending numbers below 2^20, each of 4,096 bytes.
    pub fn mapped_pages(&self) -> usize
        ensures count { result ≡ length self.now }
        ensures formed { IsWellFormed self.now }
    {
        self.pages.len()
    }

    /// Copies the bytes from an address on into all of `into`, where each may be read.
    ///
    /// A range of no bytes may be read at each address. On a `Fault` nothing is copied.
    pub fn copy_in(&self, at: u32, into: &mut [u8]) -> Result<(), Fault>
        ensures fault { is_ok result ≡ is_readable self.now at (length into.old) }
        ensures ok { OnOk result (into.new ≡ bytes_at self.now at (length into.old)) }
        ensures err { OnErr result (into.new ≡ into.old) }
    {
        let Some(place) = pages::place_of_range(&self.pages, at, into.len(), Rights::Read) else {
            return Err(Fault);
        };
        pages::copy(&self.pages, place, at, into);
        Ok(())
    }

    /// How many bytes of a range stand before the first that may not be read.
    ///
    /// The range is cut at 2^32.
    #[tactic(auto, unfolding(crate::specs::Prefixes::readable_prefix))]
    pub fn readable_prefix(&self, at: u32, n: u32) -> u32
        ensures value { result ≡ readable_prefix self.now at n }
        ensures readable { is_readable self.now at result ≡ true }
    {
        pages::prefix_of_range(&self.pages, at, n as usize, Rights::Read).length as u32
    }

    /// How many bytes of a range stand before the first that may not be stored to.
    ///
    /// The range is cut at 2^32.
    #[tactic(auto, unfolding(crate::specs::Prefixes::writable_prefix))]
    pub fn writable_prefix(&self, at: u32, n: u32) -> u32
        ensures value { result ≡ writable_prefix self.now at n }
        ensures writable { is_writable self.now at result ≡ true }
    {
        pages::prefix_of_range(&self.pages, at, n as usize, Rights::ReadWrite).length as u32
    }

    /// Copies the text from an address on, the bytes before its first zero, to the front of `into`, without the zero.
    ///
    /// The result is how many bytes it has. The text has at most `into.len()` bytes, its zero among them. The bytes of `into` behind it,
    /// and all on an `Err`, are as before.
    pub fn text_in(&self, at: u32, into: &mut [u8]) -> Result<usize, TextFault>
        ensures text { IfOk result (λ n. text_at self.now at (length into.old) ≡ Ok (take n into.new)) }
        ensures within { IfOk result (λ n. n < length into.old) }
        ensures rest { IfOk result (λ n. drop n into.new ≡ drop n into.old) }
        ensures fault { IfErr result (λ fault. text_at self.now at (length into.old) ≡ Err fault) }
        ensures unchanged { OnErr result (into.new ≡ into.old) }
    {
        text::text_in(&self.pages, at, into)
    }

    /// Stores all of `from` from an address on, where each byte's page has the rights, and keeps the places of these pages.
    fn store(&mut self, at: u32, from: &[u8], rights: Rights) -> Result<(), Fault>
        ensures fault { is_ok result ≡ (nat_le (at + length from.now) (2 ^ 32)
            && all_pass (has_rights rights self.old) at (length from.now)) }
        ensures ok { OnOk result (self.new ≡ with_bytes self.old at from.now) }
        ensures err { OnErr result (self.new ≡ self.old) }
    {
        let Some(place) = pages::place_of_range(&self.pages, at, from.len(), rights) else {
            return Err(Fault);
        };
        if from.is_empty() {
            return Ok(());
        }
        let past = pages::store(&mut self.pages, place, at, from);
        self.first = self.first.min(place);
        self.past = self.past.max(past);
        Ok(())
    }

    /// Stores all of `from` from an address on, where each byte may be stored to.
    ///
    /// A range of no bytes may be stored to at each address. On a `Fault` nothing is stored.
    pub fn copy_out(&mut self, at: u32, from: &[u8]) -> Result<(), Fault>
        ensures fault { is_ok result ≡ is_writable self.old at (length from.now) }
        ensures ok { OnOk result (self.new ≡ with_bytes self.old at from.now) }
        ensures err { OnErr result (self.new ≡ self.old) }
    {
        self.store(at, from, Rights::ReadWrite)
    }

    /// Stores all of `from` from an address on in mapped pages, whatever their rights.
    ///
    /// On a `Fault`, where a byte has no page or the range passes 2^32, nothing is stored.
    pub fn poke(&mut self, at: u32, from: &[u8]) -> Result<(), Fault>
        ensures fault { is_ok result ≡ is_readable self.old at (length from.now) }
        ensures ok { OnOk result (self.new ≡ with_bytes self.old at from.now) }
        ensures err { OnErr result (self.new ≡ self.old) }
    {
        self.store(at, from, Rights::Read)
    }

    /// Clears the changes: from here on each byte is compared with what it is now.
    ///
    /// Its work goes by the pages from the first to the last that was stored to, and by the bytes stored in each.
    pub fn clear_changes(&mut self)
        ensures { self.new ≡ marked self.old }
    {
        pages::clear_stored(&mut self.pages, self.first, self.past);
        self.first = MAX_PAGES;
        self.past = 0;
    }

    /// The first run of changed bytes within one page, at or after an address.
    ///
    /// A run that begins before the address is cut there. A byte that was stored with the value that
    /// it had, or got that value back, is not changed. It is `None` where no byte from the address on
    /// is changed, as from 2^32 on. It looks at no page before that of the address, and at none but those from the
    /// first to the last that was stored to since changes were cleared.
    pub fn next_change(&self, from: u64) -> Option<Change>
        ensures next { MatchOption result
            (changes self.now from ≡ [])
            (λ c. changes self.now from ≡
            (c.at, bytes_at self.now c.at c.length) ∷ changes self.now (c.at + c.length)) }
        ensures within { IfSome result (λ c.
            (from ≤ c.at) × (0 < c.length) × (c.length ≤ 4096) × (c.at + c.length ≤ 2 ^ 32)) }
        ensures readable { IfSome result (λ c. is_readable self.now c.at c.length ≡ true) }
    {
        search::next_change(&self.pages, self.first, self.past, from as usize)
    }
}
