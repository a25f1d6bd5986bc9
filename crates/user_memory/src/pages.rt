//! Pages with ascending numbers, and what stands at their addresses.
//!
//! A range is handled page by page: its first page is searched, each other one stands behind the one
//! before it, and the bytes of the range in a page are moved together.

ghost use Rattle.std.specs.Prelude.{◌≡◌, ℕ, slice_index, ◌+◌, ◌/◌, ◌%◌, ◌-◌, ◌^◌, ◌<◌, ◌≤◌, ◌∷◌, ◌&&◌, length, nat_le, false, min, All, IfOk, IfErr, IfSome, is_ok, is_some, slice_index_or, true};
ghost use Rattle.std.specs.Option.{option_map};
ghost use Rattle.user_memory.specs.Pages.{page_at, is_page, marked, zero_page, new_page as zeroed, mark_of, IsAscending};
ghost use Rattle.user_memory.specs.Memory.{bytes_at, all_pass, with_bytes};
ghost use Rattle.user_memory.specs.Places.{IsPlaceOf, IsGapFor, IsPlaceFrom, ArePlacesOf};
ghost use Rattle.user_memory.specs.Prefixes.{passing};
ghost use Rattle.user_memory.specs.Rights.{has_rights};
ghost use Rattle.user_memory.specs.States.{state_of, states_of, TellsStores, AreStoredWithin};

use crate::page::{END, PAGE_SIZE, Page};
use crate::rights::Rights;
use kernel_values::OutOfMemory;
use std::alloc::Global;

/// The index of the page with a number, or the index where it would be put.
pub fn place_of(pages: &[Page], number: u32) -> Result<usize, usize>
    requires { IsAscending (states_of pages.now) }
    ensures found { IfOk result (IsPlaceOf pages.now number) }
    ensures absent { IfErr result (IsGapFor pages.now number) }
    ensures mapped { is_ok result ≡ is_page (page_at (states_of pages.now) number) }
{
    pages.binary_search_by_key(&number, |page| page.number)
}

/// The index of the first page whose number isn't below this one.
pub fn place_from(pages: &[Page], number: u32) -> usize
    requires { IsAscending (states_of pages.now) }
    ensures { IsPlaceFrom pages.now number result }
{
    match place_of(pages, number) {
        Ok(place) => place,
        Err(place) => place,
    }
}

/// Whether the page of an address has the rights. It looks at the page at `place` alone, the first that isn't below it.
fn is_allowed(pages: &[Page], place: usize, at: usize, rights: Rights) -> bool
    requires ascending { IsAscending (states_of pages.now) }
    requires place { IsPlaceFrom pages.now (at / 4096) place }
    ensures allowed { result ≡ has_rights rights (states_of pages.now) at }
    ensures placed { result ≡ true → IsPlaceOf pages.now (at / 4096) place }
{
    if place >= pages.len() {
        return false;
    }
    let page = &pages[place];
    if page.number as usize != at / PAGE_SIZE {
        return false;
    }
    match rights {
        Rights::Read => true,
        Rights::ReadWrite => page.writable,
    }
}

/// How many of the bytes from an address on are in its page.
pub fn length_in_page(at: usize, length: usize) -> usize
    ensures { result ≡ min length (4096 - at % 4096) }
{
    length.min(PAGE_SIZE - at % PAGE_SIZE)
}

/// The first bytes of a range: how many they are, and where their pages stand.
#[derive(Clone, Copy)]
pub struct Span {
    /// The place of the first page. Each other one stands behind the one before it.
    pub place: usize,
    pub length: usize,
}

/// The bytes of a range below 2^32 before the first whose page lacks the rights.
///
/// The first page is searched, and each other one stands behind the one before it. Where there are no such bytes, the place is
/// that from which on pages aren't below the range's address.
pub fn prefix_of_range(pages: &[Page], at: u32, length: usize, rights: Rights) -> Span
    requires { IsAscending (states_of pages.now) }
    ensures length { result.length ≡ passing (has_rights rights (states_of pages.now)) at (min length (2 ^ 32 - at)) }
    ensures within { at + result.length ≤ 2 ^ 32 }
    ensures allowed { (nat_le (at + result.length) (2 ^ 32)
        && all_pass (has_rights rights (states_of pages.now)) at result.length) ≡ true }
    ensures placed { ArePlacesOf pages.now at result.length result.place }
{
    let start = at as usize;
    let end = length.min(END - start);
    let first = place_from(pages, at / PAGE_SIZE as u32);
    let mut place = first;
    let mut done = 0;
    while done < end {
        if !is_allowed(pages, place, start + done, rights) {
            return Span {
                place: first,
                length: done,
            };
        }
        done += length_in_page(start + done, end - done);
        place += 1;
    }
    Span {
        place: first,
        length: end,
    }
}

/// The place of a range's first page, where each byte of the range has the rights and it doesn't pass 2^32.
///
/// For a range of no bytes it is the place from which on pages aren't below its address.
pub fn place_of_range(pages: &[Page], at: u32, length: usize, rights: Rights) -> Option<usize>
    requires { IsAscending (states_of pages.now) }
    ensures allowed { is_some result ≡ (nat_le (at + length) (2 ^ 32)
        && all_pass (has_rights rights (states_of pages.now)) at length) }
    ensures placed { IfSome result (λ i. ArePlacesOf pages.now at length i) }
{
    let prefix = prefix_of_range(pages, at, length, rights);
    if prefix.length < length {
        return None;
    }
    Some(prefix.place)
}

/// Copies the bytes of a range within one page, which stands at `place`.
fn copy_in_page(pages: &[Page], place: usize, at: usize, into: &mut [u8])
    requires ascending { IsAscending (states_of pages.now) }
    requires place { IsPlaceOf pages.now (at / 4096) place }
    requires one_page { at % 4096 + length into.old ≤ 4096 }
    ensures { into.new ≡ bytes_at (states_of pages.now) at (length into.old) }
{
    let offset = at % PAGE_SIZE;
    let page = &pages[place];
    into.copy_from_slice(&page.bytes[offset..offset + into.len()]);
}

/// Copies the bytes of a range, whose pages stand from `first` on.
pub fn copy(pages: &[Page], first: usize, at: u32, into: &mut [u8])
    requires ascending { IsAscending (states_of pages.now) }
    requires places { ArePlacesOf pages.now at (length into.old) first }
    ensures { into.new ≡ bytes_at (states_of pages.now) at (length into.old) }
{
    let start = at as usize;
    let mut place = first;
    let mut done = 0;
    while done < into.len() {
        let end = done + length_in_page(start + done, into.len() - done);
        copy_in_page(pages, place, start + done, &mut into[done..end]);
        done = end;
        place += 1;
    }
}

/// Stores bytes within one page, which stands at `place`, and keeps where it was stored to.
fn store_in_page(pages: &mut [Page], place: usize, at: usize, from: &[u8])
    requires ascending { IsAscending (states_of pages.old) }
    requires stores { All TellsStores pages.old }
    requires place { IsPlaceOf pages.old (at / 4096) place }
    requires one_page { at % 4096 + length from.now ≤ 4096 }
    ensures stored { states_of pages.new ≡ with_bytes (states_of pages.old) at from.now }
    ensures ascending { IsAscending (states_of pages.new) }
    ensures stores { All TellsStores pages.new }
    ensures places { (n i : ℕ) → IsPlaceOf pages.old n i → IsPlaceOf pages.new n i }
    ensures others { (k : ℕ) (d : Page) → (k ≡ place → ⊥) →
        slice_index_or pages.new k d ≡ slice_index_or pages.old k d }
{
    let offset = at % PAGE_SIZE;
    let page = &mut pages[place];
    page.bytes[offset..offset + from.len()].copy_from_slice(from);
    page.first = page.first.min(offset);
    page.past = page.past.max(offset + from.len());
}

/// Stores bytes in the pages of a range, which stand from `first` on, and keeps where these were stored to.
///
/// The result is the place after the last of them. All other pages are as before.
pub fn store(pages: &mut [Page], first: usize, at: u32, from: &[u8]) -> usize
    requires ascending { IsAscending (states_of pages.old) }
    requires stores { All TellsStores pages.old }
    requires places { ArePlacesOf pages.old at (length from.now) first }
    ensures stored { states_of pages.new ≡ with_bytes (states_of pages.old) at from.now }
    ensures stores { All TellsStores pages.new }
    ensures past { result ≤ length pages.old }
    ensures front { (k : ℕ) (d : Page) → k < first → slice_index_or pages.new k d ≡ slice_index_or pages.old k d }
    ensures back { (k : ℕ) (d : Page) → result ≤ k → slice_index_or pages.new k d ≡ slice_index_or pages.old k d }
{
    let start = at as usize;
    let mut place = first;
    let mut done = 0;
    while done < from.len() {
        let end = done + length_in_page(start + done, from.len() - done);
        store_in_page(pages, place, start + done, &from[done..end]);
        done = end;
        place += 1;
    }
    place
}

/// 4,096 zeros.
#[tactic(auto, unfolding(crate::specs::Pages::zero_page))]
fn zeros(alloc: Global) -> Result<Vec<u8>, OutOfMemory>
    ensures { IfOk result (λ v. v.items ≡ zero_page) }
{
    Ok(vec![in alloc; 0u8; PAGE_SIZE]?)
}

/// A page of zeros, which wasn't stored to.
pub fn new_page(alloc: Global, number: u32, writable: bool) -> Result<Page, OutOfMemory>
    ensures zeros { IfOk result (λ p. state_of p ≡ zeroed number writable) }
    ensures stores { IfOk result (λ p. TellsStores p) }
{
    let bytes = zeros(alloc)?;
    let before = zeros(alloc)?;
    Ok(Page {
        number,
        writable,
        first: PAGE_SIZE,
        past: 0,
        bytes,
        before,
    })
}

/// Makes the bytes of before those of a page, by those that were stored, from `first` up to `past`.
fn copy_stored(bytes: &[u8], before: &mut [u8], first: usize, past: usize)
    requires same_length { length bytes.now ≡ length before.old }
    requires within { past ≤ length bytes.now }
    requires front { (k : ℕ) → k < first → slice_index bytes.now k ≡ slice_index before.old k }
    requires back { (k : ℕ) → past ≤ k → slice_index bytes.now k ≡ slice_index before.old k }
    ensures { before.new ≡ bytes.now }
{
    if first < past {
        before[first..past].copy_from_slice(&bytes[first..past]);
    }
}

/// Keeps the bytes of a page as those before the next change. It looks at those alone that were stored.
fn clear(page: &mut Page)
    requires same_length { length page.old.bytes.items ≡ length page.old.before.items }
    requires stores { TellsStores page.old }
    ensures state { state_of page.new ≡ mark_of (state_of page.old) }
    ensures stores { TellsStores page.new }
{
    copy_stored(&page.bytes, &mut page.before, page.first, page.past);
    page.first = PAGE_SIZE;
    page.past = 0;
}

/// Keeps the bytes of all pages.
fn clear_all(pages: &mut [Page])
    requires ascending { IsAscending (states_of pages.old) }
    requires stores { All TellsStores pages.old }
    ensures states { states_of pages.new ≡ marked (states_of pages.old) }
    ensures stores { All TellsStores pages.new }
{
    for page in pages.iter_mut() {
        clear(page);
    }
}

/// Keeps the bytes of the pages from place `first` up to `past`. All others are unchanged.
pub fn clear_stored(pages: &mut [Page], first: usize, past: usize)
    requires ascending { IsAscending (states_of pages.old) }
    requires stores { All TellsStores pages.old }
    requires places { AreStoredWithin pages.old first past }
    ensures states { states_of pages.new ≡ marked (states_of pages.old) }
    ensures stores { All TellsStores pages.new }
{
    if first < past {
        clear_all(&mut pages[first..past]);
    }
}
