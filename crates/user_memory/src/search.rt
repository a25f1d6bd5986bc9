//! The search for the next change, which looks at the pages and the bytes alone that were stored to since changes were last cleared.

ghost use Rattle.std.specs.Prelude.{◌≡◌, ◌≢◌, ◌+◌, ◌^◌, ◌<◌, ◌≤◌, [], ◌∷◌, length, slice_index, MatchOption, IfSome, All};
ghost use Rattle.user_memory.specs.Pages.{IsAscending};
ghost use Rattle.user_memory.specs.Changes.{IsNext, AreSame, Differ};
ghost use Rattle.user_memory.specs.States.{state_of, states_of, TellsStores, AreStoredWithin};

use crate::change::Change;
use crate::page::{END, PAGE_SIZE, Page};
use crate::pages::place_from;

/// The first offset from `start` on, below `end`, at which the bytes differ.
fn first_difference(bytes: &[u8], old: &[u8], start: usize, end: usize) -> Option<usize>
    requires same_length { length bytes.now ≡ length old.now }
    requires within { end ≤ length bytes.now }
    ensures same { MatchOption result
        (AreSame bytes.now old.now start end)
        (λ i. AreSame bytes.now old.now start i) }
    ensures differs { IfSome result (λ i.
        (start ≤ i) × (i < length bytes.now) × (slice_index bytes.now i ≢ slice_index old.now i)) }
{
    for i in start..end {
        if bytes[i] != old[i] {
            return Some(i);
        }
    }
    None
}

/// How many bytes differ from `at` on.
fn difference_length(bytes: &[u8], old: &[u8], at: usize) -> usize
    requires same_length { length bytes.now ≡ length old.now }
    requires within { at < length bytes.now }
    requires differs { slice_index bytes.now at ≢ slice_index old.now at }
    ensures some { 0 < result }
    ensures inside { at + result ≤ length bytes.now }
    ensures all { Differ bytes.now old.now at (at + result) }
    ensures ends { at + result < length bytes.now →
        slice_index bytes.now (at + result) ≡ slice_index old.now (at + result) }
{
    for i in at + 1..bytes.len() {
        if bytes[i] == old[i] {
            return i - at;
        }
    }
    bytes.len() - at
}

/// The next change in one page.
fn change_in(page: &Page, from: usize) -> Option<Change>
    requires ascending { IsAscending (state_of page.now ∷ []) }
    requires stores { TellsStores page.now }
    ensures { IsNext (state_of page.now ∷ []) from result }
{
    let base = page.number as usize * PAGE_SIZE;
    let bytes = page.bytes.as_slice();
    let old = page.before.as_slice();
    let begin = from.saturating_sub(base).max(page.first);
    let Some(start) = first_difference(bytes, old, begin, page.past) else {
        return None;
    };
    let length = difference_length(bytes, old, start);
    Some(Change {
        at: (base + start) as u32,
        length: length as u32,
    })
}

/// The next change in pages with ascending numbers.
fn change_in_pages(pages: &[Page], from: usize) -> Option<Change>
    requires ascending { IsAscending (states_of pages.now) }
    requires stores { All TellsStores pages.now }
    ensures { IsNext (states_of pages.now) from result }
{
    for page in pages {
        if let Some(change) = change_in(page, from) {
            return Some(change);
        }
    }
    None
}

/// The next change in pages with ascending numbers, of which those from place `first` up to `past` alone were stored to.
///
/// It looks at those of them alone that aren't below the address.
pub fn next_change(pages: &[Page], first: usize, past: usize, from: usize) -> Option<Change>
    requires ascending { IsAscending (states_of pages.now) }
    requires stores { All TellsStores pages.now }
    requires places { AreStoredWithin pages.now first past }
    ensures { IsNext (states_of pages.now) from result }
{
    if from >= END {
        return None;
    }
    let begin = first.max(place_from(pages, (from / PAGE_SIZE) as u32));
    if begin >= past {
        return None;
    }
    change_in_pages(&pages[begin..past], from)
}
