//! The search for the next run of bytes other than 0, which looks at the pages alone that are there.

ghost use Rattle.std.specs.Prelude.{◌≡◌, ◌≢◌, ℕ, List, ◌+◌, ◌-◌, ◌*◌, ◌/◌, ◌<◌, ◌≤◌, ◌^◌, length, slice_index, max, Some, None, MatchOption, IfSome, IsSome};
ghost use Rattle.kernel_values.specs.Bounds.{most_file_bytes};
ghost use Rattle.number_maps.specs.NumberMap.{at};
ghost use Rattle.file_bytes.specs.Pages.{byte_at};
ghost use Rattle.file_bytes.specs.Search.{AreZero, AreFilled, IsNext};

use crate::page::{PAGE, Page};
use crate::pages::Pages;
use crate::run::Run;

/// A file has pages with numbers below this one: 2^40 bytes.
const PAGES: u64 = 1 << 28;

/// The first offset from `start` on with a byte other than 0.
fn first_filled(bytes: &[u8], start: usize) -> Option<usize>
    ensures clear { MatchOption result
        (AreZero (slice_index bytes.now) start (length bytes.now))
        (λ i. AreZero (slice_index bytes.now) start i) }
    ensures filled { IfSome result (λ i.
        (start ≤ i) × (i < length bytes.now) × (slice_index bytes.now i ≢ 0)) }
{
    for i in start..bytes.len() {
        if bytes[i] != 0 {
            return Some(i);
        }
    }
    None
}

/// How many bytes from `at` on are other than 0.
fn filled_length(bytes: &[u8], at: usize) -> usize
    requires within { at < length bytes.now }
    requires filled { slice_index bytes.now at ≢ 0 }
    ensures some { 0 < result }
    ensures inside { at + result ≤ length bytes.now }
    ensures all { AreFilled (slice_index bytes.now) at (at + result) }
    ensures ends { at + result < length bytes.now → slice_index bytes.now (at + result) ≡ 0 }
{
    for i in at + 1..bytes.len() {
        if bytes[i] == 0 {
            return i - at;
        }
    }
    bytes.len() - at
}

/// The first run in the bytes of a page at or after an offset.
#[tactic(auto, using(crate::proofs::NextRun::run_of_page))]
pub fn run_in(bytes: &[u8], start: usize) -> Option<Run>
    requires { length bytes.now ≡ 4096 }
    ensures next { IsNext (slice_index bytes.now) start 4096 result }
    ensures within { IfSome result (λ r. r.at + r.length ≤ 4096) }
{
    let first = first_filled(bytes, start)?;
    let length = filled_length(bytes, first);
    Some(Run {
        at: first as u64,
        length: length as u64,
    })
}

/// The first run at or after an offset of the file, of those in one page.
#[tactic(auto, using(crate::proofs::NextRun::page_none))]
fn run_in_page(page: &Page, number: u64, from: u64) -> Option<Run>
    requires low { number < 2 ^ 28 }
    requires not_before { from / 4096 ≤ number }
    ensures { (pages : List (ℕ × List ℕ)) → at pages number ≡ Some page.now →
        IsNext (byte_at pages) (max from (number * 4096)) (number * 4096 + 4096) result }
{
    let first = number * PAGE;
    let run = page.next_run(from.saturating_sub(first) as usize)?;
    Some(Run {
        at: first + run.at,
        length: run.length,
    })
}

impl Pages {
    /// The first page that is there, from a number on.
    pub(crate) fn page_from(&self, first: u64) -> Option<(u64, &Page)>
        requires { first ≤ 2 ^ 28 }
        ensures absent { MatchOption result
            ((q : ℕ) → first ≤ q → q < 2 ^ 28 → at self.now.map.entries q ≡ None)
            (λ r. (q : ℕ) → first ≤ q → q < 2 ^ 28 → IsSome (at self.now.map.entries q) → r.0 ≤ q) }
        ensures there { IfSome result (λ r.
            (first ≤ r.0) × (r.0 < 2 ^ 28) × (at self.now.map.entries r.0 ≡ Some r.1.now)) }
    {
        let (number, page) = self.map.range(first..PAGES).next()?;
        Some((*number, page))
    }

    /// The first run at or after an offset.
    pub fn next_run(&self, from: u64) -> Option<Run>
        ensures { IsNext (byte_at self.now.map.entries) from most_file_bytes result }
    {
        if from / PAGE >= PAGES {
            return None;
        }
        let mut number = from / PAGE;
        while let Some((found, page)) = self.page_from(number) {
            if let Some(run) = run_in_page(page, found, from) {
                return Some(run);
            }
            number = found + 1;
        }
        None
    }
}
