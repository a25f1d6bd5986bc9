//! Text in user memory: the bytes before the first zero, read page by page.

ghost use Rattle.std.specs.Prelude.{◌≡◌, ◌≢◌, ℕ, ◌+◌, ◌/◌, ◌%◌, ◌^◌, ◌<◌, ◌≤◌, length, take, drop, slice_index, IfOk, IfErr, IfSome, MatchOption, OnErr, Ok, Err};
ghost use Rattle.user_memory.specs.Pages.{IsAscending, byte_at};
ghost use Rattle.user_memory.specs.Memory.{bytes_at};
ghost use Rattle.user_memory.specs.Places.{IsPlaceOf, ArePlacesOf};
ghost use Rattle.user_memory.specs.Prefixes.{text_at, HasNoZero};
ghost use Rattle.user_memory.specs.States.{states_of};

use crate::page::{PAGE_SIZE, Page};
use crate::pages::{Span, copy, length_in_page, prefix_of_range};
use crate::rights::Rights;

/// Why a text was not read.
#[derive(Clone, Copy, Debug, PartialEq, Eq)]
pub enum TextFault {
    /// A byte of it, or its zero, lacks the right to be read or would lie at 2^32.
    Fault,
    /// No zero is among as many bytes as it may have.
    TooLong,
}

/// The index of the first zero.
fn first_zero(bytes: &[u8]) -> Option<usize>
    ensures before { MatchOption result
        ((k : ℕ) → k < length bytes.now → slice_index bytes.now k ≢ 0)
        (λ i. (k : ℕ) → k < i → slice_index bytes.now k ≢ 0) }
    ensures zero { IfSome result (λ i. (i < length bytes.now) × (slice_index bytes.now i ≡ 0)) }
{
    for (i, byte) in bytes.iter().enumerate() {
        if *byte == 0 {
            return Some(i);
        }
    }
    None
}

/// How many bytes stand before the first zero of a range within one page, which stands at `place`.
fn zero_in_page(pages: &[Page], place: usize, at: usize, length: usize) -> Option<usize>
    requires ascending { IsAscending (states_of pages.now) }
    requires place { IsPlaceOf pages.now (at / 4096) place }
    requires one_page { at % 4096 + length ≤ 4096 }
    ensures before { MatchOption result
        (HasNoZero (states_of pages.now) at length)
        (λ i. HasNoZero (states_of pages.now) at i) }
    ensures zero { IfSome result (λ i. (i < length) × (byte_at (states_of pages.now) (at + i) ≡ 0)) }
{
    let offset = at % PAGE_SIZE;
    let page = &pages[place];
    first_zero(&page.bytes[offset..offset + length])
}

/// How many bytes stand before the first zero of a range.
fn zero_in_span(pages: &[Page], span: Span, at: u32) -> Option<usize>
    requires ascending { IsAscending (states_of pages.now) }
    requires places { ArePlacesOf pages.now at span.length span.place }
    requires within { at + span.length ≤ 2 ^ 32 }
    ensures before { MatchOption result
        (HasNoZero (states_of pages.now) at span.length)
        (λ i. HasNoZero (states_of pages.now) at i) }
    ensures zero { IfSome result (λ i. (i < span.length) × (byte_at (states_of pages.now) (at + i) ≡ 0)) }
{
    let start = at as usize;
    let length = span.length;
    let mut place = span.place;
    let mut done = 0;
    while done < length {
        let count = length_in_page(start + done, length - done);
        if let Some(i) = zero_in_page(pages, place, start + done, count) {
            return Some(done + i);
        }
        done += count;
        place += 1;
    }
    None
}

/// Where the text of at most `limit` bytes (its zero among them) from an address on stands, without its zero.
fn find_text(pages: &[Page], at: u32, limit: usize) -> Result<Span, TextFault>
    requires { IsAscending (states_of pages.now) }
    ensures text { IfOk result (λ span. text_at (states_of pages.now) at limit ≡ Ok (bytes_at (states_of pages.now) at span.length)) }
    ensures within { IfOk result (λ span. span.length < limit) }
    ensures placed { IfOk result (λ span. ArePlacesOf pages.now at span.length span.place) }
    ensures fault { IfErr result (λ fault. text_at (states_of pages.now) at limit ≡ Err fault) }
{
    let readable = prefix_of_range(pages, at, limit, Rights::Read);
    match zero_in_span(pages, readable, at) {
        Some(length) => Ok(Span {
            place: readable.place,
            length,
        }),
        None if readable.length < limit => Err(TextFault::Fault),
        None => Err(TextFault::TooLong),
    }
}

/// Copies the text of at most `into.len()` bytes (its zero among them) from an address on to the front of `into`,
/// without its zero.
///
/// The result is how many bytes it has. The bytes behind them, and all on an `Err`, are as before.
pub fn text_in(pages: &[Page], at: u32, into: &mut [u8]) -> Result<usize, TextFault>
    requires { IsAscending (states_of pages.now) }
    ensures text { IfOk result (λ n. text_at (states_of pages.now) at (length into.old) ≡ Ok (take n into.new)) }
    ensures within { IfOk result (λ n. n < length into.old) }
    ensures rest { IfOk result (λ n. drop n into.new ≡ drop n into.old) }
    ensures fault { IfErr result (λ fault. text_at (states_of pages.now) at (length into.old) ≡ Err fault) }
    ensures unchanged { OnErr result (into.new ≡ into.old) }
{
    let span = find_text(pages, at, into.len())?;
    copy(pages, span.place, at, &mut into[..span.length]);
    Ok(span.length)
}
