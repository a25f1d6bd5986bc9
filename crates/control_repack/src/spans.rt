//! Spans of the region.

ghost use Rattle.std.specs.Prelude.{◌≡◌, ◌+◌, ◌≤◌, length};
ghost use Rattle.scratch_region.specs.Region.{next_span, used, with_zeros};
ghost use Rattle.control_repack.specs.Regions.{with_taken};

use scratch_region::{Scratch, Span};

/// Takes a span, for which there is room.
pub(crate) fn take_span(count: usize, scratch: &mut Scratch) -> Span
    requires { used scratch.old + count ≤ scratch.old.capacity }
    ensures span { result ≡ next_span scratch.old count }
    ensures after { scratch.new ≡ with_zeros scratch.old count }
{
    let Ok(span) = scratch.take(count) else {
        unreachable!()
    };
    span
}

/// Takes a span with these bytes, for which there is room.
#[tactic(auto, using(crate::proofs::Behind::put_behind))]
pub(crate) fn put_span(bytes: &[u8], scratch: &mut Scratch) -> Span
    requires { used scratch.old + length bytes.now ≤ scratch.old.capacity }
    ensures span { result ≡ next_span scratch.old (length bytes.now) }
    ensures after { scratch.new ≡ with_taken scratch.old bytes.now }
{
    let span = take_span(bytes.len(), scratch);
    scratch.put(&span, bytes);
    span
}
