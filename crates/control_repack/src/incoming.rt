//! Control messages that a 32-bit process sends, in the kernel's own layout in the region.

ghost use Rattle.std.specs.Prelude.{◌≡◌, ◌+◌, ◌≤◌, max, length, take, ok_or, IfOk, OnErr, OnOk, Some};
ghost use Rattle.std.specs.Option.{option_map};
ghost use Rattle.kernel_values.specs.Outcome.{TellsAs};
ghost use Rattle.message_layouts.specs.Controls.{controls_of, spelled, spelled_size};
ghost use Rattle.scratch_region.specs.Region.{next_span, used};
ghost use Rattle.control_repack.specs.Incoming.{TellsControls, controls_at, controls_need, size_told};
ghost use Rattle.control_repack.specs.Regions.{with_taken};

use crate::spans::{put_span, take_span};
use kernel_values::Errno;
use message_layouts::{controls_size, translate};
use scratch_region::{Scratch, Span};
use user_memory::UserMemory;

/// The most bytes of control messages that are sent.
const MOST_CONTROLS: usize = 20480;

/// The most that these take in the kernel's own layout.
const MOST_NATIVE: usize = 40960;

/// Reads control messages. EFAULT where they can't be read, and EINVAL where they are those of no list. It gives how many bytes they take in
/// the kernel's own layout.
#[tactic(auto, unfolding(crate::specs::Incoming::controls_at), using(crate::proofs::Messages::size_read))]
fn read_controls(memory: &UserMemory, at: u32, into: &mut [u8]) -> Result<usize, Errno>
    requires { length into.old ≤ 20480 }
    ensures told { TellsAs (λ n. n) result (size_told (controls_at memory.now at (length into.old))) }
    ensures few { IfOk result (λ n. n ≤ 40960) }
    ensures size { IfOk result (λ n. option_map (spelled_size 8) (controls_of 4 into.new) ≡ Some n) }
    ensures list { OnOk result (controls_at memory.now at (length into.old) ≡ ok_or (controls_of 4 into.new) Errno.InvalidArgument) }
{
    if memory.copy_in(at, into).is_err() {
        return Err(Errno::BadAddress);
    }
    match controls_size(into) {
        Some(size) => Ok(size),
        None => Err(Errno::InvalidArgument),
    }
}

/// Takes a span with messages in the kernel's own layout.
#[tactic(auto, using(crate::proofs::Messages::native_put))]
fn put_native(from: &[u8], size: usize, scratch: &mut Scratch) -> Span
    requires few { length from.now ≤ 20480 }
    requires most { size ≤ 40960 }
    requires size { option_map (spelled_size 8) (controls_of 4 from.now) ≡ Some size }
    requires room { used scratch.old + size ≤ scratch.old.capacity }
    ensures native { TellsControls (Ok result) scratch.new (ok_or (controls_of 4 from.now) Errno.InvalidArgument) }
    ensures span { result ≡ next_span scratch.old size }
    ensures used { used scratch.new ≡ used scratch.old + size }
    ensures below { take (used scratch.old) scratch.new.taken ≡ scratch.old.taken }
    ensures capacity { scratch.new.capacity ≡ scratch.old.capacity }
    ensures peak { scratch.new.peak ≡ max scratch.old.peak (used scratch.old + size) }
{
    let mut buffer = [0; MOST_NATIVE];
    let out = &mut buffer[..size];
    translate(from, out);
    put_span(out, scratch)
}

/// Copies the control messages at an address into the region: their bytes, and behind these the same messages in the kernel's own layout, each
/// with its gap of zeros. It gives the span of the latter. ENOBUFS for more than 20,480 bytes, EFAULT where they can't be read, and EINVAL where
/// they are those of no list. After an error the region is as before but for its peak.
#[tactic(auto, unfolding(crate::specs::Incoming::controls_at, crate::specs::Incoming::controls_need))]
pub fn controls_in(
    memory: &UserMemory,
    at: u32,
    length: u32,
    scratch: &mut Scratch,
) -> Result<Span, Errno>
    requires room { used scratch.old + 61440 ≤ scratch.old.capacity }
    requires counted { used scratch.old ≤ scratch.old.peak }
    ensures told { TellsControls result scratch.new (controls_at memory.now at length) }
    ensures span { IfOk result (λ span. (span.start ≡ used scratch.old + length) × (span.start + span.length ≡ used scratch.new)) }
    ensures used { OnOk result (used scratch.new ≡ used scratch.old + controls_need memory.now at length) }
    ensures below { take (used scratch.old) scratch.new.taken ≡ scratch.old.taken }
    ensures given_back { OnErr result (scratch.new.taken ≡ scratch.old.taken) }
    ensures capacity { scratch.new.capacity ≡ scratch.old.capacity }
    ensures peak { scratch.new.peak ≡ max scratch.old.peak (used scratch.old + controls_need memory.now at length) }
{
    let count = length as usize;
    if count > MOST_CONTROLS {
        return Err(Errno::NoBufferSpace);
    }
    let mark = scratch.mark();
    let compat = take_span(count, scratch);
    let mut buffer = [0; MOST_CONTROLS];
    let bytes = &mut buffer[..count];
    match read_controls(memory, at, bytes) {
        Ok(size) => {
            scratch.put(&compat, bytes);
            Ok(put_native(bytes, size, scratch))
        }
        Err(errno) => {
            scratch.release_to(mark);
            Err(errno)
        }
    }
}
