//! The text that tells the state, item by item.

ghost use Rattle.std.specs.Prelude.{◌≡◌, [], ◌++◌, ◌||◌, false, not, OnOk, IfOk};
ghost use Rattle.native_kernel.specs.Items.{items, left};
ghost use Rattle.report_text.specs.Items.{is_front};
ghost use Rattle.replay_command.specs.StateText.{items_text, peak_before, state_text};

use compat_calls::World;
use kernel_values::{AbiKind, OutOfMemory, StateItem};
use native_kernel::Kernel;
use report_text::{is_front, put_item, put_peak, put_state_head};
use std::alloc::Global;

/// The line of the peak before an item, where it wasn't written yet and belongs there. Tells whether it is written by then.
fn put_peak_before(
    alloc: Global,
    out: &mut Vec<u8>,
    peak: u64,
    is_behind: bool,
    item: &StateItem,
) -> Result<bool, OutOfMemory>
    ensures text { OnOk result (out.new.items ≡ out.old.items ++ peak_before peak is_behind item.now) }
    ensures behind { IfOk result (λ b. b ≡ (is_behind || not (is_front item.now))) }
{
    if is_behind {
        return Ok(true);
    }
    if is_front(item) {
        return Ok(false);
    }
    put_peak(alloc, out, peak)?;
    Ok(true)
}

/// The line of the peak behind the last item, where it wasn't written yet.
#[tactic(auto, unfolding(crate::specs::StateText::items_text))]
fn put_peak_behind(
    alloc: Global,
    out: &mut Vec<u8>,
    peak: u64,
    is_behind: bool,
    abi: AbiKind,
) -> Result<(), OutOfMemory>
    ensures { OnOk result (out.new.items ≡ out.old.items ++ items_text abi peak is_behind []) }
{
    if is_behind {
        return Ok(());
    }
    put_peak(alloc, out, peak)
}

/// The items of the kernel, and the peak between them.
#[tactic(auto, using(crate::proofs::TextSteps::items_go, crate::proofs::TextSteps::items_end))]
fn put_items(
    alloc: Global,
    out: &mut Vec<u8>,
    abi: AbiKind,
    peak: u64,
    kernel: &Kernel,
) -> Result<(), OutOfMemory>
    ensures { OnOk result (out.new.items ≡ out.old.items ++ items_text abi peak false (items kernel.now)) }
{
    let mut cursor = kernel.first_item();
    let mut is_behind = false;
    while let Some(item) = kernel.next_item(alloc, &mut cursor)? {
        is_behind = put_peak_before(alloc, out, peak, is_behind, &item)?;
        put_item(alloc, out, abi, item)?;
    }
    put_peak_behind(alloc, out, peak, is_behind, abi)
}

/// The state of the kernel, and the most bytes of the region that a call has taken.
#[tactic(auto, unfolding(crate::specs::StateText::state_text))]
pub fn put_state(
    alloc: Global,
    out: &mut Vec<u8>,
    abi: AbiKind,
    world: &World,
) -> Result<(), OutOfMemory>
    ensures { OnOk result (out.new.items ≡ out.old.items ++ state_text abi world.now) }
{
    put_state_head(out)?;
    put_items(alloc, out, abi, world.region.peak() as u64, &world.kernel)
}
