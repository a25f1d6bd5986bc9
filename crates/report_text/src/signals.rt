//! The lines of signals.

ghost use Rattle.std.specs.Prelude.{◌≡◌, ◌++◌, OnOk};
ghost use Rattle.report_text.specs.Signals.{action_text, alt_text, mask_text, pending_text};

use crate::fields::put_line;
use kernel_values::{ActionItem, AltStack, OutOfMemory, SigInfo, SignalSet};
use std::alloc::Global;

/// Appends `mask SIGNALS`.
#[tactic(auto, unfolding(crate::specs::Signals::mask_text))]
pub fn put_mask(alloc: Global, out: &mut Vec<u8>, mask: SignalSet) -> Result<(), OutOfMemory>
    ensures { OnOk result (out.new.items ≡ out.old.items ++ mask_text mask) }
{
    put_line(alloc, out, b"mask", &[mask.bits])
}

/// Appends `alt BASE SIZE`.
#[tactic(auto, unfolding(crate::specs::Signals::alt_text))]
pub fn put_alt(alloc: Global, out: &mut Vec<u8>, stack: AltStack) -> Result<(), OutOfMemory>
    ensures { OnOk result (out.new.items ≡ out.old.items ++ alt_text stack) }
{
    let numbers = [u64::from(stack.base), u64::from(stack.size)];
    put_line(alloc, out, b"alt", &numbers)
}

/// Appends `action SIGNAL HANDLER FLAGS RESTORER MASK`.
#[tactic(auto, unfolding(crate::specs::Signals::action_text))]
pub fn put_action(alloc: Global, out: &mut Vec<u8>, item: ActionItem) -> Result<(), OutOfMemory>
    ensures { OnOk result (out.new.items ≡ out.old.items ++ action_text item) }
{
    let numbers = [
        u64::from(item.signal),
        u64::from(item.action.handler),
        u64::from(item.action.flags),
        u64::from(item.action.restorer),
        item.action.mask.bits,
    ];
    put_line(alloc, out, b"action", &numbers)
}

/// Appends `pending SIGNAL ERRNO CODE PID UID VALUE`, with `ERRNO` and `CODE` as their two's complements in 32 bits.
#[tactic(auto, unfolding(crate::specs::Signals::pending_text))]
pub fn put_pending(alloc: Global, out: &mut Vec<u8>, info: SigInfo) -> Result<(), OutOfMemory>
    ensures { OnOk result (out.new.items ≡ out.old.items ++ pending_text info) }
{
    let numbers = [
        u64::from(info.signal),
        u64::from(info.errno.cast_unsigned()),
        u64::from(info.code.cast_unsigned()),
        u64::from(info.pid),
        u64::from(info.uid),
        info.value,
    ];
    put_line(alloc, out, b"pending", &numbers)
}
