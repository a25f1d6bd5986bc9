//! The line of a limit.

ghost use Rattle.std.specs.Prelude.{◌≡◌, ◌++◌, OnOk};
ghost use Rattle.report_text.specs.Limits.{limit_text};

use crate::fields::put_line;
use kernel_values::{LimitItem, OutOfMemory};
use std::alloc::Global;

/// Appends `limit RESOURCE SOFT HARD`.
#[tactic(auto, unfolding(crate::specs::Limits::limit_text))]
pub fn put_limit(alloc: Global, out: &mut Vec<u8>, item: LimitItem) -> Result<(), OutOfMemory>
    ensures { OnOk result (out.new.items ≡ out.old.items ++ limit_text item) }
{
    let numbers = [u64::from(item.resource), item.limit.soft, item.limit.hard];
    put_line(alloc, out, b"limit", &numbers)
}
